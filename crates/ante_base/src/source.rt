ghost use Rattle.std.specs.Prelude.{◌≡◌, ℕ, ◌≤◌, List, length, Option};
ghost use Rattle.ante_base.specs.Faults.{HasCause};
ghost use Rattle.ante_base.specs.Source.{CountsWithin, Reads};

/// What a read of a source answered.
#[derive(Clone, Copy, Debug, PartialEq, Eq)]
pub enum Got {
    /// The front of the buffer has this many bytes of the input.
    Bytes(usize),
    /// The input is over.
    End,
    /// The read failed, and a later one may succeed.
    Failed,
}

/// Bytes from outside, read from front to back.
pub trait Source {
    /// The bytes that are left to read, where the source tells them.
    ghost left: { Self → Option (List ℕ) };

    /// How often a read has failed.
    ghost faults: { Self → ℕ };

    /// Reads into the front of the buffer, which isn't empty.
    fn read(&mut self, into: &mut [u8]) -> Got
        requires { 1 ≤ length into.old }
        ensures count { CountsWithin (length into.old) result }
        ensures bytes { Reads (left self.old) (left self.new) into.new result }
        ensures cause { HasCause (faults self.old) (faults self.new) (result ≡ Got.Failed) };
}
