ghost use Rattle.std.specs.Prelude.{◌≡◌, ℕ, ◌≤◌, List, length, Option};
ghost use Rattle.ante_base.specs.Faults.{HasCause};
ghost use Rattle.ante_base.specs.Sink.{Writes};

/// What a write to a sink answered.
#[derive(Clone, Copy, Debug, PartialEq, Eq)]
pub enum Put {
    /// This many bytes of the buffer's front were written.
    Wrote(usize),
    /// Nothing was written, and a later write may succeed.
    Failed,
}

/// A place outside that bytes are written to, in order.
pub trait Sink {
    /// All that was written, where the sink tells it.
    ghost written: { Self → Option (List ℕ) };

    /// How often a write has failed.
    ghost faults: { Self → ℕ };

    /// Writes a front of the bytes, which aren't empty.
    fn write(&mut self, bytes: &[u8]) -> Put
        requires { 1 ≤ length bytes.now }
        ensures bytes { Writes (written self.old) (written self.new) bytes.now result }
        ensures cause { HasCause (faults self.old) (faults self.new) (result ≡ Put.Failed) };
}
