ghost use Rattle.std.specs.Prelude.{◌≡◌, ◌<◌, ◌≤◌, ℕ, Bool, List, Option, length};
ghost use Rattle.ante_links.specs.LinkStates.{LinkState, Door};
ghost use Rattle.ante_links.specs.Links.{Accepts, Admits, Changes, Listens, OneRead, OneWrite, read_room};

/// A read of a link is handed this many bytes of room.
pub const READ_ROOM: usize = 65_536;

/// The number of a link, from 0 in the order of acceptance.
#[derive(Clone, Copy, Debug, PartialEq, Eq)]
pub struct LinkId(pub u32);

/// What `listen` answered.
#[derive(Clone, Copy, Debug, PartialEq, Eq)]
pub enum Begun {
    Listening,
    Failed,
}

/// What `accept` answered.
#[derive(Clone, Copy, Debug, PartialEq, Eq)]
pub enum Accept {
    /// A link.
    New(LinkId),
    /// None has come yet.
    NotReady,
    Failed,
}

/// What a read of a link answered.
#[derive(Clone, Copy, Debug, PartialEq, Eq)]
pub enum LinkRead {
    /// The front of the buffer has this many bytes of the input.
    Bytes(usize),
    /// None has come yet.
    NotReady,
    /// The input is over.
    End,
    Failed,
}

/// What a write to a link answered.
#[derive(Clone, Copy, Debug, PartialEq, Eq)]
pub enum LinkWrite {
    /// This many bytes of the buffer's front were written.
    Wrote(usize),
    /// There is no room yet.
    NotReady,
    Failed,
}

/// Links to peers, which come through a door.
pub trait Links {
    /// Whether links of this kind tell their bytes.
    ghost tells: { Bool };

    /// What each later call of `accept` is to give that doesn't fail: the whole input of a link, or none where it waits. It is the truth
    /// where these links tell their bytes.
    ghost to_come: { Self → List (Option (List ℕ)) };

    /// The links given so far, by number.
    ghost links: { Self → List LinkState };

    ghost door: { Self → Door };

    /// Begins to listen at a port of this machine.
    fn listen(&mut self, port: u16) -> Begun
        ensures come { to_come self.new ≡ to_come self.old }
        ensures links { links self.new ≡ links self.old }
        ensures door { Listens (door self.old) (door self.new) result };

    fn accept(&mut self) -> Accept
        ensures link { Accepts tells (to_come self.old) (to_come self.new) (links self.old) (links self.new) result }
        ensures door { Admits (door self.old) (door self.new) result };

    /// Reads into the front of the buffer.
    fn read(&mut self, link: LinkId, into: &mut [u8]) -> LinkRead
        requires given { link.0 < length (links self.old) }
        requires room { length into.old ≡ read_room }
        ensures come { to_come self.new ≡ to_come self.old }
        ensures door { door self.new ≡ door self.old }
        ensures change { Changes link.0 (links self.old) (links self.new) (λ before after. OneRead tells before after into.new result) };

    /// Writes a front of the bytes, which aren't empty.
    fn write(&mut self, link: LinkId, bytes: &[u8]) -> LinkWrite
        requires given { link.0 < length (links self.old) }
        requires some { 1 ≤ length bytes.now }
        ensures come { to_come self.new ≡ to_come self.old }
        ensures door { door self.new ≡ door self.old }
        ensures change { Changes link.0 (links self.old) (links self.new) (λ before after. OneWrite tells before after bytes.now result) };

    /// Nothing more is read from the link or written to it.
    fn close(&mut self, link: LinkId)
        requires { link.0 < length (links self.old) }
        ensures come { to_come self.new ≡ to_come self.old }
        ensures door { door self.new ≡ door self.old }
        ensures links { links self.new ≡ links self.old };
}
