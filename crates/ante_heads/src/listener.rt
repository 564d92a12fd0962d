ghost use Rattle.ante_heads.specs.Hearings.{Hears};

use ante_types::Head;

/// A new head, at its place in the applied list. It is a switch where its predecessor isn't the head before it.
#[derive(Clone, Copy, Debug, PartialEq, Eq)]
pub struct HeadEvent {
    pub position: u64,
    pub head: Head,
    pub switched: bool,
}

/// What a listener answers to an event.
#[derive(Clone, Copy, Debug, PartialEq, Eq)]
pub enum Hearing {
    /// It hears the next one too.
    On,
    /// It hears no more.
    Enough,
    /// It didn't hear this one, and hears no more.
    OutOfMemory,
}

/// Is told each new head.
pub trait Listener: Drop {
    ghost use Rattle.std.specs.Prelude.{List, Option};
    ghost use Rattle.ante_heads.specs.declared.listener.HeadEvent.{HeadEvent};

    /// All that it heard, where it tells it.
    ghost log: { Self → Option (List HeadEvent) };

    fn hear(&mut self, event: &HeadEvent) -> Hearing
        ensures { Hears event.now (log self.old) (log self.new) result };
}
