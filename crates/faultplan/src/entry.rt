// One planned fault: its round, its kind, its block, and how far it has come.
ghost use Rattle.std.specs.Prelude.{◌≡◌};
ghost use Rattle.faultplan.specs.Entries.{kind_of, check_cause, after, fails};

use member::Cause;

// What an entry does while it is active.
#[derive(Clone, Copy, PartialEq, Eq, Debug)]
pub enum Kind {
    // the member is gone
    Gone,
    // the block cannot be read until a write to it is accepted
    Unreadable,
    // the block takes no write, and cannot be read once one was refused
    Unwritable,
    // nothing
    Other,
}

// How far an entry has come.
#[derive(Clone, Copy, PartialEq, Eq, Debug)]
pub enum Phase {
    // its round is still to come, or was over when it was added
    Waiting,
    Active,
    // active, and it has refused a write
    Spoiled,
    // over for good
    Ended,
}

// What entries are told of.
#[derive(Clone, Copy, PartialEq, Eq, Debug)]
pub enum Event {
    // a new round begins
    Round(usize),
    // the layer itself has refused a write to the block with cause 3
    Refused(usize),
    // a write to the block was accepted
    Accepted(usize),
    // the member is made fresh
    Fresh,
}

// What a call asks of a member: that it is there, that a block can be read, that a block takes a write.
#[derive(Clone, Copy, PartialEq, Eq, Debug)]
pub enum Check {
    Present,
    Readable(usize),
    Writable(usize),
}

// A planned fault.
#[derive(Clone, Copy, PartialEq, Eq, Debug)]
pub struct Entry {
    pub round: usize,
    pub kind: Kind,
    pub block: usize,
    pub phase: Phase,
}

// The kind with this number. It is no `TryFrom`: other kinds do nothing, so every number is a kind.
impl From<usize> for Kind {
    ghost from_gives = { λ n k. k ≡ kind_of n };

    fn from(number: usize) -> Kind {
        match number {
            1 => Kind::Gone,
            2 => Kind::Unreadable,
            3 => Kind::Unwritable,
            _ => Kind::Other,
        }
    }
}

impl Check {
    // The cause of the fault that answers a call which fails the check.
    pub fn cause(self) -> Cause
        ensures value { result ≡ check_cause self }
    {
        match self {
            Check::Present => Cause::Gone,
            Check::Readable(_) => Cause::Unreadable,
            Check::Writable(_) => Cause::Unwritable,
        }
    }
}

impl Entry {
    // What becomes of the entry at an event.
    pub fn after(self, event: Event) -> Entry
        ensures value { result ≡ after event self }
    {
        let phase = match (self.phase, event) {
            (Phase::Waiting, Event::Round(round)) if self.round == round => Phase::Active,
            (Phase::Active, Event::Refused(block))
                if self.block == block && self.kind == Kind::Unwritable => Phase::Spoiled,
            (Phase::Active, Event::Accepted(block))
                if self.block == block && self.kind == Kind::Unreadable => Phase::Ended,
            (Phase::Active | Phase::Spoiled, Event::Fresh) => Phase::Ended,
            (phase, _) => phase,
        };
        Entry { phase, ..self }
    }

    // Whether the entry makes a check fail.
    pub fn fails(self, check: Check) -> bool
        ensures value { result ≡ fails check self }
    {
        match (check, self.kind, self.phase) {
            (Check::Present, Kind::Gone, Phase::Active) => true,
            (Check::Readable(block), Kind::Unreadable, Phase::Active) => self.block == block,
            (Check::Readable(block), Kind::Unwritable, Phase::Spoiled) => self.block == block,
            (Check::Writable(block), Kind::Unwritable, Phase::Active | Phase::Spoiled) => self.block
                == block,
            _ => false,
        }
    }
}
