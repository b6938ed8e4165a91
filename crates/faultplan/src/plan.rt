// The table of a fault layer: at most sixteen planned faults, and the count of ticks.
ghost use Rattle.std.specs.Prelude.{◌≡◌, map, Some, decimal};
ghost use Rattle.faultplan.specs.Entries.{after};
ghost use Rattle.faultplan.specs.Plans.{plan_number, add_answer, room_answer, failed, empty, with_entry, told, advanced, EndedForGood};

use crate::entry::{Check, Entry, Event, Kind, Phase};
use std::error::Error;
use std::fmt;

// How many entries there are at most, ended ones counted.
const PLACES: usize = 16;

// Where the count of ticks stops.
const LAST_ROUND: usize = 65_535;

// Why an entry is not added.
#[derive(Clone, Copy, PartialEq, Eq, Debug)]
pub enum PlanRefusal {
    // there are sixteen entries already
    Full,
}

// A refusal is printed as its number.
impl fmt::Display for PlanRefusal {
    ghost output = { λ e. Some (decimal (plan_number e)) };

    fn fmt<W: fmt::Write>(&self, f: &mut fmt::Formatter<W>) -> fmt::Result {
        let number = self.number();
        write!(f, "{number}")
    }
}

impl Error for PlanRefusal {}

impl PlanRefusal {
    // The number by which the refusal is known. It has a name and is no `From`, as of `Cause`: a `u8` alone does not say what it counts.
    pub fn number(self) -> u8
        ensures value { result ≡ plan_number self }
    {
        match self {
            PlanRefusal::Full => 10,
        }
    }
}

// Places beyond `len` hold entries that have ended. The table is of fixed size, with a length beside it: there are at most sixteen
// entries, and the layers use no heap.
#[derive(Drop)]
pub struct Plan {
    entries: [Entry; PLACES],
    len: usize,
    round: usize,
}

// Tells every entry of an event: a tick goes to every entry in the list in turn, by a `for` loop.
fn tell_each(entries: &mut [Entry; PLACES], event: Event)
    ensures after { entries.new ≡ map (after event) entries.old }
{
    for entry in entries.iter_mut() {
        *entry = entry.after(event);
    }
}

impl Plan {
    // No entries, at round 0.
    pub fn new() -> Plan
        ensures value { result ≡ empty }
    {
        let unused = Entry {
            round: 0,
            kind: Kind::Other,
            block: 0,
            phase: Phase::Ended,
        };
        Plan {
            entries: [unused; PLACES],
            len: 0,
            round: 0,
        }
    }

    // Adds an entry, active at once if its round is the present one. A seventeenth is refused.
    pub fn add(&mut self, round: usize, kind: Kind, block: usize) -> Result<(), PlanRefusal>
        ensures answered { add_answer result ≡ room_answer self.old }
        ensures after { self.new ≡ with_entry self.old round kind block }
    {
        let len = self.len;
        if len >= PLACES {
            return Err(PlanRefusal::Full);
        }
        let phase = if round == self.round {
            Phase::Active
        } else {
            Phase::Waiting
        };
        self.entries[len] = Entry {
            round,
            kind,
            block,
            phase,
        };
        self.len = len + 1;
        Ok(())
    }

    // Tells every entry of an event.
    pub fn tell(&mut self, event: Event)
        ensures after { self.new ≡ told event self.old }
    {
        tell_each(&mut self.entries, event);
    }

    // Counts a tick. Where the count changes, the entries of the new round become active.
    pub fn tick(&mut self)
        ensures after { self.new ≡ advanced self.old }
    {
        if self.round < LAST_ROUND {
            self.round += 1;
            self.tell(Event::Round(self.round));
        }
    }

    // Whether some entry makes a check fail.
    pub fn fails(&self, check: Check) -> bool
        ensures value { result ≡ failed check self.now }
    {
        self.entries.iter().any(|entry| entry.fails(check))
    }
}

// Fresh ends what is active, and what has ended stays so.
pub fn ended_for_good()
    ensures theorem { EndedForGood }
{}
