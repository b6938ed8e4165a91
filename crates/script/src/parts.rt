// What a script is made of.
ghost use Rattle.std.specs.Prelude.{◌≡◌};
ghost use Rattle.script.specs.Acts.{act_of};

// The code that a volume is to have.
pub use notation::codes::CodeName;

// A fault that is planned for the member in a slot. Its kind is the script's byte, whether a kind of fault has that number or not.
#[derive(Clone, Copy, PartialEq, Eq, Debug)]
pub struct Entry {
    pub kind: u8,
    pub round: usize,
    pub slot: usize,
    pub block: usize,
}

// An operation as the script has it. Its number may be that of no act: the line of an operation has it as it stands.
#[derive(Clone, Copy, PartialEq, Eq, Debug)]
pub struct Operation {
    pub number: u8,
    pub x: usize,
    pub y: usize,
}

// What an operation asks for.
#[derive(Clone, Copy, PartialEq, Eq, Debug)]
pub enum Act {
    Tick,
    // of a block
    Read(usize),
    // to a block, filled with this byte
    Write(usize, u8),
    // of a stripe
    Scrub(usize),
    // of the member in a slot
    Replace(usize),
    // of the member in a slot, by at most so many steps
    Rebuild(usize, usize),
    // of any other number, which the rules answer by 10: each operation has an act, so that this is no TryFrom
    Unknown,
}

impl From<Operation> for Act {
    ghost from_gives = { λ operation act. act ≡ act_of operation };

    fn from(operation: Operation) -> Act {
        match operation.number {
            0 => Act::Tick,
            1 => Act::Read(operation.x),
            2 => Act::Write(operation.x, (operation.y % 256) as u8),
            3 => Act::Scrub(operation.x),
            4 => Act::Replace(operation.x),
            5 => Act::Rebuild(operation.x, operation.y),
            _ => Act::Unknown,
        }
    }
}
