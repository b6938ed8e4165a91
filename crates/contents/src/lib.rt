// What a volume holds and what its calls may do to it: the words that its calls answer in, and the theorems on its contents.
#![tactic(auto)]

ghost use Rattle.std.specs.Prelude.{◌≡◌};
ghost use Rattle.contents.specs.declared.Refusal.TheVariants.{Failed};
ghost use Rattle.contents.specs.Refusals.{told, outcome};
ghost use Rattle.contents.specs.Records.{slot_after, slot_answer};
ghost use Rattle.contents.specs.Theorems.{Reads, Writes, Scrubs, Ticks, Formats, SmallestCount, Forms, Losses};
ghost use Rattle.contents.specs.Rebuilds.{Replaces, Opens, Closes, Rebuilds, RebuildLosses};

use bank::BankFault;
use member::Fault;

// How the column of a stripe on a slot stands. A column that is not current is missing, with the first cause that applies.
#[derive(Clone, Copy, PartialEq, Eq, Debug)]
pub enum Status {
    // its member is present, the stripe is below the slot's frontier and its block is readable
    Current,
    // its member is gone
    Gone,
    // the stripe is not below the slot's frontier
    Behind,
    // its block cannot be read
    Unreadable,
}

// What is lost of a stripe. Bit i of a mask is slot i.
#[derive(Clone, Copy, PartialEq, Eq, Debug)]
pub struct Loss {
    pub stripe: usize,
    pub gone: u32,
    pub behind: u32,
    pub unreadable: u32,
}

// Whether parts can make a volume: two words and no `bool`, which would not say which of them `true` is.
#[derive(Clone, Copy, PartialEq, Eq, Debug)]
pub enum Fitness {
    Fit,
    Unfit,
}

// Whether a slot is being rebuilt.
#[derive(Clone, Copy, PartialEq, Eq, Debug)]
pub enum SlotState {
    Idle,
    Open,
}

// What befalls a slot.
#[derive(Clone, Copy, PartialEq, Eq, Debug)]
pub enum SlotEvent {
    // its member is replaced by a fresh one
    Replaced,
    // a rebuild of it begins
    Opened,
    // one more stripe of it is rebuilt
    Stepped,
    // its rebuild ends
    Closed,
}

// The record of a slot. The stripes below its frontier are in its member.
#[derive(Clone, Copy, PartialEq, Eq, Debug)]
pub struct SlotRecord {
    pub state: SlotState,
    pub frontier: usize,
}

// Why a call on a volume is refused.
#[derive(Clone, Copy, PartialEq, Eq, Debug)]
pub enum Refusal {
    // there is no such block, stripe or slot
    NoSuch,
    // a buffer that is not 512 bytes
    Length,
    // too many columns of the stripe are missing, and nothing was done
    Lost(Loss),
    // a write that was taken, after which three or more columns of the stripe are missing
    Torn(Loss),
    // the slot is being rebuilt
    Busy,
    // all stripes of the slot are in its member
    Whole,
    // the slot is not being rebuilt
    NotOpen,
    // the member refused the rebuilt column, with this fault
    Failed(Fault),
}

// A member's fault goes up through its bank and its volume whole.
impl From<BankFault> for Refusal {
    ghost from_gives = { λ x y. y ≡ Failed x.fault };

    fn from(refusal: BankFault) -> Refusal {
        Refusal::Failed(refusal.fault)
    }
}

impl Refusal {
    // The number by which the refusal is known. A method and no `From`, since `u8::from(refusal)` would not say which number.
    pub fn number(self) -> u8
        ensures value { result ≡ (told self).number }
    {
        match self {
            Refusal::NoSuch => 2,
            Refusal::Length => 3,
            Refusal::Lost(_) => 4,
            Refusal::Torn(_) => 5,
            Refusal::Busy => 6,
            Refusal::Whole => 7,
            Refusal::NotOpen => 8,
            Refusal::Failed(_) => 9,
        }
    }
}

impl SlotRecord {
    // What the event makes of this slot, of a volume with so many stripes. Answers the frontier, or refuses and changes nothing.
    pub fn meet(&mut self, event: SlotEvent, stripes: usize) -> Result<usize, Refusal>
        ensures after { self.new ≡ slot_after stripes self.old event }
        ensures answered { outcome result ≡ slot_answer stripes self.old event }
    {
        match (self.state, event) {
            (SlotState::Idle, SlotEvent::Replaced) => {
                self.frontier = 0;
                Ok(0)
            }
            (SlotState::Idle, SlotEvent::Opened) => {
                if self.frontier >= stripes {
                    return Err(Refusal::Whole);
                }
                self.state = SlotState::Open;
                Ok(self.frontier)
            }
            (SlotState::Idle, SlotEvent::Stepped | SlotEvent::Closed) => Err(Refusal::NotOpen),
            (SlotState::Open, SlotEvent::Replaced | SlotEvent::Opened) => Err(Refusal::Busy),
            (SlotState::Open, SlotEvent::Stepped) => {
                if self.frontier >= stripes {
                    return Err(Refusal::Whole);
                }
                self.frontier += 1;
                Ok(self.frontier)
            }
            (SlotState::Open, SlotEvent::Closed) => {
                self.state = SlotState::Idle;
                Ok(self.frontier)
            }
        }
    }
}

// A read that is answered leaves the block of every content that fits. Where some content fits, all that fit agree at a block
// exactly when its read is answered.
pub fn reads()
    ensures stands { Reads }
{}

// A content that fits before a taken write fits after it with the new block, whichever of its three columns the members refuse.
pub fn writes()
    ensures stands { Writes }
{}

// Every content that fits before a scrub fits after it, and what the members take is mended.
pub fn scrubs()
    ensures stands { Scrubs }
{}

// Every content that fits before a tick fits after it.
pub fn ticks()
    ensures stands { Ticks }
{}

// The content of zeros fits after formatting, whatever the members refused.
pub fn formats()
    ensures stands { Formats }
{}

// The smallest count is below no member's, and one member has it.
pub fn smallest_count()
    ensures stands { SmallestCount }
{}

// The parts of a volume, fit or unfit, give it a valid shape.
pub fn forms()
    ensures stands { Forms }
{}

// A write or scrub is refused for loss exactly when three or more columns of its stripe are missing, and the masks name exactly
// those slots, each once and with its cause.
pub fn losses()
    ensures stands { Losses }
{}

// Every content that fits before a replacement fits after it, whatever the fresh member holds.
pub fn replaces()
    ensures stands { Replaces }
{}

// Every content that fits goes on fitting as a rebuild begins or ends.
pub fn opens_and_closes()
    ensures opens { Opens }
    ensures closes { Closes }
{}

// Every content that fits before a step of a rebuild fits after it, with one more stripe of the slot in its member if that took it.
pub fn rebuilds()
    ensures stands { Rebuilds }
{}

// A step that meets no earlier check is refused for loss exactly when three or more columns of the frontier's stripe are missing.
pub fn rebuild_losses()
    ensures stands { RebuildLosses }
{}
