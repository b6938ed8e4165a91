// Members: numbered blocks of 512 bytes that may be unreadable, refuse writes or be gone. Here are the interface, its faults, and
// the kinds at the bottom of every stack of layers.
#![tactic(auto)]

ghost use Rattle.std.specs.Prelude.{◌≡◌, ℕ, List, length, IfOk, Some, decimal};
ghost use Rattle.member.specs.Faults.{cause_number, numbers, fault_text, refusal, refused_with, ToldApart};
ghost use Rattle.member.specs.Meaning.{Meaning, admission, Good, look_refusal, read_refusal, write_refusal, handed};
ghost use Rattle.member.specs.Changes.{Written, Ticked, Renewed, Lawful};

use code::BLOCK;
use std::error::Error;
use std::fmt;

pub mod cell;
pub mod image;
pub mod run;

// How many blocks a member has at most.
pub const MOST_BLOCKS: usize = 65_535;

// Why a call on a block is refused.
#[derive(Clone, Copy, PartialEq, Eq, Debug)]
pub enum Cause {
    // the member is gone
    Gone,
    // the block cannot be read
    Unreadable,
    // the block takes no write
    Unwritable,
    // there is no such block
    NoBlock,
    // the buffer is not 512 bytes
    BadBuffer,
    // there is no such slot
    NoSlot,
}

// A refusal: its cause, the height of the layer that raised it, and the number that the block has there.
#[derive(Clone, Copy, PartialEq, Eq, Debug)]
pub struct Fault {
    pub cause: Cause,
    pub height: u8,
    pub block: usize,
}

impl Cause {
    // The number by which the cause is known. It has a name and is no `From`, since a `u8` alone does not say what it counts.
    pub fn number(self) -> u8
        ensures value { result ≡ cause_number self }
    {
        match self {
            Cause::Gone => 1,
            Cause::Unreadable => 2,
            Cause::Unwritable => 3,
            Cause::NoBlock => 4,
            Cause::BadBuffer => 5,
            Cause::NoSlot => 6,
        }
    }
}

// A cause is printed as its number.
impl fmt::Display for Cause {
    ghost output = { λ c. Some (decimal (cause_number c)) };

    fn fmt<W: fmt::Write>(&self, f: &mut fmt::Formatter<W>) -> fmt::Result {
        let number = self.number();
        write!(f, "{number}")
    }
}

// A fault is printed as its cause, its height and its block.
impl fmt::Display for Fault {
    ghost output = { λ x. Some (fault_text (numbers x)) };

    fn fmt<W: fmt::Write>(&self, f: &mut fmt::Formatter<W>) -> fmt::Result {
        let Fault {
            cause,
            height,
            block,
        } = *self;
        write!(f, "{cause} {height} {block}")
    }
}

impl Error for Fault {}

// Whether a call was refused with this cause.
pub fn refused_with(answer: &Result<(), Fault>, cause: Cause) -> bool
    ensures value { result ≡ refused_with (cause_number cause) (refusal answer.now) }
{
    answer.as_ref().is_err_and(|fault| fault.cause == cause)
}

// Refuses, for a member of this height with so many blocks, a buffer of so many bytes that is not a block's, and then a block that
// there is not.
pub fn admit(count: usize, height: u8, block: usize, size: usize) -> Result<(), Fault>
    ensures answered { refusal result ≡ admission count height block size }
    ensures good { IfOk result (λ _. Good count block size) }
{
    let fault = |cause| Fault {
        cause,
        height,
        block,
    };
    if size != BLOCK {
        return Err(fault(Cause::BadBuffer));
    }
    if block >= count {
        return Err(fault(Cause::NoBlock));
    }
    Ok(())
}

// Promises in numbers leave nothing of a fault open.
pub fn faults_told_apart()
    ensures stands { ToldApart }
{}

// A member. Every kind and layer tests the buffer and then the block number itself and refuses them at its own height with the
// number asked; then a member that is gone refuses, then a block that is unreadable at a read or not writable at a write.
// Every other read and write is accepted.
pub trait Member {
    // What a member of this kind is made of, which of that there can be, and what it means.
    ghost State: { Type 0 };

    ghost state: { Self → State };

    ghost sound: { State → Type 0 };

    ghost meaning: { State → Meaning };

    // What a read of a block into a buffer of so many bytes makes of a state, a write of bytes to a block, a tick, and fresh.
    ghost seen: { State → ℕ → ℕ → State };

    ghost wrote: { State → ℕ → List ℕ → State };

    ghost ticked: { State → State };

    ghost renewed: { State → State };

    // How many blocks there are.
    fn count(&self) -> usize
        ensures value { result ≡ (meaning (state self.now)).count };

    // The height that the member's own faults carry: 0 at the bottom, one more for each layer, stopping at 255.
    fn height(&self) -> u8
        ensures value { result ≡ (meaning (state self.now)).height };

    // The fault that a read of the block with a good buffer would give, or none.
    fn look(&self, block: usize) -> Result<(), Fault>
        ensures answered { refusal result ≡ look_refusal (meaning (state self.now)) block };

    // Hands out the bytes of a block. A refused read leaves the buffer.
    fn read(&mut self, block: usize, buffer: &mut [u8]) -> Result<(), Fault>
        ensures answered { refusal result ≡ read_refusal (meaning (state self.old)) block (length buffer.old) }
        ensures after { buffer.new ≡ handed (meaning (state self.old)) block buffer.old }
        ensures exact { state self.new ≡ seen (state self.old) block (length buffer.old) }
        ensures same { meaning (state self.new) ≡ meaning (state self.old) };

    // Stores the bytes of a block.
    fn write(&mut self, block: usize, bytes: &[u8]) -> Result<(), Fault>
        ensures answered { refusal result ≡ write_refusal (meaning (state self.old)) block (length bytes.now) }
        ensures exact { state self.new ≡ wrote (state self.old) block bytes.now }
        ensures after { Written (meaning (state self.old)) block bytes.now (meaning (state self.new)) };

    // Lets one unit of time pass.
    fn tick(&mut self)
        ensures exact { state self.new ≡ ticked (state self.old) }
        ensures after { Ticked (meaning (state self.old)) (meaning (state self.new)) };

    // Puts a fresh member in the place of this one.
    fn fresh(&mut self)
        ensures exact { state self.new ≡ renewed (state self.old) }
        ensures after { Renewed (meaning (state self.old)) (meaning (state self.new)) };

    ghost holds: { (x : Self) → sound (state x) };

    ghost lawful: { Lawful sound meaning seen wrote ticked renewed };
}
