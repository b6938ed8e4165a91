// Banks: members in numbered slots. Here are the interface and its refusals; a call with a slot number touches that member alone.
#![tactic(auto)]

ghost use Rattle.std.specs.Prelude.{◌≡◌, ℕ, List, length, Some, IfOk};
ghost use Rattle.member.specs.Faults.{numbers, fault_text, refusal};
ghost use Rattle.member.specs.Meaning.{look_refusal, read_refusal, write_refusal};
ghost use Rattle.bank.specs.Slots.{Slots, told, bank_refusal, no_slot, on_slot, slot_refusal, slot_handed};
ghost use Rattle.bank.specs.Changes.{SlotWritten, SlotTicked, SlotRenewed, Lawful};

use member::run::raised;
use member::{Cause, Fault};
use std::error::Error;
use std::fmt;

pub mod chain;
pub mod empty;

// A refusal of a bank: a member's own fault, whole, or one of cause `NoSlot`.
#[derive(Clone, Copy, PartialEq, Eq, Debug)]
pub struct BankFault {
    pub fault: Fault,
}

impl BankFault {
    // The refusal of a slot beyond the list, with the block asked, or 0 where none is asked.
    pub fn no_slot(block: usize) -> BankFault
        ensures value { numbers result.fault ≡ no_slot block }
    {
        BankFault::from(raised(Cause::NoSlot, block))
    }
}

// A member's fault goes up through its bank unchanged, and is printed as it is.
impl From<Fault> for BankFault {
    ghost from_gives = { λ x y. y.fault ≡ x };

    fn from(fault: Fault) -> BankFault {
        BankFault { fault }
    }
}

impl fmt::Display for BankFault {
    ghost output = { λ x. Some (fault_text (numbers x.fault)) };

    fn fmt<W: fmt::Write>(&self, f: &mut fmt::Formatter<W>) -> fmt::Result {
        let fault = self.fault;
        write!(f, "{fault}")
    }
}

impl Error for BankFault {}

// A bank: a list of members. A slot beyond the list is refused with cause `NoSlot`, and nothing changes. Each other call answers
// what the member in that slot answers, and changes that member alone.
pub trait Bank {
    // What a bank of this kind is made of, which of that there can be, and what list of members it means.
    ghost State: { Type 0 };

    ghost state: { Self → State };

    ghost sound: { State → Type 0 };

    ghost meaning: { State → Slots };

    // What a call makes of a state: a read from a slot, of a block, into a buffer of so many bytes; a write to a slot, to a block,
    // of bytes; a tick of a slot; a fresh member in a slot.
    ghost seen: { State → ℕ → ℕ → ℕ → State };

    ghost wrote: { State → ℕ → ℕ → List ℕ → State };

    ghost ticked: { State → ℕ → State };

    ghost renewed: { State → ℕ → State };

    // How many members there are; `usize::MAX` also where there are more.
    fn len(&self) -> usize
        ensures value { result ≡ told (meaning (state self.now)).size };

    // How many blocks the member has.
    fn count(&self, slot: usize) -> Result<usize, BankFault>
        ensures answered { bank_refusal result ≡ slot_refusal (meaning (state self.now)) slot }
        ensures value { IfOk result (λ n. n ≡ ((meaning (state self.now)).member slot).count) };

    // The fault that a read of the block with a good buffer would give, or none.
    fn look(&self, slot: usize, block: usize) -> Result<(), BankFault>
        ensures answered { bank_refusal result ≡ on_slot (meaning (state self.now)) slot block (λ m. look_refusal m block) };

    // Hands out the bytes of a block. A refused read leaves the buffer.
    fn read(&mut self, slot: usize, block: usize, buffer: &mut [u8]) -> Result<(), BankFault>
        ensures answered { bank_refusal result ≡ on_slot (meaning (state self.old)) slot block (λ m. read_refusal m block (length buffer.old)) }
        ensures after { buffer.new ≡ slot_handed (meaning (state self.old)) slot block buffer.old }
        ensures exact { state self.new ≡ seen (state self.old) slot block (length buffer.old) }
        ensures same { meaning (state self.new) ≡ meaning (state self.old) };

    // Stores the bytes of a block.
    fn write(&mut self, slot: usize, block: usize, bytes: &[u8]) -> Result<(), BankFault>
        ensures answered { bank_refusal result ≡ on_slot (meaning (state self.old)) slot block (λ m. write_refusal m block (length bytes.now)) }
        ensures exact { state self.new ≡ wrote (state self.old) slot block bytes.now }
        ensures after { SlotWritten (meaning (state self.old)) slot block bytes.now (meaning (state self.new)) };

    // Lets one unit of time pass for the member.
    fn tick(&mut self, slot: usize) -> Result<(), BankFault>
        ensures answered { bank_refusal result ≡ slot_refusal (meaning (state self.old)) slot }
        ensures exact { state self.new ≡ ticked (state self.old) slot }
        ensures after { SlotTicked (meaning (state self.old)) slot (meaning (state self.new)) };

    // Puts a fresh member in the place of the one in the slot.
    fn fresh(&mut self, slot: usize) -> Result<(), BankFault>
        ensures answered { bank_refusal result ≡ slot_refusal (meaning (state self.old)) slot }
        ensures exact { state self.new ≡ renewed (state self.old) slot }
        ensures after { SlotRenewed (meaning (state self.old)) slot (meaning (state self.new)) };

    ghost holds: { (x : Self) → sound (state x) };

    ghost lawful: { Lawful sound meaning seen wrote ticked renewed };
}
