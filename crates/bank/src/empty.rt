// The bank without members, with which every chain ends.
ghost use Rattle.bank.specs.Chains.{no_members};
ghost use Rattle.std.proofs.Common.{rules};

use crate::{Bank, BankFault};

// No slot of it is there.
#[derive(Clone, Copy)]
pub struct NoMembers;

impl Bank for NoMembers {
    ghost State = { Unit {0} };

    ghost state = { λ _. tt };

    ghost sound = { λ _. Unit {0} };

    ghost meaning = { λ _. no_members };

    ghost seen = { λ s _ _ _. s };

    ghost wrote = { λ s _ _ _. s };

    ghost ticked = { λ s _. s };

    ghost renewed = { λ s _. s };

    ghost holds = { Prim.search rules };

    ghost lawful = { Prim.search rules };

    fn len(&self) -> usize {
        0
    }

    fn count(&self, _slot: usize) -> Result<usize, BankFault> {
        Err(BankFault::no_slot(0))
    }

    fn look(&self, _slot: usize, block: usize) -> Result<(), BankFault> {
        Err(BankFault::no_slot(block))
    }

    fn read(&mut self, _slot: usize, block: usize, _buffer: &mut [u8]) -> Result<(), BankFault> {
        Err(BankFault::no_slot(block))
    }

    fn write(&mut self, _slot: usize, block: usize, _bytes: &[u8]) -> Result<(), BankFault> {
        Err(BankFault::no_slot(block))
    }

    fn tick(&mut self, _slot: usize) -> Result<(), BankFault> {
        Err(BankFault::no_slot(0))
    }

    fn fresh(&mut self, _slot: usize) -> Result<(), BankFault> {
        Err(BankFault::no_slot(0))
    }
}
