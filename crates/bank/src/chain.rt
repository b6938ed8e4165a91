// A bank of members one before the other, each of a kind of its own: any member before any bank.
ghost use Rattle.std.specs.Prelude.{◌≡◌};
ghost use Rattle.bank.specs.Chains.{linked, Linked, LinkedSound, linked_meaning, linked_change};
ghost use Rattle.bank.specs.ChainsLemmas.{linked_lawful};
ghost use Rattle.std.proofs.Common.{rules};

use crate::{Bank, BankFault};
use member::Member;

// A member in slot 0, before a bank whose slots stand one further each.
#[derive(Drop)]
pub struct Link<M, B> {
    pub first: M,
    pub rest: B,
}

impl<M: Member, B: Bank> Link<M, B> {
    // The member before the bank.
    pub fn new(first: M, rest: B) -> Link<M, B>
        ensures first { result.first ≡ first }
        ensures rest { result.rest ≡ rest }
    {
        Link { first, rest }
    }
}

impl<M: Member, B: Bank> Bank for Link<M, B> {
    ghost State = { Linked M.Member.State B.Bank.State };

    ghost state = { λ x. linked (M.Member.state x.first) (B.Bank.state x.rest) };

    ghost sound = { λ s. LinkedSound M.Member.sound B.Bank.sound s };

    ghost meaning = { λ s. linked_meaning M.Member.meaning B.Bank.meaning s };

    ghost seen = { λ s i b n. linked_change (λ x. M.Member.seen x b n) (λ x k. B.Bank.seen x k b n) s i };

    ghost wrote = { λ s i b v. linked_change (λ x. M.Member.wrote x b v) (λ x k. B.Bank.wrote x k b v) s i };

    ghost ticked = { λ s i. linked_change M.Member.ticked B.Bank.ticked s i };

    ghost renewed = { λ s i. linked_change M.Member.renewed B.Bank.renewed s i };

    ghost holds = { Prim.search rules };

    ghost lawful = { linked_lawful M.Member.lawful B.Bank.lawful };

    fn len(&self) -> usize {
        self.rest.len().saturating_add(1)
    }

    fn count(&self, slot: usize) -> Result<usize, BankFault> {
        if slot == 0 {
            return Ok(self.first.count());
        }
        self.rest.count(slot - 1)
    }

    fn look(&self, slot: usize, block: usize) -> Result<(), BankFault> {
        if slot == 0 {
            return Ok(self.first.look(block)?);
        }
        self.rest.look(slot - 1, block)
    }

    fn read(&mut self, slot: usize, block: usize, buffer: &mut [u8]) -> Result<(), BankFault> {
        if slot == 0 {
            return Ok(self.first.read(block, buffer)?);
        }
        self.rest.read(slot - 1, block, buffer)
    }

    fn write(&mut self, slot: usize, block: usize, bytes: &[u8]) -> Result<(), BankFault> {
        if slot == 0 {
            return Ok(self.first.write(block, bytes)?);
        }
        self.rest.write(slot - 1, block, bytes)
    }

    fn tick(&mut self, slot: usize) -> Result<(), BankFault> {
        if slot == 0 {
            self.first.tick();
            return Ok(());
        }
        self.rest.tick(slot - 1)
    }

    fn fresh(&mut self, slot: usize) -> Result<(), BankFault> {
        if slot == 0 {
            self.first.fresh();
            return Ok(());
        }
        self.rest.fresh(slot - 1)
    }
}
