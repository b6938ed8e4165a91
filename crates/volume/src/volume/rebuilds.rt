// Replacement of a slot's member, and the rebuild of what it should hold, stripe by stripe, while the volume is in use.
ghost use Rattle.std.specs.Prelude.{◌≡◌, ◌<◌, ◌≤◌, true, is_ok, if◌then◌else◌};
ghost use Rattle.bank.specs.Slots.{bank_refusal};
ghost use Rattle.contents.specs.declared.SlotEvent.TheVariants.{Opened, Closed};
ghost use Rattle.contents.specs.Refusals.{told, outcome, answering};
ghost use Rattle.contents.specs.Records.{frontiers};
ghost use Rattle.contents.specs.Shapes.{Roomy};
ghost use Rattle.contents.specs.Theorems.{CountsKept, TellsLoss};
ghost use Rattle.contents.specs.Rebuilds.{event_outcome, event_records, replace_outcome, open_outcome, step_outcome, step_fault, close_outcome, rebuilt, fault_of, open_here, ReplaceChanges, StepChanges, FitsOver};
ghost use Rattle.volume.specs.Columns.{ColumnRebuilt};
ghost use Rattle.volume.specs.Grids.{grid_shape, grid_frontiers};
ghost use Rattle.volume.specs.Slots.{members_in};
ghost use Rattle.volume.specs.Volumes.{shape, members, records, PartsKept, ordered};

use crate::grid::Grid;
use crate::size::size_with;
use crate::volume::Volume;
use bank::{Bank, BankFault};
use code::{BLOCK, Code};
use contents::{Refusal, SlotEvent};
use layout::Layout;

// A rebuild that was opened and has to be closed: a program that lets it fall does not compile.
pub struct Order {
    slot: usize,
}

impl Order {
    // The slot that is to be rebuilt.
    pub fn slot(&self) -> usize
        ensures value { result ≡ self.now.slot }
    {
        self.slot
    }
}

// A bank's answer as the answer of its volume: the fault goes up whole.
fn lifted(answer: Result<(), BankFault>) -> Result<(), Refusal>
    ensures answered { outcome result ≡ answering tt (rebuilt (bank_refusal answer) 0) }
    ensures fault { fault_of result ≡ bank_refusal answer }
{
    answer?;
    Ok(())
}

impl<'a, C: Code, L: Layout> Grid<'a, C, L> {
    // Writes what is recovered of stripe `s` to a slot that is behind it, unless three or more columns are missing.
    fn rebuild_column<B: Bank>(&self, bank: &mut B, slot: usize, s: usize) -> Result<(), Refusal>
        requires within { (slot < self.now.size.slots) × (s < self.now.size.stripes) }
        requires behind { grid_frontiers self.now slot ≤ s }
        ensures rebuilt { ColumnRebuilt (grid_shape C.Code L.Layout self.now) (members_in B.Bank bank.old) (grid_frontiers self.now) s slot (members_in B.Bank bank.new) result }
    {
        let survey = self.survey(bank, s);
        if survey.missing > 2 {
            return Err(Refusal::Lost(self.loss(bank, s)));
        }
        let mut column = [0u8; BLOCK];
        let t = self.layout.column_of(self.size.slots, s, slot);
        self.rebuild(bank, s, t, survey, &mut column);
        lifted(bank.write(slot, s, &column))
    }
}

impl<C: Code, L: Layout, B: Bank> Volume<C, L, B> {
    // The record of a slot meets an event, and every other record is kept. Where there is no such slot, this refusal is answered.
    fn meet(&mut self, slot: usize, event: SlotEvent, absent: Refusal) -> Result<usize, Refusal>
        ensures answered { outcome result ≡ event_outcome (shape C.Code L.Layout self.old) (records self.old) slot event (told absent) }
        ensures records { records self.new ≡ event_records (shape C.Code L.Layout self.old) (records self.old) slot event }
        ensures bank { self.new.bank ≡ self.old.bank }
        ensures kept { PartsKept self.old self.new }
    {
        let size = size_with(&self.code, self.size);
        if slot >= size.slots {
            return Err(absent);
        }
        self.table.change(slot, event, size.stripes)
    }

    // Puts a fresh member in the place of a slot's: nothing of the volume is in it until it is rebuilt.
    pub fn replace(&mut self, slot: usize) -> Result<(), Refusal>
        ensures answered { outcome result ≡ replace_outcome (shape C.Code L.Layout self.old) (records self.old) slot }
        ensures changes { ReplaceChanges (shape C.Code L.Layout self.old) (members B.Bank self.old) (records self.old) slot (members B.Bank self.new) (records self.new) }
        ensures exact { B.Bank.state self.new.bank ≡ (if is_ok result then B.Bank.renewed (B.Bank.state self.old.bank) slot else B.Bank.state self.old.bank) }
        ensures kept { PartsKept self.old self.new }
        ensures right { FitsOver (shape C.Code L.Layout self.old) (members B.Bank self.old) (records self.old) (members B.Bank self.new) (records self.new) × CountsKept (members B.Bank self.old) (members B.Bank self.new) }
    {
        self.meet(slot, SlotEvent::Replaced, Refusal::NoSuch)?;
        let _ = self.bank.fresh(slot);
        Ok(())
    }

    // Opens a slot to be rebuilt, and hands out the order for it.
    pub fn open(&mut self, slot: usize) -> Result<Order, Refusal>
        ensures answered { ordered result ≡ open_outcome (shape C.Code L.Layout self.old) (records self.old) slot }
        ensures bank { self.new.bank ≡ self.old.bank }
        ensures records { records self.new ≡ event_records (shape C.Code L.Layout self.old) (records self.old) slot Opened }
        ensures kept { PartsKept self.old self.new }
        ensures right { FitsOver (shape C.Code L.Layout self.old) (members B.Bank self.old) (records self.old) (members B.Bank self.old) (records self.new) }
    {
        self.meet(slot, SlotEvent::Opened, Refusal::NoSuch)?;
        Ok(Order { slot })
    }

    // Rebuilds one more stripe of the order's slot, and answers the new frontier. Where the member refuses it, the frontier stays.
    pub fn step(&mut self, order: &Order) -> Result<usize, Refusal>
        ensures answered { Roomy (shape C.Code L.Layout self.old) (members B.Bank self.old) → outcome result ≡ step_outcome (shape C.Code L.Layout self.old) (members B.Bank self.old) (records self.old) order.now.slot }
        ensures fault { Roomy (shape C.Code L.Layout self.old) (members B.Bank self.old) → fault_of result ≡ step_fault (shape C.Code L.Layout self.old) (members B.Bank self.old) (records self.old) order.now.slot }
        ensures changes { Roomy (shape C.Code L.Layout self.old) (members B.Bank self.old) → StepChanges (shape C.Code L.Layout self.old) (members B.Bank self.old) (records self.old) order.now.slot (members B.Bank self.new) (records self.new) }
        ensures kept { PartsKept self.old self.new }
        ensures right { Roomy (shape C.Code L.Layout self.old) (members B.Bank self.old) → FitsOver (shape C.Code L.Layout self.old) (members B.Bank self.old) (records self.old) (members B.Bank self.new) (records self.new) × CountsKept (members B.Bank self.old) (members B.Bank self.new) }
        ensures loss { open_here (shape C.Code L.Layout self.old) (records self.old) order.now.slot ≡ true → ((records self.old) order.now.slot).frontier < (shape C.Code L.Layout self.old).stripes → TellsLoss (shape C.Code L.Layout self.old) (members B.Bank self.old) (frontiers (records self.old)) ((records self.old) order.now.slot).frontier (step_outcome (shape C.Code L.Layout self.old) (members B.Bank self.old) (records self.old) order.now.slot) }
    {
        let grid = Grid::of(&self.code, &self.layout, self.size, &self.table);
        let stripes = grid.size.stripes;
        let Some(stripe) = grid.open_frontier(order.slot) else {
            return Err(Refusal::NotOpen);
        };
        if stripe >= stripes {
            return Err(Refusal::Whole);
        }
        grid.rebuild_column(&mut self.bank, order.slot, stripe)?;
        self.table.change(order.slot, SlotEvent::Stepped, stripes)
    }

    // Ends the rebuild of the order's slot, and answers how far it came. The order is used up, whatever is answered.
    pub fn close(&mut self, order: Order) -> Result<usize, Refusal>
        ensures answered { outcome result ≡ close_outcome (shape C.Code L.Layout self.old) (records self.old) order.slot }
        ensures bank { self.new.bank ≡ self.old.bank }
        ensures records { records self.new ≡ event_records (shape C.Code L.Layout self.old) (records self.old) order.slot Closed }
        ensures kept { PartsKept self.old self.new }
        ensures right { FitsOver (shape C.Code L.Layout self.old) (members B.Bank self.old) (records self.old) (members B.Bank self.old) (records self.new) }
    {
        let Order { slot } = order;
        self.meet(slot, SlotEvent::Closed, Refusal::NotOpen)
    }
}
