// A volume and the calls on it. Block a is column a mod k of stripe a / k, of k data columns.
ghost use Rattle.std.specs.Prelude.{◌≡◌};
ghost use Rattle.contents.specs.Changes.{TickChanges};
ghost use Rattle.contents.specs.Answers.{margin};
ghost use Rattle.contents.specs.Shapes.{blocks, Roomy};
ghost use Rattle.contents.specs.Theorems.{FitsOn, CountsKept};
ghost use Rattle.volume.specs.Volumes.{shape, members, frontiers, Kept};
ghost use Rattle.volume.specs.Turns.{in_turn};

use crate::grid::Grid;
use crate::size::{Size, size_with};
use crate::slots::SlotTable;
use crate::walks::tick_slots;
use bank::Bank;
use code::Code;
use layout::Layout;

pub mod blank;
pub mod reads;
pub mod rebuilds;
pub mod scrubs;
pub mod writes;

// A formatted volume. Its bank is reached through its calls alone.
#[derive(Drop)]
pub struct Volume<C, L, B> {
    code: C,
    layout: L,
    size: Size,
    table: SlotTable,
    bank: B,
}

impl<C: Code, L: Layout, B: Bank> Volume<C, L, B> {
    // Lets one unit of time pass for each member, in slot order.
    pub fn tick(&mut self)
        ensures exact { B.Bank.state self.new.bank ≡ in_turn B.Bank.ticked (shape C.Code L.Layout self.old).slots (B.Bank.state self.old.bank) }
        ensures changes { TickChanges (shape C.Code L.Layout self.old) (members B.Bank self.old) (members B.Bank self.new) }
        ensures kept { Kept self.old self.new }
        ensures right { Roomy (shape C.Code L.Layout self.old) (members B.Bank self.old) → FitsOn (shape C.Code L.Layout self.old) (members B.Bank self.old) (frontiers self.old) (members B.Bank self.new) × CountsKept (members B.Bank self.old) (members B.Bank self.new) }
    {
        let size = size_with(&self.code, self.size);
        tick_slots(&mut self.bank, size.slots);
    }

    // How many more slots may be lost before a block is: two, less the slots that are gone or not wholly rebuilt, not under 0.
    pub fn margin(&self) -> usize
        ensures value { result ≡ margin (shape C.Code L.Layout self.now) (members B.Bank self.now) (frontiers self.now) }
    {
        let grid = Grid::of(&self.code, &self.layout, self.size, &self.table);
        2usize.saturating_sub(grid.weak_slots(&self.bank))
    }

    // How many slots there are.
    pub fn slots(&self) -> usize
        ensures value { result ≡ (shape C.Code L.Layout self.now).slots }
    {
        size_with(&self.code, self.size).slots
    }

    // How many stripes there are.
    pub fn stripes(&self) -> usize
        ensures value { result ≡ (shape C.Code L.Layout self.now).stripes }
    {
        size_with(&self.code, self.size).stripes
    }

    // How many blocks there are.
    pub fn blocks(&self) -> usize
        ensures value { result ≡ blocks (shape C.Code L.Layout self.now) }
    {
        Grid::of(&self.code, &self.layout, self.size, &self.table).blocks()
    }
}
