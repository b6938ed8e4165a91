// Reads of a volume: one member where the block's column is current, else what the others recover.
ghost use Rattle.std.specs.Prelude.{◌≡◌, length};
ghost use Rattle.contents.specs.Refusals.{outcome};
ghost use Rattle.contents.specs.Answers.{read_outcome, read_leaves};
ghost use Rattle.volume.specs.Columns.{ColumnRead};
ghost use Rattle.volume.specs.Grids.{grid_shape, grid_frontiers};
ghost use Rattle.volume.specs.Slots.{members_in, slots_in};
ghost use Rattle.contents.specs.Theorems.{Reading, Losing};
ghost use Rattle.volume.specs.Volumes.{shape, members, frontiers, Kept};

use crate::grid::Grid;
use crate::volume::Volume;
use bank::Bank;
use code::{BLOCK, Code};
use contents::Refusal;
use layout::Layout;

impl<'a, C: Code, L: Layout> Grid<'a, C, L> {
    // Column `t` of stripe `s` into a buffer, from its member alone if it is current.
    fn read_column<B: Bank>(
        &self,
        bank: &mut B,
        s: usize,
        t: usize,
        into: &mut [u8; BLOCK],
    ) -> Result<(), Refusal>
        ensures read { ColumnRead (grid_shape C.Code L.Layout self.now) (members_in B.Bank bank.old) (grid_frontiers self.now) s t into.old into.new result }
        ensures same { slots_in B.Bank bank.new ≡ slots_in B.Bank bank.old }
    {
        if self.load(bank, s, t, into) {
            return Ok(());
        }
        let survey = self.survey(bank, s);
        if survey.missing > 2 {
            return Err(Refusal::Lost(self.loss(bank, s)));
        }
        self.rebuild(bank, s, t, survey, into);
        Ok(())
    }
}

impl<C: Code, L: Layout, B: Bank> Volume<C, L, B> {
    // Writes a block of the volume into the buffer: what its member holds, or what the others recover.
    pub fn read(&mut self, block: usize, buffer: &mut [u8]) -> Result<(), Refusal>
        ensures answered { outcome result ≡ read_outcome (shape C.Code L.Layout self.old) (members B.Bank self.old) (frontiers self.old) block (length buffer.old) }
        ensures after { buffer.new ≡ read_leaves (shape C.Code L.Layout self.old) (members B.Bank self.old) (frontiers self.old) block buffer.old }
        ensures same { slots_in B.Bank self.new.bank ≡ slots_in B.Bank self.old.bank }
        ensures kept { Kept self.old self.new }
        ensures right { Reading (shape C.Code L.Layout self.old) (members B.Bank self.old) (frontiers self.old) }
        ensures loss { Losing (shape C.Code L.Layout self.old) (members B.Bank self.old) (frontiers self.old) }
    {
        let buffer = buffer.as_mut_array::<BLOCK>().ok_or(Refusal::Length)?;
        let grid = Grid::of(&self.code, &self.layout, self.size, &self.table);
        if block >= grid.blocks() {
            return Err(Refusal::NoSuch);
        }
        let k = grid.size.slots - 2;
        grid.read_column(&mut self.bank, block / k, block % k, buffer)
    }
}
