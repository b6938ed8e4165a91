// Writes to a volume: the difference that a block makes goes to its own column, to P and to Q.
ghost use Rattle.std.specs.Prelude.{◌≡◌, ◌+◌, ◌<◌, length};
ghost use Rattle.code.specs.Blocks.{◌⊕◌};
ghost use Rattle.contents.specs.Refusals.{outcome};
ghost use Rattle.contents.specs.Changes.{WriteChanges};
ghost use Rattle.contents.specs.Answers.{after_write, write_outcome};
ghost use Rattle.contents.specs.Shapes.{Roomy};
ghost use Rattle.volume.specs.Columns.{ColumnWritten};
ghost use Rattle.volume.specs.Grids.{grid_shape, width, grid_frontiers, columns_on, recovered_on};
ghost use Rattle.volume.specs.Slots.{members_in, slots_in, Surveyed};
ghost use Rattle.volume.specs.Stores.{Stores};
ghost use Rattle.contents.specs.Theorems.{Writing, Losing};
ghost use Rattle.volume.specs.Volumes.{shape, members, frontiers, Kept};

use crate::grid::Grid;
use crate::survey::Survey;
use crate::volume::Volume;
use bank::Bank;
use code::xor::xor_into;
use code::{BLOCK, Code};
use contents::Refusal;
use layout::Layout;
use recovery::parities::change;

impl<'a, C: Code, L: Layout> Grid<'a, C, L> {
    // P and Q of stripe `s` as data column `c` is given these bytes, into two buffers.
    fn parities<B: Bank>(
        &self,
        bank: &mut B,
        s: usize,
        c: usize,
        survey: Survey,
        bytes: &[u8; BLOCK],
        p: &mut [u8; BLOCK],
        q: &mut [u8; BLOCK],
    )
        requires column { c < width self.now }
        requires surveyed { Surveyed (columns_on L.Layout self.now (slots_in B.Bank bank.old) s) (width self.now) survey }
        ensures same { slots_in B.Bank bank.new ≡ slots_in B.Bank bank.old }
        ensures p { p.new ≡ recovered_on C.Code L.Layout self.now (slots_in B.Bank bank.old) s (width self.now) ⊕ (recovered_on C.Code L.Layout self.now (slots_in B.Bank bank.old) s c ⊕ bytes.now) }
        ensures q { q.new ≡ recovered_on C.Code L.Layout self.now (slots_in B.Bank bank.old) s (width self.now + 1) ⊕ (C.Code.coding self.now.code.now).mix c (recovered_on C.Code L.Layout self.now (slots_in B.Bank bank.old) s c ⊕ bytes.now) }
    {
        let mut difference = [0u8; BLOCK];
        let k = self.width();
        self.fetch(bank, s, c, survey, &mut difference);
        self.fetch(bank, s, k, survey, p);
        self.fetch(bank, s, k + 1, survey, q);
        let _ = xor_into(bytes, &mut difference);
        let _ = change(self.code, c, &difference, p, q);
    }

    // How many columns of stripe `s` are missing after a write to it.
    fn after_write<B: Bank>(&self, bank: &B, s: usize) -> Result<usize, Refusal>
        ensures answered { outcome result ≡ after_write (grid_shape C.Code L.Layout self.now) (members_in B.Bank bank.now) (grid_frontiers self.now) s }
    {
        let survey = self.survey(bank, s);
        if survey.missing > 2 {
            return Err(Refusal::Torn(self.loss(bank, s)));
        }
        Ok(survey.missing)
    }

    // Writes bytes to data column `c` of stripe `s`, and the new P and Q, in that order.
    fn spread<B: Bank>(
        &self,
        bank: &mut B,
        s: usize,
        c: usize,
        bytes: &[u8; BLOCK],
        p: &[u8; BLOCK],
        q: &[u8; BLOCK],
    )
        ensures stored { Stores (L.Layout.slot self.now.layout.now self.now.size.slots s) (grid_frontiers self.now) s (width self.now) c bytes.now p.now q.now (members_in B.Bank bank.old) (members_in B.Bank bank.new) }
    {
        let k = self.width();
        self.store(bank, s, c, bytes);
        self.store(bank, s, k, p);
        self.store(bank, s, k + 1, q);
    }

    // Gives data column `c` of stripe `s` these bytes, unless three or more columns are missing.
    fn write_column<B: Bank>(
        &self,
        bank: &mut B,
        s: usize,
        c: usize,
        bytes: &[u8; BLOCK],
    ) -> Result<usize, Refusal>
        requires within { (s < self.now.size.stripes) × (c < width self.now) }
        ensures written { ColumnWritten (grid_shape C.Code L.Layout self.now) (members_in B.Bank bank.old) (grid_frontiers self.now) s c bytes.now (members_in B.Bank bank.new) result }
    {
        let survey = self.survey(bank, s);
        if survey.missing > 2 {
            return Err(Refusal::Lost(self.loss(bank, s)));
        }
        let mut p = [0u8; BLOCK];
        let mut q = [0u8; BLOCK];
        self.parities(bank, s, c, survey, bytes, &mut p, &mut q);
        self.spread(bank, s, c, bytes, &p, &q);
        self.after_write(bank, s)
    }
}

impl<C: Code, L: Layout, B: Bank> Volume<C, L, B> {
    // Gives a block of the volume these bytes, in its own column, P and Q. Answers how many columns of its stripe are missing then.
    pub fn write(&mut self, block: usize, bytes: &[u8]) -> Result<usize, Refusal>
        ensures answered { outcome result ≡ write_outcome (shape C.Code L.Layout self.old) (members B.Bank self.old) (frontiers self.old) block (length bytes.now) (members B.Bank self.new) }
        ensures changes { WriteChanges (shape C.Code L.Layout self.old) (members B.Bank self.old) (frontiers self.old) block bytes.now (members B.Bank self.new) }
        ensures kept { Kept self.old self.new }
        ensures right { Roomy (shape C.Code L.Layout self.old) (members B.Bank self.old) → Writing (shape C.Code L.Layout self.old) (members B.Bank self.old) (frontiers self.old) block bytes.now (members B.Bank self.new) }
        ensures loss { Losing (shape C.Code L.Layout self.old) (members B.Bank self.old) (frontiers self.old) }
    {
        let bytes = bytes.as_array::<BLOCK>().ok_or(Refusal::Length)?;
        let grid = Grid::of(&self.code, &self.layout, self.size, &self.table);
        if block >= grid.blocks() {
            return Err(Refusal::NoSuch);
        }
        let k = grid.size.slots - 2;
        grid.write_column(&mut self.bank, block / k, block % k, bytes)
    }
}
