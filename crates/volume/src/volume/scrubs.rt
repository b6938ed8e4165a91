// Scrubs of a stripe: its unreadable columns are recovered and written anew.
ghost use Rattle.std.specs.Prelude.{◌≡◌, ◌<◌, ◌≤◌};
ghost use Rattle.contents.specs.Columns.{status, is_unreadable};
ghost use Rattle.contents.specs.Refusals.{outcome};
ghost use Rattle.contents.specs.Changes.{Moved, Steps, Put, ScrubChanges};
ghost use Rattle.contents.specs.Answers.{scrub_outcome};
ghost use Rattle.contents.specs.Shapes.{Roomy};
ghost use Rattle.volume.specs.Columns.{StripeScrubbed};
ghost use Rattle.volume.specs.Grids.{grid_shape, width, grid_frontiers, columns_on, recovered_on};
ghost use Rattle.volume.specs.Slots.{members_in, slots_in, Surveyed};
ghost use Rattle.volume.specs.Tallies.{tally_of, with_standing, with_mend};
ghost use Rattle.contents.specs.Theorems.{Scrubbing, Losing};
ghost use Rattle.volume.specs.Volumes.{shape, members, frontiers, Kept};

use crate::grid::Grid;
use crate::survey::{Survey, Tally};
use crate::volume::Volume;
use bank::Bank;
use code::{BLOCK, Code};
use contents::{Refusal, Status};
use layout::Layout;

// The tally with one more column that is not unreadable.
fn with_standing(tally: Tally, how: Status) -> Tally
    requires low { tally.absent ≤ 18 }
    ensures value { result ≡ with_standing tally how }
{
    match how {
        Status::Gone | Status::Behind => Tally {
            absent: tally.absent + 1,
            ..tally
        },
        Status::Current | Status::Unreadable => tally,
    }
}

// The tally with one more unreadable column, whose write was taken or refused.
fn with_mend(tally: Tally, taken: bool) -> Tally
    requires low { (tally.mended ≤ 18) × (tally.refused ≤ 18) }
    ensures value { result ≡ with_mend tally taken }
{
    if taken {
        Tally {
            mended: tally.mended + 1,
            ..tally
        }
    } else {
        Tally {
            refused: tally.refused + 1,
            ..tally
        }
    }
}

impl<'a, C: Code, L: Layout> Grid<'a, C, L> {
    // Writes the unreadable columns of stripe `s` on the first `i` slots anew, in slot order. Each is recovered before any is written,
    // so it calls itself: a loop would have to keep all of them.
    fn scrub_slots<B: Bank>(&self, bank: &mut B, s: usize, i: usize, survey: Survey) -> Tally
        requires within { i ≤ self.now.size.slots }
        requires surveyed { Surveyed (columns_on L.Layout self.now (slots_in B.Bank bank.old) s) (width self.now) survey }
        ensures steps { Steps i (λ j. Moved (Put (is_unreadable (status (members_in B.Bank bank.old) (grid_frontiers self.now) s j)) s (recovered_on C.Code L.Layout self.now (slots_in B.Bank bank.old) s (L.Layout.column self.now.layout.now self.now.size.slots s j))) j) (members_in B.Bank bank.old) (members_in B.Bank bank.new) }
        ensures tally { result ≡ tally_of (members_in B.Bank bank.old) (grid_frontiers self.now) s i }
    {
        if i == 0 {
            return Tally {
                mended: 0,
                refused: 0,
                absent: 0,
            };
        }
        let slot = i - 1;
        let how = self.status(bank, s, slot);
        if how != Status::Unreadable {
            return with_standing(self.scrub_slots(bank, s, slot, survey), how);
        }
        let mut column = [0u8; BLOCK];
        let t = self.layout.column_of(self.size.slots, s, slot);
        self.rebuild(bank, s, t, survey, &mut column);
        let tally = self.scrub_slots(bank, s, slot, survey);
        with_mend(tally, bank.write(slot, s, &column).is_ok())
    }

    // Writes the unreadable columns of stripe `s` anew, unless three or more columns are missing.
    fn scrub_stripe<B: Bank>(
        &self,
        bank: &mut B,
        s: usize,
    ) -> Result<(usize, usize, usize), Refusal>
        requires within { s < self.now.size.stripes }
        ensures scrubbed { StripeScrubbed (grid_shape C.Code L.Layout self.now) (members_in B.Bank bank.old) (grid_frontiers self.now) s (members_in B.Bank bank.new) result }
    {
        let survey = self.survey(bank, s);
        if survey.missing > 2 {
            return Err(Refusal::Lost(self.loss(bank, s)));
        }
        let tally = self.scrub_slots(bank, s, self.size.slots, survey);
        Ok((tally.mended, tally.refused, tally.absent))
    }
}

impl<C: Code, L: Layout, B: Bank> Volume<C, L, B> {
    // Writes the unreadable columns of a stripe anew. Answers how many were mended, how many a member refused, and how many are gone
    // or behind.
    pub fn scrub(&mut self, stripe: usize) -> Result<(usize, usize, usize), Refusal>
        ensures answered { outcome result ≡ scrub_outcome (shape C.Code L.Layout self.old) (members B.Bank self.old) (frontiers self.old) stripe }
        ensures changes { ScrubChanges (shape C.Code L.Layout self.old) (members B.Bank self.old) (frontiers self.old) stripe (members B.Bank self.new) }
        ensures kept { Kept self.old self.new }
        ensures right { Roomy (shape C.Code L.Layout self.old) (members B.Bank self.old) → Scrubbing (shape C.Code L.Layout self.old) (members B.Bank self.old) (frontiers self.old) stripe (members B.Bank self.new) }
        ensures loss { Losing (shape C.Code L.Layout self.old) (members B.Bank self.old) (frontiers self.old) }
    {
        let grid = Grid::of(&self.code, &self.layout, self.size, &self.table);
        if stripe >= grid.size.stripes {
            return Err(Refusal::NoSuch);
        }
        grid.scrub_stripe(&mut self.bank, stripe)
    }
}
