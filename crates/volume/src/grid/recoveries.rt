// Recovery of a missing column from the current ones of its stripe.
ghost use Rattle.std.specs.Prelude.{◌≡◌, ◌+◌, false, is_some, if◌then◌else◌};
ghost use Rattle.code.specs.Blocks.{zeros};
ghost use Rattle.parity.specs.Stripe.{plain_sum, mixed_sum};
ghost use Rattle.parity.specs.Ways.{takes_plain, takes_mixed};
ghost use Rattle.volume.specs.Grids.{width, columns_on, recovered_on};
ghost use Rattle.volume.specs.Slots.{slots_in, Surveyed};

use crate::grid::Grid;
use crate::survey::Survey;
use bank::Bank;
use code::{BLOCK, Code};
use layout::Layout;
use parity::Way;
use recovery::sums::add_column;
use recovery::ways::solve;

impl<'a, C: Code, L: Layout> Grid<'a, C, L> {
    // The two sums over the current columns of stripe `s`, as far as the way needs them, in two buffers of zeros.
    fn gather<B: Bank>(&self, bank: &mut B, s: usize, way: Way, plain: &mut [u8], mixed: &mut [u8])
        requires empty { (plain.old ≡ zeros) × (mixed.old ≡ zeros) }
        ensures same { slots_in B.Bank bank.new ≡ slots_in B.Bank bank.old }
        ensures plain { plain.new ≡ (if takes_plain way then plain_sum (width self.now) (columns_on L.Layout self.now (slots_in B.Bank bank.old) s) (width self.now + 2) else zeros) }
        ensures mixed { mixed.new ≡ (if takes_mixed way then mixed_sum (C.Code.coding self.now.code.now) (width self.now) (columns_on L.Layout self.now (slots_in B.Bank bank.old) s) (width self.now + 2) else zeros) }
    {
        let mut scratch = [0u8; BLOCK];
        let k = self.width();
        for t in 0..k + 2 {
            if self.load(bank, s, t, &mut scratch) {
                let _ = add_column(self.code, way, k, t, &scratch, plain, mixed);
            }
        }
    }

    // Recovers the missing column `t` of a stripe of which at most two are missing, into a buffer.
    pub fn rebuild<B: Bank>(
        &self,
        bank: &mut B,
        s: usize,
        t: usize,
        survey: Survey,
        into: &mut [u8; BLOCK],
    )
        requires surveyed { Surveyed (columns_on L.Layout self.now (slots_in B.Bank bank.old) s) (width self.now) survey }
        requires missing { is_some (columns_on L.Layout self.now (slots_in B.Bank bank.old) s t) ≡ false }
        ensures same { slots_in B.Bank bank.new ≡ slots_in B.Bank bank.old }
        ensures value { into.new ≡ recovered_on C.Code L.Layout self.now (slots_in B.Bank bank.old) s t }
    {
        let way = survey.lost.way(self.width(), survey.p, t);
        let mut mixed = [0u8; BLOCK];
        *into = mixed;
        self.gather(bank, s, way, into, &mut mixed);
        let _ = solve(self.code, way, into, &mut mixed);
    }

    // Column `t` of stripe `s` into a buffer: read if it is current, else recovered from the others.
    pub fn fetch<B: Bank>(
        &self,
        bank: &mut B,
        s: usize,
        t: usize,
        survey: Survey,
        into: &mut [u8; BLOCK],
    )
        requires surveyed { Surveyed (columns_on L.Layout self.now (slots_in B.Bank bank.old) s) (width self.now) survey }
        ensures same { slots_in B.Bank bank.new ≡ slots_in B.Bank bank.old }
        ensures value { into.new ≡ recovered_on C.Code L.Layout self.now (slots_in B.Bank bank.old) s t }
    {
        if self.load(bank, s, t, into) {
            return;
        }
        self.rebuild(bank, s, t, survey, into);
    }
}
