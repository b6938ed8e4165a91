// A stripe with all its columns, and the report on it.
ghost use Rattle.std.specs.Prelude.{◌≡◌, ℕ, ◌+◌, ◌-◌, ◌<◌, ◌≤◌, ◌++◌, length, IfOk, string_bytes, OnOk};
ghost use Rattle.parity.specs.Stripe.{Content};
ghost use Rattle.recovery.specs.Columns.{content};
ghost use Rattle.report.specs.Task.{stripe_report};
ghost use Rattle.report.specs.Losses.{Whole, Made};

use crate::text::{push_count, push_parity};
use code::{BLOCK, Code};
use recovery::parities::encode;
use std::alloc::{AllocError, Global};

// All columns of a stripe of 1 to 16 data columns: its data, and P and Q as the code gives them.
#[derive(Drop)]
pub(crate) struct WholeStripe<'a, C: Code> {
    pub(crate) code: &'a C,
    pub(crate) columns: Vec<[u8; BLOCK]>,
    ghost whole: { Whole (C.Code.coding code.now) (length columns.items - 2) columns.items },
    ghost few: { length columns.items ≤ 18 },
    ghost some: { 2 < length columns.items },
}

impl<'a, C: Code> WholeStripe<'a, C> {
    // The stripe with these data columns.
    pub(crate) fn of(
        heap: Global,
        code: &'a C,
        blocks: &[[u8; BLOCK]],
    ) -> Result<WholeStripe<'a, C>, AllocError>
        requires some { 0 < length blocks.now }
        requires few { length blocks.now ≤ 16 }
        requires sized { Content (length blocks.now) (content blocks.now) }
        requires limit { length blocks.now ≤ (C.Code.coding code.now).limit }
        ensures code { IfOk result (λ s. s.code.now ≡ code.now) }
        ensures made { IfOk result (λ s. Made blocks.now s.columns.items) }
    {
        let mut columns = Vec::with_capacity(heap, blocks.len() + 2)?;
        for block in blocks {
            columns.push(*block)?;
        }
        let mut p = [0u8; BLOCK];
        let mut q = [0u8; BLOCK];
        // This is not refused: the data columns are no more than the code can have.
        let _ = encode(code, blocks, &mut p, &mut q);
        columns.push(p)?;
        columns.push(q)?;
        Ok(WholeStripe { code, columns })
    }

    // Appends the report.
    pub(crate) fn push_report(&self, out: &mut String) -> Result<(), AllocError>
        ensures made { OnOk result (string_bytes out.new ≡ string_bytes out.old ++ stripe_report (C.Code.coding self.now.code.now) (length self.now.columns.items - 2) (content self.now.columns.items)) }
    {
        let n = self.columns.len();
        push_parity(out, "P", &self.columns[n - 2])?;
        push_parity(out, "Q", &self.columns[n - 1])?;
        self.push_pairs(out)?;
        push_count(out, n * (n - 1) / 2)
    }
}
