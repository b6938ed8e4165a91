// Recovery of one column of a stripe whose columns are all at hand.
ghost use Rattle.std.specs.Prelude.{◌≡◌, ℕ, ◌+◌, ◌-◌, ◌≤◌, true, false, List, length, is_ok, is_some, if◌then◌else◌};
ghost use Rattle.code.specs.Blocks.{zeros};
ghost use Rattle.code.specs.Answers.{answer, sized};
ghost use Rattle.parity.specs.Stripe.{Content, Fits, column, gaps, missing, plain_sum, mixed_sum};
ghost use Rattle.parity.specs.Ways.{takes_plain, takes_mixed, recovered};
ghost use Rattle.recovery.specs.Answers.{stripe_answer, shaped, on_recover};
ghost use Rattle.recovery.specs.Columns.{stripe_of, columns_of};
ghost use Rattle.recovery.specs.Losses.{noted};

use crate::at_hand::{AtHand, Given, Marked};
use crate::clear;
use crate::loss::Lost;
use crate::refusal::StripeRefusal;
use crate::sums::add_column;
use crate::ways::solve;
use code::{BLOCK, Code, CodeRefusal};
use parity::Way;

// How many columns are missing.
fn count_missing<S: AtHand>(columns: &S) -> usize
    ensures value { result ≡ missing (S.AtHand.held columns.now) (S.AtHand.count columns.now) }
{
    let mut count = 0;
    for t in 0..columns.len() {
        count += usize::from(columns.at(t).is_none());
    }
    count
}

// The missing ones of the first `k` columns.
fn lost_data<S: AtHand>(columns: &S, k: usize) -> Lost
    requires length { k ≤ S.AtHand.count columns.now }
    ensures value { result ≡ noted (gaps (S.AtHand.held columns.now) k) }
{
    let mut lost = Lost::Nothing;
    for t in 0..k {
        lost.note(t, columns.at(t).is_some());
    }
    lost
}

// The two sums over the present columns, as far as the way needs them, in two buffers of zeros.
fn gather<C: Code, S: AtHand>(
    code: &C,
    way: Way,
    k: usize,
    columns: &S,
    plain: &mut [u8; BLOCK],
    mixed: &mut [u8; BLOCK],
) -> Result<(), CodeRefusal>
    requires shape { (k ≤ (C.Code.coding code.now).limit) × (S.AtHand.count columns.now ≡ k + 2) }
    requires empty { (plain.old ≡ zeros) × (mixed.old ≡ zeros) }
    ensures answered { answer result ≡ 0 }
    ensures plain { plain.new ≡ (if takes_plain way then plain_sum k (S.AtHand.held columns.now) (k + 2) else zeros) }
    ensures mixed { mixed.new ≡ (if takes_mixed way then mixed_sum (C.Code.coding code.now) k (S.AtHand.held columns.now) (k + 2) else zeros) }
{
    for t in 0..columns.len() {
        if let Some(block) = columns.at(t) {
            add_column(code, way, k, t, block, plain, mixed)?;
        }
    }
    Ok(())
}

// Recovers the missing column `want` of a stripe of `k` data columns that has at most two missing.
fn recover_missing<C: Code, S: AtHand>(
    code: &C,
    k: usize,
    columns: &S,
    want: usize,
    into: &mut [u8; BLOCK],
) -> Result<(), CodeRefusal>
    requires shape { (k ≤ (C.Code.coding code.now).limit) × (S.AtHand.count columns.now ≡ k + 2) }
    requires gone { is_some (S.AtHand.held columns.now want) ≡ false }
    ensures answered { answer result ≡ 0 }
    ensures value { into.new ≡ recovered (C.Code.coding code.now) k (S.AtHand.held columns.now) want }
{
    let way = lost_data(columns, k).way(k, columns.at(k).is_some(), want);
    let mut mixed = [0u8; BLOCK];
    clear(into);
    gather(code, way, k, columns, into, &mut mixed)?;
    solve(code, way, into, &mut mixed)
}

// Recovers the missing column `want` of a stripe, unless at least two others are missing too.
fn recover_lost<C: Code, S: AtHand>(
    code: &C,
    columns: &S,
    want: usize,
    into: &mut [u8; BLOCK],
) -> Result<(), StripeRefusal>
    requires shape { shaped (C.Code.coding code.now).limit (S.AtHand.count columns.now) (S.AtHand.count columns.now) want ≡ true }
    requires gone { is_some (S.AtHand.held columns.now want) ≡ false }
    ensures answered { stripe_answer result ≡ on_recover (C.Code.coding code.now).limit (S.AtHand.count columns.now) (S.AtHand.count columns.now) (S.AtHand.held columns.now) want true }
    ensures value { into.new ≡ (if is_ok result then recovered (C.Code.coding code.now) (S.AtHand.count columns.now - 2) (S.AtHand.held columns.now) want else into.old) }
    ensures right { is_ok result ≡ true → (c : ℕ → List ℕ) → Content (S.AtHand.count columns.now - 2) c → Fits (C.Code.coding code.now) (S.AtHand.count columns.now - 2) c (S.AtHand.held columns.now) → into.new ≡ column (C.Code.coding code.now) (S.AtHand.count columns.now - 2) c want }
{
    if count_missing(columns) > 2 {
        return Err(StripeRefusal::Loss);
    }
    recover_missing(code, columns.len() - 2, columns, want, into)?;
    Ok(())
}

// Whether lists of `columns` columns and `marks` marks are those of a stripe that has the column `want`.
fn is_shaped(limit: usize, columns: usize, marks: usize, want: usize) -> bool
    ensures value { result ≡ shaped limit columns marks want }
{
    columns == marks && columns >= 2 && columns - 2 <= limit && want < columns
}

// Writes column `want` of a stripe into `into`: a copy where it is present, else recovered from the others.
pub fn recover<C: Code>(
    code: &C,
    columns: &[[u8; BLOCK]],
    present: &[bool],
    want: usize,
    into: &mut [u8],
) -> Result<(), StripeRefusal>
    ensures answered { stripe_answer result ≡ on_recover (C.Code.coding code.now).limit (length columns.now) (length present.now) (stripe_of columns.now present.now) want (sized into.old) }
    ensures value { into.new ≡ (if is_ok result then recovered (C.Code.coding code.now) (length columns.now - 2) (stripe_of columns.now present.now) want else into.old) }
    ensures right { is_ok result ≡ true → (c : ℕ → List ℕ) → Content (length columns.now - 2) c → Fits (C.Code.coding code.now) (length columns.now - 2) c (stripe_of columns.now present.now) → into.new ≡ column (C.Code.coding code.now) (length columns.now - 2) c want }
{
    let into = into.as_mut_array::<BLOCK>().ok_or(StripeRefusal::Length)?;
    if !is_shaped(code.limit(), columns.len(), present.len(), want) {
        return Err(StripeRefusal::Column);
    }
    if present[want] {
        into.copy_from_slice(&columns[want]);
        return Ok(());
    }
    recover_lost(code, &Marked { columns, present }, want, into)
}

// As `recover`, from a list in which a missing column is `None`.
pub fn recover_given<C: Code>(
    code: &C,
    columns: &[Option<&[u8; BLOCK]>],
    want: usize,
    into: &mut [u8],
) -> Result<(), StripeRefusal>
    ensures answered { stripe_answer result ≡ on_recover (C.Code.coding code.now).limit (length columns.now) (length columns.now) (columns_of columns.now) want (sized into.old) }
    ensures value { into.new ≡ (if is_ok result then recovered (C.Code.coding code.now) (length columns.now - 2) (columns_of columns.now) want else into.old) }
    ensures right { is_ok result ≡ true → (c : ℕ → List ℕ) → Content (length columns.now - 2) c → Fits (C.Code.coding code.now) (length columns.now - 2) c (columns_of columns.now) → into.new ≡ column (C.Code.coding code.now) (length columns.now - 2) c want }
{
    let into = into.as_mut_array::<BLOCK>().ok_or(StripeRefusal::Length)?;
    if !is_shaped(code.limit(), columns.len(), columns.len(), want) {
        return Err(StripeRefusal::Column);
    }
    if let Some(block) = columns[want] {
        into.copy_from_slice(block);
        return Ok(());
    }
    recover_lost(code, &Given { columns }, want, into)
}
