// P and Q of a stripe: from all its data, and after a change of one data column.
ghost use Rattle.std.specs.Prelude.{◌≡◌, ℕ, ◌+◌, ◌≤◌, true, ◌&&◌, List, length, is_ok, if◌then◌else◌};
ghost use Rattle.code.specs.Blocks.{◌⊕◌, zeros};
ghost use Rattle.code.specs.Answers.{answer, sized, on_column};
ghost use Rattle.parity.specs.Stripe.{sum, column, put};
ghost use Rattle.recovery.specs.Answers.{stripe_answer, on_count};
ghost use Rattle.recovery.specs.Columns.{content, Parities, Changes};

use crate::clear;
use crate::refusal::StripeRefusal;
use code::xor::xor_run;
use code::{BLOCK, Code, CodeRefusal};

// Adds the difference between the old and the new bytes of data column `i` to `p`, and its mixing to `q`.
pub fn change<C: Code>(
    code: &C,
    i: usize,
    difference: &[u8],
    p: &mut [u8],
    q: &mut [u8],
) -> Result<(), CodeRefusal>
    ensures answered { answer result ≡ on_column (C.Code.coding code.now).limit i (sized difference.now && (sized p.old && sized q.old)) }
    ensures p { p.new ≡ (if is_ok result then (p.old ⊕ difference.now) else p.old) }
    ensures q { q.new ≡ (if is_ok result then (q.old ⊕ (C.Code.coding code.now).mix i difference.now) else q.old) }
    ensures right { is_ok result ≡ true → (k : ℕ) (c : ℕ → List ℕ) (v : List ℕ) → Changes (C.Code.coding code.now) k c i v difference.now p.old q.old → Parities (C.Code.coding code.now) k (put c i v) p.new q.new }
{
    let difference = difference.as_array::<BLOCK>().ok_or(CodeRefusal::Length)?;
    let p = p.as_mut_array::<BLOCK>().ok_or(CodeRefusal::Length)?;
    let q = q.as_mut_array::<BLOCK>().ok_or(CodeRefusal::Length)?;
    code.mix_into(i, difference, q)?;
    xor_run(difference, p);
    Ok(())
}

// Adds each of the data columns to `p`, and its mixing to `q`.
fn add_all<C: Code>(
    code: &C,
    data: &[[u8; BLOCK]],
    p: &mut [u8; BLOCK],
    q: &mut [u8; BLOCK],
) -> Result<(), CodeRefusal>
    requires limit { length «data».now ≤ (C.Code.coding code.now).limit }
    requires p { p.old ≡ zeros }
    requires q { q.old ≡ zeros }
    ensures answered { answer result ≡ 0 }
    ensures p { p.new ≡ sum (length «data».now) (content «data».now) }
    ensures q { q.new ≡ sum (length «data».now) (λ j. (C.Code.coding code.now).mix j (content «data».now j)) }
{
    for (j, block) in data.iter().enumerate() {
        change(code, j, block, p, q)?;
    }
    Ok(())
}

// Writes the P and Q of the data columns `data` into `p` and `q`.
pub fn encode<C: Code>(
    code: &C,
    data: &[[u8; BLOCK]],
    p: &mut [u8],
    q: &mut [u8],
) -> Result<(), StripeRefusal>
    ensures answered { stripe_answer result ≡ on_count (C.Code.coding code.now).limit (length «data».now) (sized p.old && sized q.old) }
    ensures p { p.new ≡ (if is_ok result then column (C.Code.coding code.now) (length «data».now) (content «data».now) (length «data».now) else p.old) }
    ensures q { q.new ≡ (if is_ok result then column (C.Code.coding code.now) (length «data».now) (content «data».now) (length «data».now + 1) else q.old) }
{
    let p = p.as_mut_array::<BLOCK>().ok_or(StripeRefusal::Length)?;
    let q = q.as_mut_array::<BLOCK>().ok_or(StripeRefusal::Length)?;
    if data.len() > code.limit() {
        return Err(StripeRefusal::Column);
    }
    clear(p);
    clear(q);
    add_all(code, data, p, q)?;
    Ok(())
}
