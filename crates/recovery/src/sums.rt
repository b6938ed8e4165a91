// The plain sum and the mixed sum of a stripe's present columns, one column at a time.
// The way, the number of data columns and both sums stay parameters: the public functions take slices of any length and refuse a wrong one, so a
// struct of the sums could be made only inside them, and each of its methods would promise besides that it keeps both references.
ghost use Rattle.std.specs.Prelude.{◌≡◌, ◌<◌, ◌&&◌, is_ok, if◌then◌else◌};
ghost use Rattle.code.specs.Blocks.{◌⊕◌};
ghost use Rattle.code.specs.Answers.{answer, sized};
ghost use Rattle.parity.specs.Stripe.{plain_part, mixed_part};
ghost use Rattle.parity.specs.Ways.{takes_plain, takes_mixed};
ghost use Rattle.recovery.specs.Answers.{on_stripe};

use code::xor::{xor_into, xor_run};
use code::{BLOCK, Code, CodeRefusal};
use parity::Way;

// Whether a way needs the plain sum.
pub fn takes_plain(way: Way) -> bool
    ensures value { result ≡ takes_plain way }
{
    !matches!(way, Way::Mixed | Way::Unmixed(_))
}

// Whether a way needs the mixed sum.
pub fn takes_mixed(way: Way) -> bool
    ensures value { result ≡ takes_mixed way }
{
    !matches!(way, Way::Plain)
}

// Adds column `t` with the bytes `block` to the plain sum, if the way needs it.
fn add_plain(way: Way, k: usize, t: usize, block: &[u8; BLOCK], plain: &mut [u8; BLOCK])
    ensures after { plain.new ≡ (if takes_plain way then (plain.old ⊕ plain_part k t block.now) else plain.old) }
{
    if takes_plain(way) && t <= k {
        xor_run(block, plain);
    }
}

// Adds column `t` with the bytes `block` to the mixed sum, if the way needs it.
fn add_mixed<C: Code>(
    code: &C,
    way: Way,
    k: usize,
    t: usize,
    block: &[u8; BLOCK],
    mixed: &mut [u8; BLOCK],
) -> Result<(), CodeRefusal>
    requires below { t < k → t < (C.Code.coding code.now).limit }
    ensures answered { answer result ≡ 0 }
    ensures after { mixed.new ≡ (if takes_mixed way then (mixed.old ⊕ mixed_part (C.Code.coding code.now) k t block.now) else mixed.old) }
{
    if !takes_mixed(way) || t == k {
        return Ok(());
    }
    if t < k {
        code.mix_into(t, block, mixed)
    } else {
        xor_into(block, mixed)
    }
}

// Adds column `t` of a stripe of `k` data columns, with the bytes `block`, to each of the two running sums that the way needs.
pub fn add_column<C: Code>(
    code: &C,
    way: Way,
    k: usize,
    t: usize,
    block: &[u8],
    plain: &mut [u8],
    mixed: &mut [u8],
) -> Result<(), CodeRefusal>
    ensures answered { answer result ≡ on_stripe (C.Code.coding code.now).limit k t (sized block.now && (sized plain.old && sized mixed.old)) }
    ensures plain { plain.new ≡ (if is_ok result && takes_plain way then (plain.old ⊕ plain_part k t block.now) else plain.old) }
    ensures mixed { mixed.new ≡ (if is_ok result && takes_mixed way then (mixed.old ⊕ mixed_part (C.Code.coding code.now) k t block.now) else mixed.old) }
{
    let block = block.as_array::<BLOCK>().ok_or(CodeRefusal::Length)?;
    let plain = plain.as_mut_array::<BLOCK>().ok_or(CodeRefusal::Length)?;
    let mixed = mixed.as_mut_array::<BLOCK>().ok_or(CodeRefusal::Length)?;
    if k > code.limit() || (t > k && t - k > 1) {
        return Err(CodeRefusal::Column);
    }
    add_plain(way, k, t, block, plain);
    add_mixed(code, way, k, t, block, mixed)
}
