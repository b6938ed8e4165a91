// A lost column from the two sums.
ghost use Rattle.std.specs.Prelude.{◌≡◌, true, ◌&&◌, is_ok, if◌then◌else◌};
ghost use Rattle.code.specs.Answers.{answer, sized};
ghost use Rattle.parity.specs.Ways.{by_way, left_by};
ghost use Rattle.recovery.specs.Answers.{on_way};

use code::xor::xor_into;
use code::{BLOCK, Code, CodeRefusal};
use parity::Way;

// Replaces the mixed sum by data column `i`, where the data columns `i` and `j` are lost.
fn solve_pair<C: Code>(
    code: &C,
    i: usize,
    j: usize,
    plain: &[u8; BLOCK],
    mixed: &mut [u8; BLOCK],
) -> Result<(), CodeRefusal>
    ensures answered { answer result ≡ on_way (C.Code.coding code.now).limit (Way.Pair i j) true }
    ensures after { mixed.new ≡ (if is_ok result then left_by (C.Code.coding code.now) (Way.Pair i j) plain.now mixed.old else mixed.old) }
{
    if i >= code.limit() || i == j {
        return Err(CodeRefusal::Column);
    }
    code.mix_into(j, plain, mixed)?;
    code.unpair(i, j, mixed)
}

// Replaces the plain sum by the column that `way` leads to; the mixed sum is overwritten on the way.
pub fn solve<C: Code>(
    code: &C,
    way: Way,
    plain: &mut [u8],
    mixed: &mut [u8],
) -> Result<(), CodeRefusal>
    ensures answered { answer result ≡ on_way (C.Code.coding code.now).limit way (sized plain.old && sized mixed.old) }
    ensures column { plain.new ≡ (if is_ok result then by_way (C.Code.coding code.now) way plain.old mixed.old else plain.old) }
    ensures left { mixed.new ≡ (if is_ok result then left_by (C.Code.coding code.now) way plain.old mixed.old else mixed.old) }
{
    let plain = plain.as_mut_array::<BLOCK>().ok_or(CodeRefusal::Length)?;
    let mixed = mixed.as_mut_array::<BLOCK>().ok_or(CodeRefusal::Length)?;
    match way {
        Way::Plain => return Ok(()),
        Way::Mixed => {}
        Way::Unmixed(i) => code.unmix(i, mixed)?,
        Way::QWithout(i) => code.mix_into(i, plain, mixed)?,
        Way::Pair(i, j) => solve_pair(code, i, j, plain, mixed)?,
        Way::PWithout(i) => {
            code.unmix(i, mixed)?;
            return xor_into(mixed, plain);
        }
    }
    plain.copy_from_slice(mixed);
    Ok(())
}
