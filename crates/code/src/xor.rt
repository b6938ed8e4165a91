// Exclusive or in place: one byte loop over the whole run, which the compiler turns into vectors.
ghost use Rattle.std.specs.Prelude.{◌≡◌, ◌&&◌, is_ok, if◌then◌else◌};
ghost use Rattle.code.specs.Blocks.{◌⊕◌, onto};
ghost use Rattle.code.specs.Answers.{answer, sized, on_buffers};

use crate::{BLOCK, CodeRefusal};

// Adds the bytes of `from` to the first bytes of `into`; where either is longer, its further bytes play no part.
pub fn xor_run(from: &[u8], into: &mut [u8])
    ensures after { into.new ≡ onto into.old from.now }
{
    // By index: once `into.iter_mut().zip(from)` is over, a proof knows nothing of the bytes that it wrote (tried).
    let n = into.len().min(from.len());
    for i in 0..n {
        into[i] ^= from[i];
    }
}

// Adds `block` to `into`.
pub fn xor_into(block: &[u8], into: &mut [u8]) -> Result<(), CodeRefusal>
    ensures answered { answer result ≡ on_buffers (sized block.now && sized into.old) }
    ensures after { into.new ≡ (if is_ok result then (into.old ⊕ block.now) else into.old) }
{
    let block = block.as_array::<BLOCK>().ok_or(CodeRefusal::Length)?;
    let into = into.as_mut_array::<BLOCK>().ok_or(CodeRefusal::Length)?;
    xor_run(block, into);
    Ok(())
}
