// Blocks that lie one after the other in a run of bytes. Of a run its whole blocks count, at most as many as the caller says. The
// run and that limit stay two parameters: a struct of both would be two structs, one that lends the run and one that changes it.
ghost use Rattle.std.specs.Prelude.{◌≡◌, ℕ, ◌<◌, length, IfOk, slice_index};
ghost use Rattle.member.specs.Faults.{numbers, refusal, raised as raised_from};
ghost use Rattle.member.specs.Meaning.{look_refusal, read_refusal, write_refusal, handed};
ghost use Rattle.member.specs.Runs.{bottom_origin, whole_blocks, run_meaning, run_wrote, Lies};

use crate::{Cause, Fault, admit};
use code::BLOCK;
use std::ops::Range;

// A fault at height 0, as a kind at the bottom raises it.
pub fn raised(cause: Cause, block: usize) -> Fault
    ensures value { numbers result ≡ raised_from cause (bottom_origin block) }
{
    Fault {
        cause,
        height: 0,
        block,
    }
}

// How many blocks count.
pub fn count_in(run: &[u8], most: usize) -> usize
    ensures value { result ≡ whole_blocks most run.now }
{
    (run.len() / BLOCK).min(most)
}

// Whether a block is there.
pub fn look_in(run: &[u8], most: usize, block: usize) -> Result<(), Fault>
    ensures answered { refusal result ≡ look_refusal (run_meaning (whole_blocks most run.now) run.now) block }
{
    if block < count_in(run, most) {
        return Ok(());
    }
    Err(raised(Cause::NoBlock, block))
}

// Where a block lies, if a call on it with a buffer of so many bytes is good.
fn place_in(run: &[u8], most: usize, block: usize, size: usize) -> Result<Range<usize>, Fault>
    ensures answered { refusal result ≡ read_refusal (run_meaning (whole_blocks most run.now) run.now) block size }
    ensures found { IfOk result (λ r. Lies (whole_blocks most run.now) block size r.start r.end) }
{
    admit(count_in(run, most), 0, block, size)?;
    let from = block * BLOCK;
    Ok(from..from + BLOCK)
}

// Copies a block into the buffer.
pub fn read_in(run: &[u8], most: usize, block: usize, buffer: &mut [u8]) -> Result<(), Fault>
    ensures answered { refusal result ≡ read_refusal (run_meaning (whole_blocks most run.now) run.now) block (length buffer.old) }
    ensures after { buffer.new ≡ handed (run_meaning (whole_blocks most run.now) run.now) block buffer.old }
{
    let at = place_in(run, most, block, buffer.len())?;
    buffer.copy_from_slice(&run[at]);
    Ok(())
}

// Replaces a block by the bytes.
pub fn write_in(run: &mut [u8], most: usize, block: usize, bytes: &[u8]) -> Result<(), Fault>
    ensures answered { refusal result ≡ write_refusal (run_meaning (whole_blocks most run.old) run.old) block (length bytes.now) }
    ensures after { run.new ≡ run_wrote (whole_blocks most run.old) run.old block bytes.now }
    ensures low { ((i : ℕ) → slice_index run.old i < 256) → (i : ℕ) → slice_index run.new i < 256 }
{
    let at = place_in(run, most, block, bytes.len())?;
    run[at].copy_from_slice(bytes);
    Ok(())
}

// Tells a caller's proof that what a slice holds are bytes.
pub fn bytes_of(run: &[u8])
    ensures low { (i : ℕ) → slice_index run.now i < 256 }
{}
