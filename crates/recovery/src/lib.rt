// Encoding a stripe, recovering a lost column and changing a data column, by any code.
// `loss`, `sums` and `ways` are the pieces for a caller that has the columns one at a time.
#![tactic(auto)]

ghost use Rattle.std.specs.Prelude.{◌≡◌};
ghost use Rattle.code.specs.Blocks.{zeros};

use code::BLOCK;

mod at_hand;
pub mod columns;
pub mod loss;
pub mod parities;
pub mod refusal;
pub mod sums;
pub mod ways;

// Makes a buffer zeros, where a sum begins.
fn clear(buffer: &mut [u8; BLOCK])
    ensures after { buffer.new ≡ zeros }
{
    buffer.fill(0);
}
