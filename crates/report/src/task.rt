// The task that a report is asked for: two numbers and the data blocks of a stripe.
ghost use Rattle.std.specs.Prelude.{◌≡◌, false, MatchOption};
ghost use Rattle.report.specs.Task.{is_stripe, DataOf};

use code::BLOCK;
use notation::numbers::number_at;

// How many bytes stand before the data, and how many data columns a stripe has at most.
const HEAD: usize = 4;

const MOST: usize = 16;

// Whether the task is a stripe for a code with that limit.
fn is_stripe(task: &[u8], limit: usize) -> bool
    ensures value { result ≡ is_stripe limit task.now }
{
    let k = number_at(task, 2);
    task.len() == HEAD + BLOCK * k && k > 0 && k <= MOST && k <= limit
}

// The data blocks of a task that is a stripe for a code with that limit.
pub(crate) fn data_blocks(task: &[u8], limit: usize) -> Option<&[[u8; BLOCK]]>
    ensures given { MatchOption result (is_stripe limit task.now ≡ false) (λ blocks. DataOf limit task.now blocks.now) }
{
    if !is_stripe(task, limit) {
        return None;
    }
    let (data, _) = task[HEAD..].as_chunks::<BLOCK>();
    Some(data)
}
