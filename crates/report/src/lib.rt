// The report on a stripe: its two parity columns, and how it comes through the loss of any two columns.
#![tactic(auto)]

ghost use Rattle.std.specs.Prelude.{◌≡◌, IfOk, string_bytes};
ghost use Rattle.report.specs.Task.{report_by, report_of};

use code::Code;
use diagonal::evenodd::EvenOdd;
use diagonal::rdp::Rdp;
use galois::Pq;
use notation::codes::{CodeName, UnknownCode};
use notation::numbers::number_at;
use std::alloc::{AllocError, Global};
use task::data_blocks;
use whole::WholeStripe;

mod losses;
mod task;
mod text;
mod whole;

// The report on a task by one code.
fn report_by<C: Code>(heap: Global, code: &C, task: &[u8]) -> Result<String, AllocError>
    ensures made { IfOk result (λ s. string_bytes s ≡ report_by (C.Code.coding code.now) task.now) }
{
    let Some(data) = data_blocks(task, code.limit()) else {
        return String::from_str(heap, "bad stripe\n");
    };
    let stripe = WholeStripe::of(heap, code, data)?;
    let mut out = String::new(heap);
    stripe.push_report(&mut out)?;
    Ok(out)
}

// The report on a task: two 16-bit little-endian numbers, the code (0 P+Q, 1 RDP, 2 EVENODD) and the number of data columns, and
// then the data blocks. What is no such task is answered by the line `bad stripe`.
pub fn report(heap: Global, task: &[u8]) -> Result<String, AllocError>
    ensures made { IfOk result (λ s. string_bytes s ≡ report_of task.now) }
{
    match CodeName::try_from(number_at(task, 0)) {
        Ok(CodeName::Pq) => report_by(heap, &Pq, task),
        Ok(CodeName::Rdp) => report_by(heap, &Rdp::of_17(), task),
        Ok(CodeName::EvenOdd) => report_by(heap, &EvenOdd::of_17(), task),
        Err(UnknownCode) => String::from_str(heap, "bad stripe\n"),
    }
}
