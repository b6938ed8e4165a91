// Prints the reports on made-up stripes of all three codes and on tasks that are none, to compare with a reference.
#![tactic(auto)]

use report::report;
use std::alloc::{AllocError, Global};

// A task with the head `code`, `k` and then `bytes` bytes of a linear congruential generator.
fn task(heap: Global, code: u8, k: u8, seed: u32, bytes: usize) -> Result<Vec<u8>, AllocError> {
    let mut task = vec![in heap; code, 0, k, 0]?;
    let mut state = seed;
    for _ in 0..bytes {
        state = state.wrapping_mul(1_664_525).wrapping_add(1_013_904_223);
        task.push((state >> 24) as u8)?;
    }
    Ok(task)
}

// Appends the report on a task.
fn push_report(heap: Global, out: &mut String, task: &[u8]) -> Result<(), AllocError> {
    out.push_str(report(heap, task)?.as_str())
}

// Appends the reports on stripes of one, two, five and sixteen data columns by a code.
fn push_stripes(heap: Global, out: &mut String, code: u8) -> Result<(), AllocError> {
    for k in [1u8, 2, 5, 16] {
        let seed = 1000 * u32::from(code) + u32::from(k);
        push_report(heap, out, &task(heap, code, k, seed, 512 * usize::from(k))?)?;
    }
    Ok(())
}

// Appends the reports on tasks that are no stripes: too many columns, no such code, a byte short, a byte long, no columns.
fn push_refusals(heap: Global, out: &mut String) -> Result<(), AllocError> {
    for (code, k, bytes) in [
        (0, 17, 512 * 17),
        (3, 2, 1024),
        (1, 2, 1023),
        (1, 2, 1025),
        (2, 0, 0),
    ] {
        push_report(heap, out, &task(heap, code, k, 1, bytes)?)?;
    }
    push_report(heap, out, &[1, 0, 1])?;
    push_report(heap, out, &[])
}

fn main(rt: HostRuntime) -> anyhow::Result<()> {
    let heap = rt.alloc();
    let mut out = String::new(heap);
    for code in 0..3 {
        push_stripes(heap, &mut out, code)?;
    }
    push_refusals(heap, &mut out)?;
    rt.print(out)?;
    Ok(())
}
