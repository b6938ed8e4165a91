// Prints the report on the stripe that standard input holds.
#![tactic(auto)]

use report::report;
use std::io::Read;

fn main(rt: HostRuntime) -> anyhow::Result<()> {
    let mut task = Vec::new(rt.alloc());
    rt.stdin().read_to_end(&mut task)?;
    let text = report(rt.alloc(), task.as_slice())?;
    rt.print(text)?;
    Ok(())
}
