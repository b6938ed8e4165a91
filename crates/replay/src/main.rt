// Replays the script that standard input holds and prints its lines.
#![tactic(auto)]

use recorder::replay;
use std::io::Read;

fn main(rt: HostRuntime) -> anyhow::Result<()> {
    let mut bytes = Vec::new(rt.alloc());
    rt.stdin().read_to_end(&mut bytes)?;
    let text = replay(rt.alloc(), bytes)?;
    rt.print(text)?;
    Ok(())
}
