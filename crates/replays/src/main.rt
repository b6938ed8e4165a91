// Replays many scripts and prints their texts one after the other, to compare with a reference. Standard input holds for each script a
// 16-bit little-endian number of bytes and the bytes; a length that goes past the end ends there.
#![tactic(auto)]

use notation::numbers::number_at;
use recorder::replay;
use std::alloc::{AllocError, Global};
use std::io::Read;

// The text of the script in these bytes.
fn text_of(heap: Global, script: &[u8]) -> Result<String, AllocError> {
    replay(heap, Vec::from_slice(heap, script)?)
}

fn main(rt: HostRuntime) -> anyhow::Result<()> {
    let mut bytes = Vec::new(rt.alloc());
    rt.stdin().read_to_end(&mut bytes)?;
    let mut rest = bytes.as_slice();
    while let [_, _, after @ ..] = rest {
        let (script, others) = after.split_at(number_at(rest, 0).min(after.len()));
        rt.print(text_of(rt.alloc(), script)?)?;
        rest = others;
    }
    Ok(())
}
