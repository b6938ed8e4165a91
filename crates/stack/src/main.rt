// Drives stacks of layers, and banks of them, through every kind of answer, and prints a line for each call. The lines that it has to
// print were worked out by hand from the rules; each heading says from which.
#![tactic(auto)]

mod banks;
mod builds;
mod calls;
mod cell_stack;
mod fault_layers;

use crate::calls::Log;

fn main(rt: HostRuntime) -> anyhow::Result<()> {
    let mut log = Log::new(rt.alloc());
    cell_stack::show(&mut log)?;
    fault_layers::show(&mut log)?;
    banks::show(&mut log)?;
    rt.print(log.into_text())?;
    Ok(())
}
