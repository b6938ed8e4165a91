// Planned faults: the table of what is to fail in a member, and from which round on.
#![tactic(auto)]

pub mod entry;
pub mod plan;
