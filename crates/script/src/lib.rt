// The script of a replay: its bytes, what they say, and the lines that a replay writes.
#![tactic(auto)]

pub mod line;
pub mod parts;
pub mod source;
