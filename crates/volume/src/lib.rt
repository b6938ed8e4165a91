// Volumes: a code, a layout and a bank of members, of which any two may be lost.
#![tactic(auto)]

mod grid;
mod members;
mod size;
mod slots;
mod survey;
pub mod volume;
mod walks;
