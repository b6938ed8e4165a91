// How numbers, bytes and codes are written in what the programs read and print.
#![tactic(auto)]

pub mod codes;
pub mod hex;
pub mod numbers;
