#![tactic(auto)]

// Numbers as bytes, the lowest byte first.
pub mod write;
