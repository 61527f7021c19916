#![tactic(auto)]

// The bytes of a trace.
pub mod limits;
pub mod read;
pub mod write;
