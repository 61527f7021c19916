#![tactic(auto)]

// The checks before a block is run.
pub mod lists;
