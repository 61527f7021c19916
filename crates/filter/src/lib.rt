#![tactic(auto)]

// One sample of the equaliser.
pub mod sample;
pub mod weights;
