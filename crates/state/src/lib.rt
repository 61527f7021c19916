#![tactic(auto)]

// The state of a station: set-up and soundness.
pub mod equaliser;
pub mod refusal;
pub mod sizes;
pub mod sound;
