#![tactic(auto)]

// The station: running a block on the state of an equaliser.
pub mod copies;
pub mod run;
