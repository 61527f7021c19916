#![tactic(auto)]

// The saved image: saving and loading the state of a station.
pub mod layout;
pub mod load;
pub mod save;
