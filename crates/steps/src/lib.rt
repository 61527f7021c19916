#![tactic(auto)]

// The steps of a sample one by one.
pub mod decision;
pub mod error;
pub mod factor;
pub mod limits;
pub mod output;
pub mod past;
pub mod settings;
pub mod weights;
