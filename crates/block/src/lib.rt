#![tactic(auto)]

// One block: the stored samples, and the run of a block over them.
pub mod line;
pub mod lists;
pub mod run;
pub mod stored;
