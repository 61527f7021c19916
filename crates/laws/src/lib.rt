#![tactic(auto)]

// Mathematics alone: the laws stand in specs/, and there is no code.
