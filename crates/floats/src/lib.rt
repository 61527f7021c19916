#![tactic(auto)]

// Laws of floats alone: they stand in specs/, and there is no code.
