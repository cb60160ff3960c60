// Plans carried across between a task file and the probe file written from it, at the same sum, are in specs/; there is no code.
#![tactic(auto)]
