// Plans carried across between a task and the probe file written from it: the theory, over values.
#![tactic(auto)]
