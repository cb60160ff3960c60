// The compilation of a task as a value is in specs/; there is no code.
#![tactic(auto)]
