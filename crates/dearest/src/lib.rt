// The dearest state of an action, as values, is in specs/; there is no code: crate `task_dearest` has it.
#![tactic(auto)]
