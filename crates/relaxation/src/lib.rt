// The relaxed cost of an action and the estimate of a task, as values, are in specs/; there is no code.
#![tactic(auto)]
