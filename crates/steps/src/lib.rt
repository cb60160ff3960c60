// The steps of the probe file written from a task file: found by number, and by name in words.
#![tactic(auto)]

pub mod find;
pub mod names;
