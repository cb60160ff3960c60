// The parts of the probe file of a task, written into a lent buffer: its head and its actions, and how long they are.
#![tactic(auto)]

pub mod action;
pub mod head_bytes;
pub mod length;
