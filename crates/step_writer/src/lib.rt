// Steps of a probe file, written into a lent buffer: bytes, partial states with further facts, and the start, the edges and the end of an action.
#![tactic(auto)]

pub mod marks;
pub mod put;
pub mod step;
