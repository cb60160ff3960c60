// The command line and the streams: what is asked for, the files and texts that are read, and the answers that are written.
#![tactic(auto)]

pub mod asking;
pub mod command;
pub mod input;
pub mod output;
