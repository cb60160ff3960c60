// Probe files: what they are, and the one pass that checks one and notes where its steps start. Nothing here knows of tasks or diagrams.
#![tactic(auto)]

pub mod step_index;

// A probe file: its limits.
#[derive(Clone, Copy)]
pub struct Probe {}

// Every limit of document 01 that bounds a probe file or a probe list; specs/Probe.antt has the same numbers under names of its own.
impl Probe {
    // The most variables, values of a variable, steps of a file, and entries of a list.
    pub const MAX_VARIABLES: usize = 57;

    pub const MAX_VALUES: usize = 66;

    pub const MAX_STEPS: usize = 576;

    pub const MAX_LIST: usize = 6656;

    // The most bytes of a partial state, an 8-byte map and its values, and of a file: head, step count, steps.
    pub const PARTIAL_BYTES: usize = 8 + Probe::MAX_VARIABLES;

    pub const MAX_BYTES: usize = 3
        + 2 * Probe::MAX_VARIABLES
        + Probe::PARTIAL_BYTES
        + Probe::MAX_STEPS * (2 * Probe::PARTIAL_BYTES + 2);

    // The numbers of an estimate, document 01's array of 3,762: one for every fact that a file may have, at variable times 66 plus value.
    pub const FACTS: usize = Probe::MAX_VARIABLES * Probe::MAX_VALUES;
}
