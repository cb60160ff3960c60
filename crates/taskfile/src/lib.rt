// Task files: what they are, their limits, and what the row of an index has.
#![tactic(auto)]

// A task file: its limits, and what the row of its index has, which the caller of the index lends: where each action starts, where its effect and its incoming weight stand, which of all nodes is its first, where each
// node starts and which variable it tests.
#[derive(Clone, Copy)]
pub struct Task {}

// Every limit of document 01 that bounds a task file or a source list; specs/Task.antt has the same numbers under names of its own.
impl Task {
    // The most variables, values of a variable, actions, nodes of all diagrams together, and entries of a source list.
    pub const MAX_VARIABLES: usize = 24;

    pub const MAX_VALUES: usize = 8;

    pub const MAX_ACTIONS: usize = 32;

    pub const MAX_NODES: usize = 64;

    pub const MAX_LIST: usize = 256;

    // The bytes of an edge, its target and its weight; the most bytes of a partial state, an 8-byte map and its values; and those of a file: head, actions, nodes.
    pub const EDGE_BYTES: usize = 3;

    pub const PARTIAL_BYTES: usize = 8 + Task::MAX_VARIABLES;

    pub const MAX_BYTES: usize = 2
        + 2 * Task::MAX_VARIABLES
        + Task::PARTIAL_BYTES
        + Task::MAX_ACTIONS * (2 * Task::PARTIAL_BYTES + 3)
        + Task::MAX_NODES * (1 + Task::MAX_VALUES * Task::EDGE_BYTES);

    // The head of the blank task as it would stand in a file: one variable, its size, its value, and the map of an empty goal. An empty file has the blank task, and code finds it here.
    pub const BLANK: [u8; 11] = [1, 2, 0, 0, 0, 0, 0, 0, 0, 0, 0];

    // In the written file: semaphore and markers; the most bytes of a file, which are those of its head, of starts and ends, and of edges; and the most entries of an action in a probe list: its start, an edge for each variable, its end.
    pub const MAX_MARKERS: usize = 1 + Task::MAX_ACTIONS;

    pub const MAX_WRITTEN: usize = 11
        + 3 * (Task::MAX_VARIABLES + Task::MAX_MARKERS)
        + Task::MAX_ACTIONS * (2 * Task::PARTIAL_BYTES + 27)
        + Task::MAX_NODES * Task::MAX_VALUES * 21;

    pub const MAX_ENTRIES: usize = Task::MAX_VARIABLES + 2;

    // A table by number has an entry for each node and for the terminal, and one at 0.
    pub const NUMBERS: usize = Task::MAX_NODES + 2;

    // From which entries of the row on the places of effects and of incoming weights, the first nodes, the nodes and the variables that they test are, and how long the row is.
    pub const EFFECTS: usize = Task::MAX_ACTIONS;

    pub const INCOMING: usize = Task::EFFECTS + Task::MAX_ACTIONS;

    pub const FIRSTS: usize = Task::INCOMING + Task::MAX_ACTIONS;

    pub const NODES: usize = Task::FIRSTS + Task::MAX_ACTIONS;

    pub const TESTED: usize = Task::NODES + Task::MAX_NODES;

    pub const ROW: usize = Task::TESTED + Task::MAX_NODES;
}

// What a walk costs, or the walks of a run together, and how many nodes are passed.
#[derive(Clone, Copy, Debug, PartialEq, Eq)]
pub struct Walked {
    pub cost: u32,
    pub passed: usize,
}
