// The steps of a task's probe file, numbered in place.
#![tactic(auto)]

ghost use Rattle.std.specs.Prelude.{◌≡◌, ℕ, ◌+◌, ◌*◌, ◌≤◌, ◌<◌, min, length, get_or, take, drop};
ghost use Rattle.facts.specs.Lists.{total};
ghost use Rattle.probefile.specs.Probe.{max_steps};
ghost use Rattle.taskfile.specs.Task.{max_variables, max_actions, max_nodes};
ghost use Rattle.taskfile.specs.Row.{firsts_from};
ghost use Rattle.taskfile.specs.PartsInPlace.{nodes_in, actions_in, Tested};
ghost use Rattle.compilation.specs.Compile.{edge_count};
ghost use Rattle.numbering.specs.InPlace.{AllTested, Rows, Edges, Numbered, note_from};

use facts::number::{byte_at, offset_at, offset_within};
use taskfile::Task;
use walk::count::node_count;
use walk::own_nodes;

// The numbers of the steps of a task's probe file: that of each action's start, past the last action's that of all steps, and for each of all nodes that of its first edge.
#[derive(Drop)]
pub struct Numbers {
    pub first_step: [usize; Task::MAX_ACTIONS + 1],
    pub first_edge: [usize; Task::MAX_NODES],
}

// The numbers of an action's steps: that of its start, that of the next action's, and for each of its nodes that of its first edge.
#[derive(Clone, Copy)]
pub struct Steps<'a> {
    pub first: usize,
    pub next: usize,
    pub edges: &'a [usize],
}

impl Numbers {
    // Before any is noted.
    pub const NONE: Numbers = Numbers {
        first_step: [0; Task::MAX_ACTIONS + 1],
        first_edge: [0; Task::MAX_NODES],
    };

    // Numbers the steps of `actions` actions, by the row of the index.
    pub fn note(&mut self, file: &[u8], sizes: &[u8], actions: usize, row: &[usize])
        requires actions_bound { actions ≤ max_actions }
        requires rows { Rows (actions_in file.now sizes.now row.now 0 actions) row.now (length self.old.first_edge) × AllTested file.now actions row.now }
        ensures numbered { Numbered (actions_in file.now sizes.now row.now 0 actions) row.now self.new.first_step self.new.first_edge }
        ensures long { actions ≤ length self.new.first_step }
    {
        number_steps(
            file,
            sizes,
            actions,
            row,
            &mut self.first_step,
            &mut self.first_edge,
        );
    }

    // Those of action a, by the row of the index.
    pub fn of<'a>(&'a self, row: &[usize], a: usize) -> Steps<'a>
        requires { a < max_actions }
        ensures first { result.first ≡ get_or self.now.first_step a 0 }
        ensures next { result.next ≡ get_or self.now.first_step (a + 1) 0 }
        ensures edges { result.edges.now ≡ drop (get_or row.now (firsts_from + a) 0) self.now.first_edge }
    {
        let first = offset_within(row, Task::FIRSTS + a, Task::MAX_NODES);
        Steps {
            first: self.first_step[a],
            next: self.first_step[a + 1],
            edges: &self.first_edge[first..],
        }
    }

    // Notes 1 and the number of each of `actions` actions at the number of its start.
    pub fn note_actions(&self, actions: usize, action_of: &mut [u8])
        requires actions_bound { actions ≤ max_actions }
        requires room { length action_of.old ≡ max_steps }
        requires below { (a : ℕ) → a < actions → get_or self.now.first_step a 0 < max_steps }
        ensures { action_of.new ≡ note_from 0 (take actions self.now.first_step) action_of.old }
    {
        note_actions(&self.first_step[..actions], action_of);
    }
}

// Numbers the steps of `actions` actions, by the row of the index: notes the number of each action's start, past the last the number of all steps, and for each of all nodes the number of its first edge.
pub fn number_steps(
    file: &[u8],
    sizes: &[u8],
    actions: usize,
    row: &[usize],
    first_step: &mut [usize],
    first_edge: &mut [usize],
)
    requires actions_in_bounds { actions < length first_step.old }
    requires rows { Rows (actions_in file.now sizes.now row.now 0 actions) row.now (length first_edge.old) × AllTested file.now actions row.now }
    ensures { Numbered (actions_in file.now sizes.now row.now 0 actions) row.now first_step.new first_edge.new }
{
    let mut next = 0;
    for a in 0..actions {
        first_step[a] = next;
        let own = own_nodes(row, a);
        let count = node_count(file, row[a]);
        let first = offset_within(row, Task::FIRSTS + a, first_edge.len());
        next = 1
            + number_edges(
                file,
                sizes,
                &row[own..],
                count,
                1 + next,
                &mut first_edge[first..],
            );
    }
    first_step[actions] = next;
}

// Notes 1 and the number of each action at the number of its start.
pub fn note_actions(first_step: &[usize], action_of: &mut [u8])
    requires { (length action_of.old ≡ max_steps) × (length first_step.now ≤ max_actions) × ((a : ℕ) → a < length first_step.now → get_or first_step.now a 0 < max_steps) }
    ensures { action_of.new ≡ note_from 0 first_step.now action_of.old }
{
    for (a, step) in first_step.iter().enumerate() {
        action_of[*step] = (1 + a) as u8;
    }
}

// Notes the number of the first edge of each of `count` nodes, where `from` is the first node's; answers the number after their edges.
fn number_edges(
    file: &[u8],
    sizes: &[u8],
    nodes: &[usize],
    count: u8,
    from: usize,
    first_edge: &mut [usize],
) -> usize
    requires { (count ≤ length first_edge.old) × (from + total edge_count (nodes_in file.now sizes.now nodes.now 0 count) ≤ max_steps) × Tested file.now nodes.now count }
    ensures value { result ≡ from + total edge_count (nodes_in file.now sizes.now nodes.now 0 count) }
    ensures edges { Edges (nodes_in file.now sizes.now nodes.now 0 count) from first_edge.new }
{
    let mut next = from;
    for j in 0..count as usize {
        first_edge[j] = next;
        let variable = offset_at(nodes, Task::MAX_NODES + j);
        next += byte_at(sizes, variable) as usize;
    }
    next
}

// The initial state: the values behind the domain sizes.
pub fn initial(file: &[u8], variables: usize) -> [u8; Task::MAX_VARIABLES]
    requires { (variables ≤ max_variables) × (1 + 2 * variables ≤ length file.now) }
    ensures { (take variables result ≡ take variables (drop (1 + variables) file.now)) × (length result ≡ max_variables) }
{
    let init = 1 + variables;
    let goal = init + variables;
    let mut state = [0; Task::MAX_VARIABLES];
    state[..variables].copy_from_slice(&file[init..goal]);
    state
}
