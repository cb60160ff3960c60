// Walks in place: the cost of an action in a state.
#![tactic(auto)]

pub mod action;
pub mod count;

ghost use Rattle.std.specs.Prelude.{◌≡◌, ◌+◌, ◌*◌, ◌≤◌, min, length, get_or};
ghost use Rattle.facts.specs.Partial.{past_partial, Alike};
ghost use Rattle.facts.specs.Fields.{word_at};
ghost use Rattle.taskfile.specs.Task.{max_weight};
ghost use Rattle.taskfile.specs.TaskFile.{edge_bytes};
ghost use Rattle.taskfile.specs.Row.{own_from};
ghost use Rattle.taskfile.specs.PartsInPlace.{edge_in};
ghost use Rattle.taskfile.specs.WalkInPlace.{count_past, incoming_place, node_count, edge_of, way_from, walk_for, max_passed, max_walk};

use facts::number::{byte_at, offset_at, offset_within, word_at};
use partial::length_at;
use taskfile::Task;
pub use taskfile::Walked;

// An edge: the number of the node that it leads to, and what it costs.
#[derive(Clone, Copy, Debug, PartialEq, Eq)]
pub struct Edge {
    pub target: usize,
    pub weight: u32,
}

// What stands before the nodes of a diagram: the weight of the edge into node 1, and the number of nodes.
#[derive(Clone, Copy, Debug, PartialEq, Eq)]
pub struct Diagram {
    pub incoming: u32,
    pub count: usize,
}

// From which entry of a row on the nodes of action a are noted; past its end there are none.
pub fn own_nodes(row: &[usize], a: usize) -> usize
    ensures { result ≡ min (own_from row.now a) (length row.now) }
{
    let most = row.len();
    if most <= Task::NODES {
        return most;
    }
    if most - Task::FIRSTS <= a {
        return Task::NODES;
    }
    Task::NODES + offset_within(row, Task::FIRSTS + a, most - Task::NODES)
}

// The walk of the action whose incoming weight is at an offset, and whose own nodes are noted in `nodes`: where each begins, and `Task::MAX_NODES` entries behind that the variable that it tests.
pub fn walk_from(file: &[u8], incoming: usize, nodes: &[usize], state: &[u8]) -> Walked
    ensures { (result.cost ≡ (walk_for file.now incoming nodes.now state.now).cost) × (result.passed ≡ (walk_for file.now incoming nodes.now state.now).passed) × (result.cost ≤ max_walk) × (result.passed ≤ max_passed) }
{
    let diagram = diagram_from(file, incoming);
    let weight = diagram.incoming;
    let way = way_up(file, nodes, diagram.count, state);
    Walked {
        cost: weight + way.cost,
        passed: way.passed,
    }
}

// What stands before the nodes of the action at an offset: past precondition and effect.
pub fn diagram_at(file: &[u8], at: usize) -> Diagram
    ensures { (result.incoming ≡ word_at file.now (incoming_place file.now at)) × (result.count ≡ node_count file.now at) × (result.incoming ≤ max_weight) × (result.count ≤ max_passed) }
{
    diagram_past(file, effect_at(file, at))
}

// The same, of the action whose effect is at an offset.
pub fn diagram_past(file: &[u8], effect: usize) -> Diagram
    ensures { (result.incoming ≡ word_at file.now (past_partial file.now effect)) × (result.count ≡ count_past file.now effect) × (result.incoming ≤ max_weight) × (result.count ≤ max_passed) }
{
    if file.len() < effect {
        return Diagram {
            incoming: 0,
            count: 0,
        };
    }
    diagram_from(file, effect + length_at(file, effect))
}

// The same, of the action whose incoming weight is at an offset.
pub fn diagram_from(file: &[u8], incoming: usize) -> Diagram
    ensures { (result.incoming ≡ word_at file.now incoming) × (result.count ≡ get_or file.now (incoming + 2) 0) × (result.incoming ≤ max_weight) × (result.count ≤ max_passed) }
{
    if file.len() < incoming {
        return Diagram {
            incoming: 0,
            count: 0,
        };
    }
    Diagram {
        incoming: word_at(file, incoming),
        count: byte_at(file, incoming + 2) as usize,
    }
}

// Where the effect of the action at an offset stands; past the end of the file the offset stays.
pub fn effect_at(file: &[u8], at: usize) -> usize
    ensures { Alike file.now result (past_partial file.now at) }
{
    if file.len() < at {
        return at;
    }
    at + length_at(file, at)
}

// The walk from node 1 up through a diagram with `count` nodes.
fn way_up(file: &[u8], nodes: &[usize], count: usize, state: &[u8]) -> Walked
    requires { count ≤ max_passed }
    ensures { (result.cost ≡ (way_from file.now nodes.now count state.now 1).cost) × (result.passed ≡ (way_from file.now nodes.now count state.now 1).passed) × (result.cost ≤ max_weight * count) × (result.passed ≤ count) }
{
    let mut cost: u32 = 0;
    let mut passed: usize = 0;
    let mut k: usize = 1;
    // no range: the next number is that of the edge's target
    while k <= count {
        let variable = offset_at(nodes, Task::MAX_NODES + (k - 1));
        let edge = edge_at(file, offset_at(nodes, k - 1), variable, state);
        cost += edge.weight;
        passed += 1;
        if edge.target <= k {
            return Walked { cost, passed };
        }
        k = edge.target;
    }
    Walked { cost, passed }
}

// The edge, for the state's value, of the node at an offset, which tests a variable.
fn edge_at(file: &[u8], node: usize, variable: usize, state: &[u8]) -> Edge
    ensures { (result.target ≡ (edge_of file.now node variable state.now).target) × (result.weight ≡ (edge_of file.now node variable state.now).weight) × (result.weight ≤ max_weight) }
{
    edge_for(file, node, byte_at(state, variable))
}

// The edge, for a value of its variable, of the node at an offset.
pub fn edge_for(file: &[u8], node: usize, value: u8) -> Edge
    ensures { (result.target ≡ (edge_in file.now (node + (1 + edge_bytes * value))).target) × (result.weight ≡ (edge_in file.now (node + (1 + edge_bytes * value))).weight) × (result.weight ≤ max_weight) }
{
    if file.len() <= node {
        return Edge {
            target: 0,
            weight: 0,
        };
    }
    let at = node + (1 + Task::EDGE_BYTES * (value as usize));
    Edge {
        target: byte_at(file, at) as usize,
        weight: word_at(file, at + 1),
    }
}

// The weight at an offset inside the file.
pub fn weight_inside(file: &[u8], at: usize) -> u64
    requires { at + 2 ≤ length file.now }
    ensures { (result ≡ word_at file.now at) × (result ≤ 65535) }
{
    u64::from(u16::from_le_bytes([file[at], file[at + 1]]))
}
