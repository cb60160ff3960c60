// The steps of actions, each written straight after the last one.
ghost use Rattle.std.specs.Prelude.{◌≡◌, ℕ, ◌+◌, ◌≤◌, ◌<◌, length, get_or, drop};
ghost use Rattle.facts.specs.Partial.{past_partial};
ghost use Rattle.facts.specs.Fields.{write_each};
ghost use Rattle.facts.specs.Write.{Wrote};
ghost use Rattle.taskfile.specs.Task.{max_variables, max_actions, max_nodes};
ghost use Rattle.taskfile.specs.Row.{own_from};
ghost use Rattle.taskfile.specs.InPlace.{Fronts};
ghost use Rattle.taskfile.specs.WalkInPlace.{incoming_place};
ghost use Rattle.probefile.specs.ProbeFile.{write_step};
ghost use Rattle.compilation.specs.Compile.{flat, node_steps, action_steps};
ghost use Rattle.taskfile.specs.PartsInPlace.{node_in, nodes_in, action_in, actions_in, Tests, Stood};

use facts::number::{byte_at, offset_at};
use step_writer::marks::Marks;
use step_writer::step::{put_edge, put_end, put_start};
use taskfile::Task;
use walk::own_nodes;

// The steps of all `count` actions, by the row of the index.
pub fn put_actions(file: &[u8], sizes: &[u8], count: usize, row: &[usize], out: &mut [u8]) -> usize
    requires sizes_len_bound { (length sizes.now ≤ max_variables) × (count ≤ max_actions) × (count ≤ length row.now) × Fronts file.now count row.now }
    requires by_index { (a : ℕ) → a < count → Stood file.now sizes.now (get_or row.now a 0) (drop (own_from row.now a) row.now) }
    requires count_in_bounds { length (write_each write_step (flat (action_steps (length sizes.now)) 0 (actions_in file.now sizes.now row.now 0 count))) ≤ length out.old }
    ensures { Wrote (write_each write_step (flat (action_steps (length sizes.now)) 0 (actions_in file.now sizes.now row.now 0 count))) out.old out.new result }
{
    let mut at = 0;
    for a in 0..count {
        let own = own_nodes(row, a);
        at += put_action(
            file,
            sizes,
            row[a],
            offset_at(row, Task::EFFECTS + a),
            offset_at(row, Task::INCOMING + a),
            &row[own..],
            a,
            &mut out[at..],
        );
    }
    at
}

// The steps of action a, at an offset, whose effect and incoming weight stand at these and whose own nodes begin at the offsets `nodes`: the start, those of the nodes, the end.
fn put_action(
    file: &[u8],
    sizes: &[u8],
    at: usize,
    effect: usize,
    incoming: usize,
    nodes: &[usize],
    a: usize,
    out: &mut [u8],
) -> usize
    requires stood { Stood file.now sizes.now at nodes.now × (effect ≡ past_partial file.now at) × (incoming ≡ incoming_place file.now at) × (length sizes.now ≤ max_variables) × (a < max_actions) }
    requires nodes_in_bounds { length (write_each write_step (action_steps (length sizes.now) a (action_in file.now sizes.now at nodes.now))) ≤ length out.old }
    ensures { Wrote (write_each write_step (action_steps (length sizes.now) a (action_in file.now sizes.now at nodes.now))) out.old out.new result }
{
    let n = sizes.len();
    let count = byte_at(file, incoming + 2) as usize;
    let marks = Marks { n, a };
    let start = put_start(file, at, effect, incoming, marks, out);
    let edges = start + put_nodes(file, sizes, nodes, count, a, &mut out[start..]);
    edges + put_end(file, effect, incoming, count, marks, &mut out[edges..])
}

// The steps of the first `count` nodes at these offsets, of action a.
fn put_nodes(
    file: &[u8],
    sizes: &[u8],
    nodes: &[usize],
    count: usize,
    a: usize,
    out: &mut [u8],
) -> usize
    requires sizes_len_bound { (length sizes.now ≤ max_variables) × (a < max_actions) × (count ≤ max_nodes) }
    requires by_index { (j : ℕ) → j < count → Tests file.now sizes.now (get_or nodes.now j 0) }
    requires count_in_bounds { length (write_each write_step (flat (node_steps (length sizes.now) a) 1 (nodes_in file.now sizes.now nodes.now 0 count))) ≤ length out.old }
    ensures { Wrote (write_each write_step (flat (node_steps (length sizes.now) a) 1 (nodes_in file.now sizes.now nodes.now 0 count))) out.old out.new result }
{
    let mut at = 0;
    for j in 0..count {
        let node = offset_at(nodes, j);
        at += put_node(file, sizes, node, a, (1 + j) as u8, &mut out[at..]);
    }
    at
}

// The steps of node i of action a, at an offset, one for each value of its variable.
fn put_node(file: &[u8], sizes: &[u8], node: usize, a: usize, i: u8, out: &mut [u8]) -> usize
    requires tests { Tests file.now sizes.now node × (length sizes.now ≤ max_variables) × (a < max_actions) }
    requires node_in_bounds { length (write_each write_step (node_steps (length sizes.now) a i (node_in file.now sizes.now node))) ≤ length out.old }
    ensures { Wrote (write_each write_step (node_steps (length sizes.now) a i (node_in file.now sizes.now node))) out.old out.new result }
{
    let n = sizes.len();
    let v = file[node] as usize;
    let count = sizes[v];
    let mut at = 0;
    let mut edge = node + 1;
    for d in 0..count {
        at += put_edge(file, edge, Marks { n, a }, i, v, d, &mut out[at..]);
        edge += Task::EDGE_BYTES;
    }
    at
}
