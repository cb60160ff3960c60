// One action done in a state, and its step numbers: its start, the edge for the state's value at each node passed, its end.
ghost use Rattle.std.specs.Prelude.{◌≡◌, ◌*◌, ◌≤◌, length, IfSome, MatchOption, option_map};
ghost use Rattle.facts.specs.Answers.{move_of};
ghost use Rattle.facts.specs.Write.{Wrote};
ghost use Rattle.taskfile.specs.Task.{max_weight};
ghost use Rattle.taskfile.specs.WalkInPlace.{max_passed, max_walk, node_count, perform_at, way_from};
ghost use Rattle.taskfile.specs.PartsInPlace.{nodes_in, action_in, Tested};
ghost use Rattle.step_writer.specs.InPlace.{Weighs};
ghost use Rattle.plans.specs.Carry.{action_list};
ghost use Rattle.numbering.specs.InPlace.{Writable, entries_of};

use facts::number::{byte_at, offset_at, word_at};
use numbering::Steps;
use partial::{apply_at, held_at};
use taskfile::Task;
use walk::edge_for;

// What an action costs, or the edges passed on its way, and how many entries were written.
#[derive(Clone, Copy, Debug, PartialEq, Eq)]
pub struct Path {
    pub cost: u32,
    pub written: usize,
}

// Does the action at an offset, whose incoming weight is at `incoming` and whose own nodes are noted in `nodes`, and writes the numbers of its steps. Where its precondition does not hold nothing is written.
pub fn put_action(
    file: &[u8],
    sizes: &[u8],
    at: usize,
    incoming: usize,
    nodes: &[usize],
    steps: Steps,
    state: &mut [u8],
    out: &mut [u16],
) -> Option<Path>
    requires weighs { Weighs file.now at incoming }
    requires writable { Writable sizes.now (action_in file.now sizes.now at nodes.now).nodes steps.edges.now steps.first steps.next state.old (length out.old) × Tested file.now nodes.now (node_count file.now at) }
    ensures state_after { move_of (option_map (λ path. path.cost) result) state.new ≡ perform_at file.now at nodes.now state.old }
    ensures cost_most { IfSome result (λ path. path.cost ≤ max_walk) }
    ensures wrote { MatchOption result (out.new ≡ out.old) (λ path. Wrote (action_list steps.entry.first (action_in file.now sizes.now at nodes.now) state.old) out.old out.new path.written) }
{
    let effect = held_at(file, at, state)?;
    let weight = word_at(file, incoming);
    let count = byte_at(file, incoming + 2) as usize;
    let path = put_path(file, sizes, nodes, count, steps, state, out);
    apply_at(file, effect, state);
    Some(Path {
        cost: weight + path.cost,
        written: path.written,
    })
}

// The step numbers of an action with `count` nodes, and what the edges passed from node 1 to the terminal cost.
fn put_path(
    file: &[u8],
    sizes: &[u8],
    nodes: &[usize],
    count: usize,
    steps: Steps,
    state: &[u8],
    out: &mut [u16],
) -> Path
    requires { (count ≤ max_passed) × Writable sizes.now (nodes_in file.now sizes.now nodes.now 0 count) steps.edges.now steps.first steps.next state.now (length out.old) × Tested file.now nodes.now count }
    ensures wrote { Wrote (entries_of steps.entry.first (nodes_in file.now sizes.now nodes.now 0 count) state.now) out.old out.new result.written }
    ensures cost_value { (result.cost ≡ (way_from file.now nodes.now count state.now 1).cost) × (result.cost ≤ max_weight * max_passed) }
{
    out[0] = steps.first as u16;
    let mut written = 1;
    let mut cost = 0;
    let mut k = 1;
    // no range: the next number is that of the edge's target
    while k <= count {
        let j = k - 1;
        let node = offset_at(nodes, j);
        let value = byte_at(state, offset_at(nodes, Task::MAX_NODES + j));
        out[written] = (offset_at(steps.edges, j) + value as usize) as u16;
        written += 1;
        let edge = edge_for(file, node, value);
        cost += edge.weight;
        k = edge.target;
    }
    out[written] = (steps.next - 1) as u16;
    Path {
        cost,
        written: written + 1,
    }
}
