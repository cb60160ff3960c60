// Relaxed costs in place: the least cost of an action over the states of a relaxed state that meet its precondition, by one pass over its nodes from the last to the first.
ghost use Rattle.std.specs.Prelude.{◌≡◌, ◌+◌, ◌*◌, ◌≤◌, length, get_or};
ghost use Rattle.facts.specs.Answers.{answer};
ghost use Rattle.taskfile.specs.Task.{max_variables, max_values, max_nodes, max_weight};
ghost use Rattle.taskfile.specs.Blank.{file_of};
ghost use Rattle.taskfile.specs.Index.{Ready};
ghost use Rattle.taskfile.specs.PartsInPlace.{node_in, action_in};
ghost use Rattle.relaxation.specs.Relaxed.{SetInside};
ghost use Rattle.relaxation.specs.Pass.{least_at};
ghost use Rattle.relaxation.specs.RelaxedPass.{relaxed_pass, relaxed_by_pass};
ghost use Rattle.relaxation.specs.RelaxedInPlace.{cost_for, greatest, Relaxable};
ghost use Rattle.relaxation.specs.RelaxedTask.{check_relaxed, relaxed_in, relaxed_task};

use facts::Refusal;
use facts::number::{byte_at, offset_at};
use narrow::narrow;
use partial::stray;
use taskfile::Task;
use walk::{diagram_at, edge_for, own_nodes};

// Above every cost.
const TOP: u32 = 4294967295;

// The relaxed cost of an action of an accepted file, by the bytes in which its task is found: 11 for the number, then 12 and 4 for the sets, then 17.
pub fn relaxed_in(
    file: &[u8],
    variables: usize,
    actions: usize,
    row: &[usize],
    action: usize,
    sets: &[u8],
) -> Result<u32, Refusal>
    requires { Ready file.now variables actions row.now }
    ensures { answer result ≡ relaxed_task (file_of file.now) action sets.now }
{
    if actions <= action {
        return Err(Refusal::Missing(0));
    }
    let last = 1 + variables;
    let sizes = &file[1..last];
    check_sets(sizes, sets)?;
    let own = own_nodes(row, action);
    met_at(file, sizes, offset_at(row, action), &row[own..], sets)
}

// The relaxed cost of the action at an offset, whose own nodes begin at the offsets `nodes`: 17, and then one pass with the sets narrowed in a copy.
fn met_at(
    file: &[u8],
    sizes: &[u8],
    at: usize,
    nodes: &[usize],
    sets: &[u8],
) -> Result<u32, Refusal>
    requires { Relaxable file.now sizes.now at nodes.now sets.now × (length sets.now ≤ max_variables) }
    ensures { answer result ≡ relaxed_in (action_in file.now sizes.now at nodes.now) sets.now }
{
    let mut copy = [0; Task::MAX_VARIABLES];
    let n = sets.len();
    narrow(file, at, sets, &mut copy[..n])?;
    Ok(relaxed_at(file, sizes, at, nodes, &copy[..n]))
}

// Whether a relaxed state has a set for each variable that is not empty and has no stray bit: 12 for its length, then 4 at the lowest variable.
fn check_sets(sizes: &[u8], sets: &[u8]) -> Result<(), Refusal>
    ensures { answer result ≡ check_relaxed sizes.now sets.now }
{
    if sets.len() != sizes.len() {
        return Err(Refusal::Width(0));
    }
    for v in 0..sizes.len() {
        if sets[v] == 0 {
            return Err(Refusal::Outside(v));
        }
        if stray(sets[v] as u64, sizes[v] as usize) {
            return Err(Refusal::Outside(v));
        }
    }
    Ok(())
}

// The least cost of the action at an offset, whose own nodes begin at the offsets `nodes`, over all states in the sets. Entry k of the table is the least from
// node k on; the terminal's is 0.
fn relaxed_at(file: &[u8], sizes: &[u8], at: usize, nodes: &[usize], sets: &[u8]) -> u32
    requires { Relaxable file.now sizes.now at nodes.now sets.now }
    ensures { result ≡ relaxed_by_pass (action_in file.now sizes.now at nodes.now) sets.now }
{
    let diagram = diagram_at(file, at);
    let mut least: [u32; Task::NUMBERS] = [0; Task::NUMBERS];
    for k in (0..diagram.count).rev() {
        least[k + 1] = least_at(file, sizes, offset_at(nodes, k), sets, &least);
    }
    diagram.incoming + least[1]
}

// The least from the node at an offset on, over the values of its variable's set: an edge's weight and the entry of its target.
fn least_at(file: &[u8], sizes: &[u8], node: usize, sets: &[u8], least: &[u32]) -> u32
    requires { SetInside (get_or sizes.now (get_or file.now node 0) 0) (get_or sets.now (get_or file.now node 0) 0) × (get_or sizes.now (get_or file.now node 0) 0 ≤ max_values) × (greatest least.now ≤ max_weight * max_nodes) }
    ensures { (result ≡ least_at (relaxed_pass sets.now) (node_in file.now sizes.now node) (λ t. get_or least.now t 0)) × (result ≤ max_weight + greatest least.now) }
{
    let variable = byte_at(file, node) as usize;
    let size = byte_at(sizes, variable);
    let mut rest = byte_at(sets, variable);
    let mut best = TOP;
    for d in 0..size {
        let inside = rest % 2;
        rest /= 2;
        if inside == 0 {
            continue;
        }
        best = best.min(cost_for(file, node, d, least));
    }
    best
}

// What the edge for a value, of the node at an offset, comes to.
fn cost_for(file: &[u8], node: usize, value: u8, least: &[u32]) -> u32
    requires { greatest least.now ≤ max_weight * max_nodes }
    ensures { (result ≡ cost_for file.now node least.now value) × (result ≤ max_weight + greatest least.now) }
{
    let edge = edge_for(file, node, value);
    edge.weight + least.get(edge.target).copied().unwrap_or(0)
}
