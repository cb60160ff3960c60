// How many steps the actions of a task have, and how many bytes.
ghost use Rattle.std.specs.Prelude.{◌≡◌, ℕ, ◌+◌, ◌*◌, ◌≤◌, ◌<◌, length, get_or, drop};
ghost use Rattle.facts.specs.Lists.{total};
ghost use Rattle.taskfile.specs.Task.{max_variables, max_actions};
ghost use Rattle.taskfile.specs.Row.{own_from};
ghost use Rattle.taskfile.specs.InPlace.{Fronts};
ghost use Rattle.compilation.specs.Compile.{flat, action_steps, edge_count};
ghost use Rattle.compilation.specs.CompiledLengthLaws.{step_bytes};
ghost use Rattle.taskfile.specs.PartsInPlace.{nodes_in, actions_in, Tests, Stood};

use facts::number::{byte_at, offset_at};
use taskfile::Task;
use walk::own_nodes;

// The bytes of an edge's step: three facts, two maps and a cost.
const EDGE_STEP: usize = 21;

// The bytes of start and end, without the action's own partial states: five facts, two maps and two costs.
const START_AND_END: usize = 27;

// Steps, and their bytes.
#[derive(Clone, Copy, Debug, PartialEq, Eq)]
pub struct Extent {
    pub steps: usize,
    pub bytes: usize,
}

// The steps of all `count` actions, by the row of the index.
pub fn extent_of(file: &[u8], sizes: &[u8], count: usize, row: &[usize]) -> Extent
    requires sizes_len_bound { (length sizes.now ≤ max_variables) × (count ≤ max_actions) × (count ≤ length row.now) × Fronts file.now count row.now }
    requires by_index { (a : ℕ) → a < count → Stood file.now sizes.now (get_or row.now a 0) (drop (own_from row.now a) row.now) }
    ensures steps_value { result.steps ≡ length (flat (action_steps (length sizes.now)) 0 (actions_in file.now sizes.now row.now 0 count)) }
    ensures bytes_value { result.bytes ≡ total step_bytes (flat (action_steps (length sizes.now)) 0 (actions_in file.now sizes.now row.now 0 count)) }
{
    let mut steps = 0;
    let mut bytes = 0;
    for a in 0..count {
        let at = row[a];
        let incoming = offset_at(row, Task::INCOMING + a);
        let own = own_nodes(row, a);
        let edges = edge_count(file, sizes, &row[own..], byte_at(file, incoming + 2));
        steps += 2 + edges;
        bytes += START_AND_END + (incoming - at) + EDGE_STEP * edges;
    }
    Extent { steps, bytes }
}

// The edges of the first `count` nodes at these offsets: one for each value of a node's variable.
fn edge_count(file: &[u8], sizes: &[u8], nodes: &[usize], count: u8) -> usize
    requires { (j : ℕ) → j < count → Tests file.now sizes.now (get_or nodes.now j 0) }
    ensures { (result ≡ total edge_count (nodes_in file.now sizes.now nodes.now 0 count)) × (result ≤ 255 * count) }
{
    let mut edges = 0;
    for j in 0..count {
        let variable = file[offset_at(nodes, j as usize)] as usize;
        edges += sizes[variable] as usize;
    }
    edges
}
