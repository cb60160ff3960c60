// The edges of a node in place: what each comes to, the greatest of them, and the first that comes to a cost.
ghost use Rattle.std.specs.Prelude.{◌≡◌, ◌+◌, ◌≤◌, ◌<◌, map, length, get_or};
ghost use Rattle.facts.specs.Lists.{up_from};
ghost use Rattle.taskfile.specs.Task.{max_weight};
ghost use Rattle.taskfile.specs.PartsInPlace.{Tests};
ghost use Rattle.relaxation.specs.RelaxedInPlace.{cost_for, greatest};
ghost use Rattle.dearest.specs.ByWalk.{first_costing};
ghost use Rattle.dearest.specs.InPlace.{Low, Edges};

use taskfile::Task;
use walk::weight_inside;

// The greatest from the node at an offset on, over the values of its variable.
pub fn greatest_at(file: &[u8], sizes: &[u8], node: usize, table: &[u32]) -> u32
    requires { Tests file.now sizes.now node × Edges file.now node (get_or sizes.now (get_or file.now node 0) 0) × Low table.now }
    ensures { (result ≡ greatest (map (cost_for file.now node table.now) (up_from 0 (get_or sizes.now (get_or file.now node 0) 0)))) × (result ≤ max_weight + greatest table.now) }
{
    let size = sizes[file[node] as usize] as usize;
    let mut most: u32 = 0;
    for d in 0..size {
        most = most.max(cost_by(file, node, size, d, table));
    }
    most
}

// The first of the values of the node at an offset that comes to a cost.
pub fn first_costing(file: &[u8], node: usize, size: u8, table: &[u32], cost: u32) -> u8
    requires { Edges file.now node size × Low table.now }
    ensures { result ≡ first_costing (cost_for file.now node table.now) cost size }
{
    for d in 0..size {
        if cost_by(file, node, size as usize, d as usize, table) == cost {
            return d;
        }
    }
    0
}

// What the edge for one of `size` values, of the node at an offset, comes to: its weight and the entry of its target.
fn cost_by(file: &[u8], node: usize, size: usize, value: usize, table: &[u32]) -> u32
    requires { Edges file.now node size × Low table.now × (value < size) }
    ensures { (result ≡ cost_for file.now node table.now value) × (result ≤ max_weight + greatest table.now) }
{
    let at = node + (1 + Task::EDGE_BYTES * value);
    (weight_inside(file, at + 1) as u32) + table[file[at] as usize]
}
