// Steps found by number: an action has its start, an edge for each value of each node's variable, and its end.
ghost use Rattle.std.specs.Prelude.{◌≡◌, ◌+◌};
ghost use Rattle.facts.specs.Answers.{answer};
ghost use Rattle.taskfile.specs.PartsInPlace.{node_in, action_in};
ghost use Rattle.words.specs.Rows.{row_from, node_for};
ghost use Rattle.steps.specs.Steps.{node_names, action_names, check_steps};
ghost use Rattle.steps.specs.Seek.{seek, sought_answer, names_in};

use facts::Refusal;
use facts::number::{byte_at, offset_at};
use walk::{diagram_at, edge_for, own_nodes};

// What a step is: the start of an action, its node i passed with the value d of variable v, or its end.
#[derive(Clone, Copy, Debug, PartialEq, Eq)]
pub enum Name {
    Start(usize),
    Node(usize, usize, u8, u8),
    End(usize),
}

// Step number k of all actions and what it costs, by the row of the index; or how far past the last step the number lies.
pub fn find_step(
    file: &[u8],
    sizes: &[u8],
    count: usize,
    row: &[usize],
    k: usize,
) -> Result<(Name, u32), usize>
    ensures { sought_answer result ≡ seek (names_in file.now sizes.now count row.now) k }
{
    let mut left = k;
    for a in 0..count {
        let own = own_nodes(row, a);
        match find_in_action(file, sizes, offset_at(row, a), &row[own..], a, left) {
            Ok(step) => return Ok(step),
            Err(further) => left = further,
        }
    }
    Err(left)
}

// Whether each number of a list is a step's: 11 at the first index where it is not.
pub fn check_steps(
    file: &[u8],
    sizes: &[u8],
    count: usize,
    row: &[usize],
    list: &[u16],
) -> Result<(), Refusal>
    ensures { answer result ≡ check_steps (names_in file.now sizes.now count row.now) 0 list.now }
{
    for (i, number) in list.iter().enumerate() {
        if find_step(file, sizes, count, row, *number as usize).is_err() {
            return Err(Refusal::Missing(i));
        }
    }
    Ok(())
}

// Step number k of action a, at an offset, whose own nodes begin at the offsets `nodes`.
fn find_in_action(
    file: &[u8],
    sizes: &[u8],
    place: usize,
    nodes: &[usize],
    a: usize,
    k: usize,
) -> Result<(Name, u32), usize>
    ensures { sought_answer result ≡ seek (action_names a (action_in file.now sizes.now place nodes.now)) k }
{
    let diagram = diagram_at(file, place);
    if k == 0 {
        return Ok((Name::Start(a), diagram.incoming));
    }
    match find_in_nodes(file, sizes, nodes, diagram.count, a, k - 1) {
        Ok(step) => Ok(step),
        Err(0) => Ok((Name::End(a), 0)),
        Err(left) => Err(left - 1),
    }
}

// Step number k of the m nodes of action a, which begin at these offsets.
fn find_in_nodes(
    file: &[u8],
    sizes: &[u8],
    nodes: &[usize],
    m: usize,
    a: usize,
    k: usize,
) -> Result<(Name, u32), usize>
    ensures { sought_answer result ≡ seek (row_from (λ j. node_names a (1 + j) (node_for file.now sizes.now nodes.now j)) 0 m) k }
{
    let mut left = k;
    for j in 0..m {
        match find_in_node(file, sizes, offset_at(nodes, j), a, 1 + j, left) {
            Ok(step) => return Ok(step),
            Err(further) => left = further,
        }
    }
    Err(left)
}

// Step number k of node i of action a, at an offset: the edge for the value k.
fn find_in_node(
    file: &[u8],
    sizes: &[u8],
    node: usize,
    a: usize,
    i: usize,
    k: usize,
) -> Result<(Name, u32), usize>
    ensures { sought_answer result ≡ seek (node_names a i (node_in file.now sizes.now node)) k }
{
    let variable = byte_at(file, node);
    let count = byte_at(sizes, variable as usize) as usize;
    if count <= k {
        return Err(k - count);
    }
    let edge = edge_for(file, node, k as u8);
    Ok((Name::Node(a, i, variable, k as u8), edge.weight))
}
