// Diagrams in place: past one, with every check, noting where each node starts and which variable it tests.
#![tactic(auto)]

ghost use Rattle.std.specs.Prelude.{◌≡◌, ℕ, suc, ◌+◌, ◌*◌, ◌-◌, ◌≤◌, ◌<◌, ◌&&◌, leb, ltb, length, get_or};
ghost use Rattle.facts.specs.Read.{accepted};
ghost use Rattle.facts.specs.Answers.{answer};
ghost use Rattle.facts.specs.Fields.{next_of};
ghost use Rattle.taskfile.specs.Task.{max_nodes, max_variables};
ghost use Rattle.taskfile.specs.TaskFile.{edge_bytes, read_target, read_edge, read_edges, read_node, read_nodes};
ghost use Rattle.taskfile.specs.Row.{nodes_from, row_long};
ghost use Rattle.taskfile.specs.InPlace.{targets_rise, nodes_rise, Levels, Marked, diagram_at, Placed};
ghost use Rattle.taskfile.specs.PartsInPlace.{Tests};

use facts::Refusal;
use facts::number::byte_at;
use taskfile::Task;

// The bytes of a weight.
const WEIGHT_BYTES: usize = 2;

// The variable that stands for the terminal, above all others.
const TERMINAL: u8 = 255;

// As many levels as a byte has values, so that a target needs no test before its level is read.
const LEVELS: usize = 256;

// Past a diagram, which may have as many nodes as are not used yet; its nodes' offsets and variables are noted in the row of the index, after those that are used.
pub fn diagram_end(
    file: &[u8],
    at: usize,
    sizes: &[u8],
    used: usize,
    row: &mut [usize],
) -> Result<(usize, usize), Refusal>
    requires { (used ≤ max_nodes) × (row_long ≤ length row.old) × (length sizes.now ≤ max_variables) }
    ensures result_value { answer result ≡ diagram_at file.now sizes.now (max_nodes - used) at }
    ensures by_index { (p : ℕ × ℕ) → answer result ≡ accepted p → Placed file.now sizes.now (max_nodes - used) at (nodes_from + used) row.old row.new }
{
    let m = head::read_count(file, at, 0, (Task::MAX_NODES - used) as u64)? as usize;
    let first = Task::NODES + used;
    let mut levels = [TERMINAL; LEVELS];
    let end = nodes_end(file, at + 1, sizes, m, &mut row[first..], &mut levels)?;
    nodes_rise(file, sizes, m, &row[first..], &levels)?;
    Ok((end, m))
}

// Past the m nodes of a diagram, noting where each starts, and its variable beside that and by its number.
fn nodes_end(
    file: &[u8],
    from: usize,
    sizes: &[u8],
    m: usize,
    offsets: &mut [usize],
    levels: &mut [u8],
) -> Result<usize, Refusal>
    requires { (m ≤ max_nodes) × (max_nodes + m ≤ length offsets.old) × (m < length levels.old) × ((k : ℕ) → get_or levels.old k 255 ≡ 255) }
    ensures result_value { answer result ≡ next_of (read_nodes file.now sizes.now m from) }
    ensures marked { Marked file.now sizes.now m from offsets.new }
    ensures by_index { (end : ℕ) → answer result ≡ accepted end → Levels file.now m offsets.new levels.new }
    ensures by_index_2 { (k : ℕ) → m ≤ k → k < max_nodes → get_or offsets.new k 0 ≡ get_or offsets.old k 0 }
{
    let mut at = from;
    for j in 0..m {
        let variable = byte_at(file, at);
        offsets[Task::MAX_NODES + j] = variable as usize;
        offsets[j] = at;
        levels[1 + j] = variable;
        at = node_end(file, at, sizes, m, 1 + j)?;
    }
    Ok(at)
}

// Past node i, of m: its variable and an edge for each value.
fn node_end(file: &[u8], at: usize, sizes: &[u8], m: usize, i: usize) -> Result<usize, Refusal>
    ensures { answer result ≡ next_of (read_node file.now sizes.now m i at) }
{
    if file.len() <= at {
        return Err(Refusal::Ends(at));
    }
    let variable = file[at] as usize;
    if sizes.len() <= variable {
        return Err(Refusal::Diagram(at));
    }
    edges_end(file, at + 1, m, i, sizes[variable] as usize)
}

// Past the edges of node i, of m: one test tells whether the file has the bytes of all of them.
fn edges_end(file: &[u8], from: usize, m: usize, i: usize, count: usize) -> Result<usize, Refusal>
    requires { (from ≤ length file.now) × (count < 256) }
    ensures { answer result ≡ next_of (read_edges file.now m i count from) }
{
    if file.len() - from < Task::EDGE_BYTES * count {
        return edges_cut(file, from, m, i, count);
    }
    edges_whole(file, from, m, i, count)
}

// The same, where the file has the bytes of all of them.
fn edges_whole(file: &[u8], from: usize, m: usize, i: usize, count: usize) -> Result<usize, Refusal>
    requires { from + edge_bytes * count ≤ length file.now }
    ensures { answer result ≡ next_of (read_edges file.now m i count from) }
{
    let mut at = from;
    for _ in 0..count {
        if ahead(file[at] as usize, m, i) {
            at += Task::EDGE_BYTES;
            continue;
        }
        return Err(Refusal::Diagram(at));
    }
    Ok(at)
}

// The same, edge by edge.
fn edges_cut(file: &[u8], from: usize, m: usize, i: usize, count: usize) -> Result<usize, Refusal>
    ensures { answer result ≡ next_of (read_edges file.now m i count from) }
{
    let mut at = from;
    for _ in 0..count {
        at = edge_end(file, at, m, i)?;
    }
    Ok(at)
}

// Past an edge of node i, of m: target and weight.
fn edge_end(file: &[u8], at: usize, m: usize, i: usize) -> Result<usize, Refusal>
    ensures { answer result ≡ next_of (read_edge file.now m i at) }
{
    let weight = target_end(file, at, m, i)?;
    facts::number::read_word(file, weight)?;
    Ok(weight + WEIGHT_BYTES)
}

// Past a target of node i, of m: a later node, or the terminal.
fn target_end(file: &[u8], at: usize, m: usize, i: usize) -> Result<usize, Refusal>
    ensures { answer result ≡ next_of (read_target file.now m i at) }
{
    if file.len() <= at {
        return Err(Refusal::Ends(at));
    }
    if ahead(file[at] as usize, m, i) {
        return Ok(at + 1);
    }
    Err(Refusal::Diagram(at))
}

// Whether a target lies ahead of node i, of m: a later node, or the terminal.
fn ahead(target: usize, m: usize, i: usize) -> bool
    ensures { result ≡ (ltb i target && leb target (suc m)) }
{
    if target <= i {
        return false;
    }
    target - 1 <= m
}

// Whether the variable rises along each edge of the m nodes at these offsets, by the row of their variables. It has a place of its own, as its loop is quick or slow by where it lies in the pass over the file (docs/PERFORMANCE.md).
#[inline(never)]
fn nodes_rise(
    file: &[u8],
    sizes: &[u8],
    m: usize,
    offsets: &[usize],
    levels: &[u8],
) -> Result<(), Refusal>
    requires { (m ≤ length offsets.now) × ((j : ℕ) → j < m → Tests file.now sizes.now (get_or offsets.now j 0)) }
    ensures { answer result ≡ nodes_rise file.now sizes.now offsets.now levels.now 0 m }
{
    for j in 0..m {
        let at = offsets[j];
        let variable = file[at];
        targets_rise(file, levels, variable, sizes[variable as usize], at + 1)?;
    }
    Ok(())
}

// Whether each target of a node that tests v, the first of which lies at `from`, has a variable above v.
fn targets_rise(file: &[u8], levels: &[u8], v: u8, count: u8, from: usize) -> Result<(), Refusal>
    requires { from + edge_bytes * count ≤ length file.now }
    ensures { answer result ≡ targets_rise file.now levels.now v count from }
{
    let mut at = from;
    for _ in 0..count {
        if level_of(levels, file[at]) <= v {
            return Err(Refusal::Diagram(at));
        }
        at += Task::EDGE_BYTES;
    }
    Ok(())
}

// The variable of node k, and past the row that of the terminal.
fn level_of(levels: &[u8], k: u8) -> u8
    ensures { result ≡ get_or levels.now k 255 }
{
    levels.get(k as usize).copied().unwrap_or(TERMINAL)
}
