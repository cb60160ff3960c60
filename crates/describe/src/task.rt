// A task in words, from the bytes of an accepted file.
ghost use Rattle.std.specs.Prelude.{◌+◌, length};
ghost use Rattle.taskfile.specs.PartsInPlace.{node_in, nodes_in, action_in};
ghost use Rattle.text.specs.Writer.{Appends};
ghost use Rattle.words.specs.Show.{target_text, edge_text, node_text, cost_text, action_text};
ghost use Rattle.words.specs.Rows.{row_from, edge_for, node_for, action_for};

use facts::number::{byte_at, offset_at};
use text::append::Writer;
use walk::{diagram_at, edge_for, effect_at, own_nodes};
use words::parts::{put_numbered, put_states};

// Where an edge leads to, in a diagram of m nodes.
fn put_target(out: &mut Writer, m: usize, target: usize)
    ensures { Appends (target_text m target) out.old out.new }
{
    let node = target <= m;
    if node {
        put_numbered(out, b"node ", target as u64);
    } else {
        out.append(b"the end");
    }
}

// An edge, for the value d.
fn put_edge(out: &mut Writer, m: usize, d: u8, target: usize, weight: u32)
    ensures { Appends (edge_text m d (record { target = target; weight = weight })) out.old out.new }
{
    put_numbered(out, b"    value ", d as u64);
    put_numbered(out, b" adds ", weight as u64);
    out.append(b", then ");
    put_target(out, m, target);
    out.append_byte(b'\n');
}

// The edges of the node at an offset, of m: one for each of `count` values.
fn put_edges(out: &mut Writer, file: &[u8], node: usize, count: u8, m: usize)
    ensures { Appends (row_from (λ d. edge_text m d (edge_for file.now node d)) 0 count) out.old out.new }
{
    for d in 0..count {
        let edge = edge_for(file, node, d);
        put_edge(out, m, d, edge.target, edge.weight);
    }
}

// Node i of m, at an offset.
fn put_node(out: &mut Writer, file: &[u8], sizes: &[u8], node: usize, i: usize, m: usize)
    ensures { Appends (node_text m i (node_in file.now sizes.now node)) out.old out.new }
{
    let variable = byte_at(file, node);
    put_numbered(out, b"  node ", i as u64);
    put_numbered(out, b" tests variable ", variable as u64);
    out.append_byte(b'\n');
    put_edges(out, file, node, byte_at(sizes, variable as usize), m);
}

// The m nodes of an action, which begin at these offsets.
fn put_nodes(out: &mut Writer, file: &[u8], sizes: &[u8], nodes: &[usize], m: usize)
    ensures { Appends (row_from (λ j. node_text m (1 + j) (node_for file.now sizes.now nodes.now j)) 0 m) out.old out.new }
{
    for j in 0..m {
        put_node(out, file, sizes, offset_at(nodes, j), 1 + j, m);
    }
}

// The cost of an action: the incoming weight, and the m nodes that begin at these offsets.
fn put_cost(out: &mut Writer, file: &[u8], sizes: &[u8], nodes: &[usize], incoming: u32, m: usize)
    ensures { Appends (cost_text incoming (nodes_in file.now sizes.now nodes.now 0 m)) out.old out.new }
{
    put_numbered(out, b"\n  cost: ", incoming as u64);
    out.append(b", then ");
    put_target(out, m, 1);
    out.append_byte(b'\n');
    put_nodes(out, file, sizes, nodes, m);
}

// Action a, at an offset: its number, precondition, effect and cost; its own nodes begin at the offsets `nodes`.
fn put_action(out: &mut Writer, file: &[u8], sizes: &[u8], place: usize, nodes: &[usize], a: usize)
    ensures { Appends (action_text (length sizes.now) a (action_in file.now sizes.now place nodes.now)) out.old out.new }
{
    let diagram = diagram_at(file, place);
    let effect = effect_at(file, place);
    put_states(out, b"action ", file, sizes, place, effect, a);
    put_cost(out, file, sizes, nodes, diagram.incoming, diagram.count);
}

// All actions, by the row of the index.
pub fn put_actions(out: &mut Writer, file: &[u8], sizes: &[u8], count: usize, row: &[usize])
    ensures { Appends (row_from (λ a. action_text (length sizes.now) a (action_for file.now sizes.now row.now a)) 0 count) out.old out.new }
{
    for a in 0..count {
        let own = own_nodes(row, a);
        put_action(out, file, sizes, offset_at(row, a), &row[own..], a);
    }
}
