// Cost diagrams for Graphviz, from the bytes of an accepted file.
ghost use Rattle.std.specs.Prelude.{◌≡◌, ◌+◌, ◌-◌, ◌≤◌, ◌<◌, ◌++◌, length};
ghost use Rattle.taskfile.specs.PartsInPlace.{edges_in, node_in, action_in};
ghost use Rattle.text.specs.Writer.{Appends};
ghost use Rattle.words.specs.Dot.{node_name, alike, is_among, also_text, dot_edge, dot_node, dot_entry, dot_action};
ghost use Rattle.words.specs.Rows.{row_from, edge_for, node_for, action_for, drawing};

use facts::number::{byte_at, offset_at};
use text::append::Writer;
use walk::{diagram_at, edge_for, own_nodes};
use words::parts::put_numbered;

// All actions from number `from` up to `end`, in one drawing, by the row of the index.
pub fn put_drawing(
    out: &mut Writer,
    file: &[u8],
    variables: usize,
    row: &[usize],
    from: usize,
    end: usize,
)
    requires { 1 + variables ≤ length file.now }
    ensures { Appends (drawing file.now variables row.now from end) out.old out.new }
{
    let last = 1 + variables;
    out.append(b"digraph costs {\n");
    put_diagrams(out, file, &file[1..last], row, from, end);
    out.append(b"}\n");
}

// The same, without what opens and closes the drawing.
fn put_diagrams(out: &mut Writer, file: &[u8], sizes: &[u8], row: &[usize], from: usize, end: usize)
    ensures { Appends (row_from (λ a. dot_action a (action_for file.now sizes.now row.now a)) from (end - from)) out.old out.new }
{
    for a in from..end {
        let own = own_nodes(row, a);
        put_diagram(out, file, sizes, offset_at(row, a), &row[own..], a);
    }
}

// Action a, at an offset, whose own nodes begin at the offsets `nodes`.
fn put_diagram(out: &mut Writer, file: &[u8], sizes: &[u8], place: usize, nodes: &[usize], a: usize)
    ensures { Appends (dot_action a (action_in file.now sizes.now place nodes.now)) out.old out.new }
{
    let diagram = diagram_at(file, place);
    put_entry(out, a, diagram.incoming);
    put_vertices(out, file, sizes, nodes, diagram.count, a);
    put_name(out, b"  ", a, 1 + diagram.count);
    out.append(b" [shape=box, label=\"end\"];\n");
}

// The name of action a, and the edge into node 1.
fn put_entry(out: &mut Writer, a: usize, incoming: u32)
    ensures { Appends (dot_entry a incoming) out.old out.new }
{
    put_numbered(out, b"  a", a as u64);
    put_numbered(out, b" [shape=plaintext, label=\"action ", a as u64);
    put_numbered(out, b"\"];\n  a", a as u64);
    put_name(out, b" -> ", a, 1);
    put_numbered(out, b" [label=\" +", incoming as u64);
    out.append(b" \"];\n");
}

// A label, and node i of action a by its name.
fn put_name(out: &mut Writer, label: &[u8], a: usize, i: usize)
    ensures { Appends (label.now ++ node_name a i) out.old out.new }
{
    out.append(label);
    put_numbered(out, b"a", a as u64);
    put_numbered(out, b"n", i as u64);
}

// The m nodes of action a, which begin at these offsets.
fn put_vertices(out: &mut Writer, file: &[u8], sizes: &[u8], nodes: &[usize], m: usize, a: usize)
    ensures { Appends (row_from (λ j. dot_node a (1 + j) (node_for file.now sizes.now nodes.now j)) 0 m) out.old out.new }
{
    for j in 0..m {
        put_vertex(out, file, sizes, offset_at(nodes, j), a, 1 + j);
    }
}

// Node i of action a, at an offset: its variable and its edges.
fn put_vertex(out: &mut Writer, file: &[u8], sizes: &[u8], node: usize, a: usize, i: usize)
    ensures { Appends (dot_node a i (node_in file.now sizes.now node)) out.old out.new }
{
    let variable = byte_at(file, node);
    put_name(out, b"  ", a, i);
    put_numbered(out, b" [label=\"node ", i as u64);
    put_numbered(out, b"\\nvariable ", variable as u64);
    out.append(b"\"];\n");
    put_arrows(out, file, node, byte_at(sizes, variable as usize), a, i);
}

// Its edges, one for each of `count` values.
fn put_arrows(out: &mut Writer, file: &[u8], node: usize, count: u8, a: usize, i: usize)
    ensures { Appends (row_from (λ d. dot_edge a i (edges_in file.now (node + 1) count) d (edge_for file.now node d)) 0 count) out.old out.new }
{
    for d in 0..count {
        put_edge(out, file, node, count, a, i, d);
    }
}

// The edge for the value d: one arrow for it and for those like it that follow, and none where one like it came before.
fn put_edge(out: &mut Writer, file: &[u8], node: usize, count: u8, a: usize, i: usize, d: u8)
    requires { d < count }
    ensures { Appends (dot_edge a i (edges_in file.now (node + 1) count) d (edge_for file.now node d)) out.old out.new }
{
    if came_before(file, node, d) {
        return;
    }
    let edge = edge_for(file, node, d);
    put_name(out, b"  ", a, i);
    put_name(out, b" -> ", a, edge.target);
    put_numbered(out, b" [label=\" ", d as u64);
    put_others(out, file, node, d, count);
    put_numbered(out, b": +", edge.weight as u64);
    out.append(b" \"];\n");
}

// Whether one like the edge for the value d came before it.
fn came_before(file: &[u8], node: usize, d: u8) -> bool
    ensures { result ≡ is_among (edge_for file.now node d) (edges_in file.now (node + 1) d) }
{
    (0..d).any(|j| are_alike(file, node, d, j))
}

// Whether the edges for two values lead to the same node with the same weight.
fn are_alike(file: &[u8], node: usize, d: u8, j: u8) -> bool
    ensures { result ≡ alike (edge_for file.now node d) (edge_for file.now node j) }
{
    let edge = edge_for(file, node, d);
    let other = edge_for(file, node, j);
    edge == other
}

// The values above d, below `count`, whose edges are like that for d.
fn put_others(out: &mut Writer, file: &[u8], node: usize, d: u8, count: u8)
    requires { d < count }
    ensures { Appends (row_from (λ j. also_text (edge_for file.now node d) j (edge_for file.now node j)) (d + 1) (count - (d + 1))) out.old out.new }
{
    for j in d + 1..count {
        put_other(out, file, node, d, j);
    }
}

// The value j after a comma, if its edge is like that for d.
fn put_other(out: &mut Writer, file: &[u8], node: usize, d: u8, j: u8)
    ensures { Appends (also_text (edge_for file.now node d) j (edge_for file.now node j)) out.old out.new }
{
    if are_alike(file, node, d, j) {
        put_numbered(out, b",", j as u64);
    }
}
