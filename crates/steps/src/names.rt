// Steps by name, in words.
ghost use Rattle.text.specs.Writer.{Appends};
ghost use Rattle.steps.specs.Steps.{node, name_text};
ghost use Rattle.steps.specs.Seek.{name_of};

use crate::find::Name;
use text::append::Writer;
use words::parts::put_numbered;

// The name of a step in words.
pub fn put_step_name(out: &mut Writer, name: Name)
    ensures { Appends (name_text (name_of name)) out.old out.new }
{
    match name {
        Name::Start(a) => put_numbered(out, b"start of action ", a as u64),
        Name::Node(a, i, v, d) => put_node_name(out, a, i, v, d),
        Name::End(a) => put_numbered(out, b"end of action ", a as u64),
    }
}

// Node i of action a, passed with the value d of variable v.
fn put_node_name(out: &mut Writer, a: usize, i: usize, v: u8, d: u8)
    ensures { Appends (name_text (node a i v d)) out.old out.new }
{
    put_numbered(out, b"action ", a as u64);
    put_numbered(out, b", node ", i as u64);
    put_numbered(out, b" at variable ", v as u64);
    put_numbered(out, b" = ", d as u64);
}
