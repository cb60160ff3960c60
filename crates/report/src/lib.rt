// Answers in words: refusals, with a sentence that explains them, sums, costs and estimates, and what is wrong with a text.
#![tactic(auto)]

ghost use Rattle.std.specs.Prelude.{◌++◌};
ghost use Rattle.text.specs.Text.{decimal};
ghost use Rattle.text.specs.Writer.{Appends};
ghost use Rattle.report.specs.Report.{refusal_text, count_text, values_text, dearest_text, estimate_text, place_text, why_text, fault_text};

use estimate::Est;
use facts::Refusal;
use text::Place;
use text::append::Writer;

// What an operation looked at when it refused.
#[derive(Clone, Copy, Debug, PartialEq, Eq)]
pub enum Subject {
    File,
    // a state, or the action that it was given with
    State,
    // the sets of a relaxed state, or the action that they were given with
    Sets,
    // a list of actions or steps
    List,
    // a probe list to be contracted
    Contracted,
}

// What is wrong with a text of numbers, or with an argument that has to be one.
#[derive(Clone, Copy, Debug, PartialEq, Eq)]
pub enum Fault {
    // an entry that is no number, by its place
    Stray(Place),
    // one above the bound
    Large(Place, u32),
    // more bytes than a text may have
    Long(usize),
    // an argument that is not one number
    NotOne,
    // one above the bound
    Above(u32),
}

// Text, a number, and text.
pub fn put_around(out: &mut Writer, before: &[u8], n: usize, after: &[u8])
    ensures { Appends (before.now ++ (decimal n ++ after.now)) out.old out.new }
{
    out.append(before);
    out.append_number(n as u64);
    out.append(after);
}

// A refusal as `refused 2 at 40`, number and place, and a newline.
pub fn put_refusal(out: &mut Writer, why: Refusal)
    ensures { Appends (refusal_text why) out.old out.new }
{
    put_around(out, b"refused ", why.number() as usize, b" at ");
    put_around(out, b"", why.place(), b"\n");
}

// A number after its name, and a newline.
pub fn put_count(out: &mut Writer, name: &[u8], n: u32)
    ensures { Appends (count_text name.now n) out.old out.new }
{
    out.append(name);
    put_around(out, b" ", n as usize, b"\n");
}

// What an action costs at most, and the state that is given for it, each with a newline.
pub fn put_dearest(out: &mut Writer, cost: u32, state: &[u8])
    ensures { Appends (dearest_text cost state.now) out.old out.new }
{
    put_count(out, b"cost", cost);
    out.append(b"state");
    put_values(out, state);
    out.append(b"\n");
}

// The values of a state, each after a space.
fn put_values(out: &mut Writer, state: &[u8])
    ensures { Appends (values_text state.now) out.old out.new }
{
    for value in state {
        put_around(out, b" ", *value as usize, b"");
    }
}

// An estimate, and a newline.
pub fn put_estimate(out: &mut Writer, e: Est)
    ensures { Appends (estimate_text e) out.old out.new }
{
    match e {
        Est::Never => out.append(b"estimate never\n"),
        Est::Over => out.append(b"estimate over\n"),
        Est::Exact(n) => put_around(out, b"estimate ", n as usize, b"\n"),
    }
}

// What is wrong with the text or argument of a name, and a newline.
pub fn put_fault(out: &mut Writer, name: &[u8], why: Fault)
    ensures { Appends (fault_text name.now why) out.old out.new }
{
    out.append(name);
    put_why(out, why);
}

// The same after its name.
fn put_why(out: &mut Writer, why: Fault)
    ensures { Appends (why_text why) out.old out.new }
{
    match why {
        Fault::Stray(at) => {
            put_place(out, at);
            out.append(b"no number\n");
        }
        Fault::Large(at, most) => {
            put_place(out, at);
            put_around(out, b"above ", most as usize, b"\n");
        }
        Fault::Long(most) => put_around(out, b": the text has more than ", most, b" bytes\n"),
        Fault::NotOne => out.append(b" is not one number\n"),
        Fault::Above(most) => put_around(out, b" is above ", most as usize, b"\n"),
    }
}

// The line and the entry, up to what is wrong with it.
fn put_place(out: &mut Writer, at: Place)
    ensures { Appends (place_text at) out.old out.new }
{
    put_around(out, b":", at.line, b": entry ");
    put_around(out, b"", at.entry, b", counted from 0, is ");
}
