// An entry of a list: a step by name that applies in a state, or does not.
ghost use Rattle.std.specs.Prelude.{◌+◌, ◌*◌, ◌≤◌, ◌++◌, length, IfSome};
ghost use Rattle.facts.specs.Partial.{partial_at};
ghost use Rattle.probefile.specs.Probe.{max_list};
ghost use Rattle.text.specs.Writer.{Appends};
ghost use Rattle.words.specs.Words.{partial_text};
ghost use Rattle.steps.specs.Seek.{name_of};
ghost use Rattle.trace.specs.Trace.{values_text, state_text, step_text, went_text, stuck_text};
ghost use Rattle.trace.specs.InPlace.{Entered};

use failure::sentence::put_failures;
use partial::{apply_at, held_at};
use steps::find::Name;
use steps::names::put_step_name;
use text::append::Writer;
use words::parts::{put_numbered, put_partial};

// Step number k, at an offset of the probe file, in a state, with the sum before it: the sum up to it where it applies, and the state then has its effect.
pub fn put_entry(
    out: &mut Writer,
    probe: &[u8],
    place: usize,
    k: u16,
    name: Name,
    cost: u32,
    sum: u64,
    states: bool,
    state: &mut [u8],
) -> Option<u64>
    requires { sum ≤ 4294967295 * max_list }
    ensures most { IfSome result (λ total. total ≤ sum + 4294967295) }
    ensures entered { Entered states k (record { name = name_of name; cost = cost }) probe.now place sum state.old out.old out.new result state.new }
{
    let paid = sum + cost as u64;
    put_step(out, k, name);
    let Some(effect) = held_at(probe, place, state) else {
        put_stuck(out, probe, place, state);
        return None;
    };
    apply_at(probe, effect, state);
    put_went(out, probe, place, effect, cost, paid, states, state);
    Some(paid)
}

// Step number k by name.
fn put_step(out: &mut Writer, k: u16, name: Name)
    ensures { Appends (step_text k (name_of name)) out.old out.new }
{
    out.append_number(k as u64);
    out.append_byte(b' ');
    put_step_name(out, name);
}

// What is said of a step that applied, with its precondition and effect at these offsets: its cost, the sum up to it, and the state after it.
fn put_went(
    out: &mut Writer,
    probe: &[u8],
    place: usize,
    effect: usize,
    cost: u32,
    sum: u64,
    states: bool,
    state: &[u8],
)
    ensures { Appends (went_text states cost (partial_at probe.now place) (partial_at probe.now effect) sum state.now) out.old out.new }
{
    put_numbered(out, b": cost ", cost as u64);
    put_numbered(out, b", sum ", sum);
    put_part(out, b"\n  needs:", probe, place, state);
    put_part(out, b"\n  sets:", probe, effect, state);
    out.append_byte(b'\n');
    put_state(out, states, b"  state:", state);
}

// What is said of a step that did not: each fact that fails.
fn put_stuck(out: &mut Writer, probe: &[u8], place: usize, state: &[u8])
    ensures { Appends (stuck_text (partial_at probe.now place) state.now) out.old out.new }
{
    out.append(b": does not apply");
    put_part(out, b"\n  needs:", probe, place, state);
    out.append_byte(b'\n');
    put_failures(out, probe, place, state);
}

// A label, and the partial state at an offset, with as many variables as the state.
fn put_part(out: &mut Writer, label: &[u8], probe: &[u8], place: usize, state: &[u8])
    ensures { Appends (label.now ++ partial_text (length state.now) (partial_at probe.now place)) out.old out.new }
{
    out.append(label);
    put_partial(out, probe, place, state);
}

// A label and a state on a line, if states are asked for.
pub fn put_state(out: &mut Writer, states: bool, label: &[u8], state: &[u8])
    ensures { Appends (state_text states label.now state.now) out.old out.new }
{
    if states {
        out.append(label);
        put_values(out, state);
        out.append_byte(b'\n');
    }
}

// The values of a state, a blank before each.
fn put_values(out: &mut Writer, state: &[u8])
    ensures { Appends (values_text state.now) out.old out.new }
{
    for value in state {
        put_numbered(out, b" ", *value as u64);
    }
}
