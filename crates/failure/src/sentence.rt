// Why a run is none of a plan, in words.
ghost use Rattle.std.specs.Prelude.{◌≤◌, length, drop};
ghost use Rattle.facts.specs.Partial.{holds, standing_at, partial_at};
ghost use Rattle.text.specs.Writer.{Appends};
ghost use Rattle.failure.specs.Failure.{unlike_text, failed_text, failures_text, stop_text, goal_text, halt_text};
ghost use Rattle.failure.specs.InPlace.{stop_answer};

use crate::Stop;
use facts::number::read_map;
use text::append::Writer;
use words::parts::put_numbered;

// Why a run came to its end there, in this state; the goal is at an offset. Nothing where it holds at the end.
pub fn put_stop(
    out: &mut Writer,
    label: &[u8],
    file: &[u8],
    goal: usize,
    stop: Option<Stop>,
    state: &[u8],
)
    ensures { Appends (halt_text label.now (partial_at file.now goal) (stop_answer file.now stop state.now)) out.old out.new }
{
    match stop {
        Some(stop) => put_entry(out, label, file, stop, state),
        None => put_goal(out, file, goal, state),
    }
}

// The entry that stops the run, and what fails of its precondition.
fn put_entry(out: &mut Writer, label: &[u8], file: &[u8], stop: Stop, state: &[u8])
    ensures { Appends (stop_text label.now stop.entry stop.number (failures_text (partial_at file.now stop.place) state.now)) out.old out.new }
{
    put_numbered(out, b"Entry ", stop.entry as u64);
    out.append(b" is ");
    put_numbered(out, label, stop.number as u64);
    out.append(b", whose precondition fails:\n");
    put_failures(out, file, stop.place, state);
}

// What fails of the goal, if it does not hold.
fn put_goal(out: &mut Writer, file: &[u8], goal: usize, state: &[u8])
    ensures { Appends (goal_text (holds (partial_at file.now goal) state.now) (failures_text (partial_at file.now goal) state.now)) out.old out.new }
{
    if partial::holds_at(file, goal, state) {
        return;
    }
    out.append(b"The goal fails:\n");
    put_failures(out, file, goal, state);
}

// The facts of the partial state at an offset that fail in a state, a line each.
pub fn put_failures(out: &mut Writer, file: &[u8], place: usize, state: &[u8])
    ensures { Appends (failures_text (partial_at file.now place) state.now) out.old out.new }
{
    if let Ok(map) = read_map(file, place) {
        put_failed(out, file, place + 8, map, state);
    }
}

// The same for a map whose values begin at an offset, one variable after the other.
fn put_failed(out: &mut Writer, file: &[u8], place: usize, map: u64, state: &[u8])
    requires { place ≤ length file.now }
    ensures { Appends (failures_text (standing_at file.now map place) state.now) out.old out.new }
{
    let mut rest = map;
    let mut value = place;
    for (v, found) in state.iter().enumerate() {
        let bit = rest % 2;
        put_fact(out, file, value, v, bit, *found);
        value += bit as usize;
        rest /= 2;
    }
}

// The fact of a variable, where its bit stands, there is a value for it and the variable has another.
fn put_fact(out: &mut Writer, file: &[u8], value: usize, v: usize, bit: u64, found: u8)
    ensures { Appends (failed_text found v bit (drop value file.now)) out.old out.new }
{
    if bit == 0 || file.len() <= value {
        return;
    }
    put_unlike(out, v, file[value], found);
}

// The fact v = d, where variable v has another value.
fn put_unlike(out: &mut Writer, v: usize, d: u8, found: u8)
    ensures { Appends (unlike_text v d found) out.old out.new }
{
    if d == found {
        return;
    }
    put_numbered(out, b"  ", v as u64);
    put_numbered(out, b"=", d as u64);
    put_numbered(out, b", but variable ", v as u64);
    put_numbered(out, b" is ", found as u64);
    out.append_byte(b'\n');
}
