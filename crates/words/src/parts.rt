// What the words for tasks, probe files and steps have in common: a number after its label, variables, facts and partial states.
ghost use Rattle.std.specs.Prelude.{◌+◌, ◌≤◌, ◌++◌, length, drop, get_or};
ghost use Rattle.facts.specs.Partial.{standing_at, partial_at};
ghost use Rattle.text.specs.Text.{decimal};
ghost use Rattle.text.specs.Writer.{Appends};
ghost use Rattle.words.specs.Words.{bit_text, facts_text, partial_text};
ghost use Rattle.words.specs.Show.{variable_text, states_text};
ghost use Rattle.words.specs.Rows.{row_from, heading};

use facts::number::{byte_at, read_map};
use text::append::Writer;

// A label, and a number after it.
pub fn put_numbered(out: &mut Writer, label: &[u8], n: u64)
    ensures { Appends (label.now ++ decimal n) out.old out.new }
{
    out.append(label);
    out.append_number(n);
}

// The variables and the goal of an accepted file with so many variables.
pub fn put_heading(out: &mut Writer, file: &[u8], variables: usize)
    requires { 1 + variables + variables ≤ length file.now }
    ensures { Appends (heading file.now variables) out.old out.new }
{
    let init = 1 + variables;
    let goal = init + variables;
    let sizes = &file[1..init];
    put_variables(out, sizes, &file[init..goal]);
    out.append(b"goal:");
    put_partial(out, file, goal, sizes);
    out.append_byte(b'\n');
}

// A variable: how many values it has, and its initial one.
fn put_variable(out: &mut Writer, v: usize, size: u8, value: u8)
    ensures { Appends (variable_text v size value) out.old out.new }
{
    put_numbered(out, b"variable ", v as u64);
    put_numbered(out, b": ", size as u64);
    put_numbered(out, b" values, starts at ", value as u64);
    out.append_byte(b'\n');
}

// All variables, with these sizes and initial values.
pub fn put_variables(out: &mut Writer, sizes: &[u8], init: &[u8])
    ensures { Appends (row_from (λ v. variable_text v (get_or sizes.now v 0) (get_or init.now v 0)) 0 (length sizes.now)) out.old out.new }
{
    for (v, size) in sizes.iter().enumerate() {
        put_variable(out, v, *size, byte_at(init, v));
    }
}

// The partial state at an offset of a file, with these domain sizes.
pub fn put_partial(out: &mut Writer, file: &[u8], place: usize, sizes: &[u8])
    ensures { Appends (partial_text (length sizes.now) (partial_at file.now place)) out.old out.new }
{
    match read_map(file, place) {
        Ok(map) if map != 0 => put_facts(out, file, place + 8, map, sizes),
        _ => out.append(b" none"),
    }
}

// An action or a step by its label and number, with the precondition at one offset of the file and the effect at another.
pub fn put_states(
    out: &mut Writer,
    label: &[u8],
    file: &[u8],
    sizes: &[u8],
    place: usize,
    effect: usize,
    number: usize,
)
    ensures { Appends (states_text label.now (length sizes.now) number (partial_at file.now place) (partial_at file.now effect)) out.old out.new }
{
    put_numbered(out, label, number as u64);
    out.append(b"\n  precondition:");
    put_partial(out, file, place, sizes);
    out.append(b"\n  effect:");
    put_partial(out, file, effect, sizes);
}

// The facts of a map whose values begin at an offset, one variable after the other.
fn put_facts(out: &mut Writer, file: &[u8], place: usize, map: u64, sizes: &[u8])
    requires { place ≤ length file.now }
    ensures { Appends (facts_text (length sizes.now) 0 (standing_at file.now map place)) out.old out.new }
{
    let mut rest = map;
    let mut value = place;
    for v in 0..sizes.len() {
        let bit = rest % 2;
        put_fact(out, file, value, v, bit);
        value += bit as usize;
        rest /= 2;
    }
}

// The fact of a variable after a space, where its bit stands and there is a value for it.
fn put_fact(out: &mut Writer, file: &[u8], value: usize, v: usize, bit: u64)
    ensures { Appends (bit_text v bit (drop value file.now)) out.old out.new }
{
    if bit == 0 || file.len() <= value {
        return;
    }
    put_numbered(out, b" ", v as u64);
    put_numbered(out, b"=", file[value] as u64);
}
