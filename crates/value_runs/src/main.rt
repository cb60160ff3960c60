// Runs `value_at` at every offset of the bytes on standard input: a line for each, with the values that a partial state there has, as ` 0=1 2=0`.
#![tactic(auto)]

use text::append::Writer;
use text::input::read_full;
use value::value_at;

// Two variables more than a map has bits.
const VARIABLES: usize = 66;

// More bytes than a line has: 64 values of 7 bytes at most.
const LINE: usize = 512;

// The most bytes that are read.
const INPUT: usize = 4096;

fn main(rt: HostRuntime) {
    let mut input = [0; INPUT];
    let length = read_full(&mut rt.stdin(), &mut input);
    show_all(&rt, &input[..length]);
}

// A line for each offset.
fn show_all(rt: &impl Print, file: &[u8]) {
    for at in 0..=file.len() {
        show_values(rt, file, at);
    }
}

// The line for an offset: the values of the partial state there.
fn show_values(rt: &impl Print, file: &[u8], at: usize) {
    let mut buffer = [0; LINE];
    let mut line = Writer::new(&mut buffer);
    for variable in 0..VARIABLES {
        if let Some(value) = value_at(file, at, variable) {
            append_value(&mut line, variable, value);
        }
    }
    line.append_byte(b'\n');
    let _ = rt.write_all(line.written());
}

// A variable and its value, after a space.
fn append_value(line: &mut Writer, variable: usize, value: u8) {
    line.append_byte(b' ');
    line.append_number(variable as u64);
    line.append_byte(b'=');
    line.append_number(value as u64);
}
