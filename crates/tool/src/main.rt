// The bench tool: the operations on files that the arguments name, with texts of numbers in and out.
#![tactic(auto)]

mod commands;
mod describing;
mod failing;
mod saving;

use crate::commands::{Question, is_accepted, on_list, on_state};
use console::asking::Asked;
use console::command::{Command, takes_either};
use console::input::{read_file, read_number};
use console::output::{failed, hint};
use facts::Refusal;
use probefile::Probe;

// One byte more than the longest file has that is accepted, a probe file.
const FILE: usize = Probe::MAX_BYTES + 1;

fn main(rt: HostRuntime) {
    let Some(asked) = console::asking::read(rt) else {
        return failed(rt);
    };
    match asked.command {
        Command::Charge => commands::charge(rt, asked.first as usize),
        _ => with_file(rt, asked),
    }
}

// A command on a file, which its first argument names.
fn with_file(rt: HostRuntime, asked: Asked) {
    let mut file = [0; FILE];
    let Some(n) = read_file(rt, asked.first as usize, &mut file) else {
        return failed(rt);
    };
    on_file(rt, asked, &file[..n]);
}

// The same on the bytes of that file.
fn on_file(rt: HostRuntime, asked: Asked, file: &[u8]) {
    if asked.probe {
        if is_accepted(rt, probe::check(file), asked) {
            return on_probe(rt, asked, file);
        }
        // an empty file is a task's, and no word of that helps with an empty probe file
        if file.len() == 0 {
            return;
        }
        return other_kind(rt, asked, task::check(file));
    }
    if is_accepted(rt, task::check(file), asked) {
        return on_task(rt, asked, file);
    }
    other_kind(rt, asked, probe::check(file));
}

// A file that is refused is held against the other kind.
fn other_kind(rt: HostRuntime, asked: Asked, answer: Result<(), Refusal>) {
    if answer.is_ok() {
        hint(
            rt,
            asked.first as usize,
            takes_either(asked.command),
            !asked.probe,
        );
    }
}

// A command on an accepted probe file.
fn on_probe(rt: HostRuntime, asked: Asked, file: &[u8]) {
    let next = asked.first as usize + 1;
    match asked.command {
        Command::Check => commands::accepted(rt),
        Command::Estimate => on_state(rt, Question::ProbeEstimate, file, next, asked),
        Command::Show => describing::show_probe(rt, file, asked),
        _ => on_list(rt, asked, file, next),
    }
}

// A command on an accepted task file.
fn on_task(rt: HostRuntime, asked: Asked, file: &[u8]) {
    let next = asked.first as usize + 1;
    match asked.command {
        Command::Check => commands::accepted(rt),
        Command::Compile => commands::compile(rt, file, next, asked),
        Command::Cost | Command::Relaxed | Command::Dearest => with_action(rt, asked, file),
        Command::Estimate => on_state(rt, Question::TaskEstimate, file, next, asked),
        Command::Show => describing::show(rt, file, asked),
        Command::Draw => describing::draw(rt, file, next, asked),
        _ => on_list(rt, asked, file, next),
    }
}

// A command on an action, whose number is the second argument.
fn with_action(rt: HostRuntime, asked: Asked, file: &[u8]) {
    let Some(number) = read_number(rt, asked.first as usize + 1, b"ACTION") else {
        return failed(rt);
    };
    let action = number as usize;
    let next = asked.first as usize + 2;
    match asked.command {
        Command::Relaxed => on_state(rt, Question::Relaxed(action), file, next, asked),
        Command::Dearest => commands::dearest(rt, file, action, asked),
        _ => on_state(rt, Question::Cost(action), file, next, asked),
    }
}
