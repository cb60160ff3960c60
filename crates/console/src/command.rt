// The commands by their words, the arguments that each takes, and where its refusals go.
use crate::input::{PATH_MAX, argument, is_word};
use crate::output::Stream;
use arguments::table::number_in;
use arguments::{Name, Shape};

#[derive(Clone, Copy, Debug, PartialEq, Eq)]
pub enum Command {
    Check,
    Compile,
    Cost,
    Relaxed,
    Run,
    Follow,
    Expand,
    Contract,
    Estimate,
    Show,
    Draw,
    Steps,
    Charge,
    Sheet,
    Dearest,
    Unknown,
}

// The command that the first argument is; `show --dot` draws.
pub fn first_word(rt: HostRuntime, dot: bool) -> Command {
    let mut word = [0; PATH_MAX];
    let n = argument(rt, 1, &mut word);
    let commands: &[u8] =
        b"check compile cost relaxed run follow expand contract estimate show steps charge sheet dearest ";
    match number_in(commands, &word[..n]) {
        0 => Command::Check,
        1 => Command::Compile,
        2 => Command::Cost,
        3 => Command::Relaxed,
        4 => Command::Run,
        5 => Command::Follow,
        6 => Command::Expand,
        7 => Command::Contract,
        8 => Command::Estimate,
        9 => shown(dot),
        10 => Command::Steps,
        11 => Command::Charge,
        12 => Command::Sheet,
        13 => Command::Dearest,
        _ => Command::Unknown,
    }
}

// What `show` is.
fn shown(dot: bool) -> Command {
    if dot {
        return Command::Draw;
    }
    Command::Show
}

// Arguments of these names, at least and at most so many.
fn shaped(first: Name, second: Name, third: Name, least: usize, most: usize) -> Shape {
    Shape {
        first,
        second,
        third,
        least,
        most,
    }
}

// The arguments that a command takes. A text that comes last may be left out, and is read from standard input; `compile` may leave out both its files.
pub fn shape_of(command: Command, count: usize) -> Shape {
    match command {
        Command::Check => shaped(Name::File, Name::File, Name::File, 1, 1),
        Command::Compile => {
            let least = if count == 0 { 0 } else { 2 };
            shaped(Name::Task, Name::Probe, Name::Probe, least, 2)
        }
        Command::Cost => shaped(Name::Task, Name::Action, Name::State, 2, 3),
        Command::Relaxed => shaped(Name::Task, Name::Action, Name::Sets, 2, 3),
        Command::Run => shaped(Name::Task, Name::Plan, Name::Plan, 1, 2),
        Command::Follow => shaped(Name::Probe, Name::List, Name::List, 1, 2),
        Command::Expand => shaped(Name::Task, Name::Plan, Name::Plan, 1, 2),
        Command::Contract => shaped(Name::Task, Name::List, Name::List, 1, 2),
        Command::Estimate => shaped(Name::File, Name::State, Name::State, 1, 2),
        Command::Show => shaped(Name::File, Name::File, Name::File, 1, 1),
        Command::Draw => shaped(Name::Task, Name::Action, Name::Action, 1, 2),
        Command::Steps => shaped(Name::Task, Name::List, Name::List, 1, 2),
        Command::Charge => shaped(Name::Sum, Name::Sum, Name::Sum, 1, 1),
        Command::Sheet => shaped(Name::Task, Name::Plan, Name::Plan, 1, 2),
        Command::Dearest => shaped(Name::Task, Name::Action, Name::Action, 2, 2),
        Command::Unknown => shaped(Name::File, Name::File, Name::File, 1, 0),
    }
}

// Which argument of a command is a text, from 0 on, if one is.
pub fn text_of(command: Command) -> Option<u8> {
    match command {
        Command::Cost | Command::Relaxed => Some(2),
        Command::Run
        | Command::Follow
        | Command::Expand
        | Command::Contract
        | Command::Estimate
        | Command::Steps
        | Command::Sheet => Some(1),
        _ => None,
    }
}

// Whether a command takes files of either kind.
pub fn takes_either(command: Command) -> bool {
    matches!(command, Command::Check | Command::Estimate | Command::Show)
}

// Where a refusal goes, with the arguments behind number `behind`: to standard error if standard output is there for data. With no names `compile` does as document 01's program.
pub fn refusal_stream(rt: HostRuntime, command: Command, behind: u8) -> Stream {
    match command {
        Command::Expand | Command::Contract | Command::Draw | Command::Sheet => Stream::Errors,
        Command::Compile => compiled_stream(rt, behind),
        _ => Stream::Output,
    }
}

// The same for `compile`, by the name that it writes to.
fn compiled_stream(rt: HostRuntime, behind: u8) -> Stream {
    if is_word(rt, behind as usize + 2, b"-") {
        return Stream::Errors;
    }
    Stream::Output
}
