// What is asked for: the command, its options, which stand before `--`, and its arguments behind that.
ghost use Rattle.std.specs.Prelude.{◌≤◌, IfOk};

use crate::command::{Command, first_word, refusal_stream, shape_of, takes_either, text_of};
use crate::input::{PATH_MAX, argument, argument_count, is_input, is_long, is_probe_name, is_word};
use crate::output::{Stream, complain};
use arguments::table::number_in;
use arguments::{Wrong, fit_of, name_at};

// The command, the number of its first argument, whether refusals are explained and states shown, whether the file is a probe file, and where a refusal goes.
#[derive(Clone, Copy)]
pub struct Asked {
    pub command: Command,
    pub first: u8,
    pub explain: bool,
    pub states: bool,
    pub probe: bool,
    pub stream: Stream,
}

// What an option asks for.
#[derive(Drop)]
enum Choice {
    Explain,
    States,
    Dot,
    Kind(bool),
    End,
}

// The options that are given, where they end, and of the kinds of files which the command is told to take: probe files, or task files.
#[derive(Drop)]
struct Options {
    end: u8,
    explain: bool,
    states: bool,
    dot: bool,
    probe: Option<bool>,
}

// The most words before the first argument; there are fewer kinds of options.
const WORDS: u8 = 99;

// What argument i asks for as an option: every command takes `--explain`, and some take others.
fn choice_of(rt: HostRuntime, i: u8) -> Option<Choice> {
    let mut word = [0; PATH_MAX];
    let n = argument(rt, i as usize, &mut word);
    let options: &[u8] = b"-- --explain --state --dot --kind=task --kind=probe ";
    match number_in(options, &word[..n]) {
        0 => Some(Choice::End),
        1 => Some(Choice::Explain),
        2 => taken(is_word(rt, 1, b"steps"), Choice::States),
        3 => taken(is_word(rt, 1, b"show"), Choice::Dot),
        4 => taken(takes_either(first_word(rt, false)), Choice::Kind(false)),
        5 => taken(takes_either(first_word(rt, false)), Choice::Kind(true)),
        _ => None,
    }
}

// What an option asks for, if the command takes it.
fn taken(takes: bool, choice: Choice) -> Option<Choice> {
    if takes { Some(choice) } else { None }
}

// The options that are given, up to `--`; or the number of the first word that is no option of the command.
fn read_options(rt: HostRuntime) -> Result<Options, u8>
    ensures { IfOk result (λ given. given.end ≤ 99) }
{
    let mut given = Options {
        end: WORDS,
        explain: false,
        states: false,
        dot: false,
        probe: None,
    };
    for i in 2..WORDS {
        match choice_of(rt, i) {
            Some(Choice::End) => {
                given.end = i;
                break;
            }
            Some(Choice::Explain) => given.explain = true,
            Some(Choice::States) => given.states = true,
            Some(Choice::Dot) => given.dot = true,
            Some(Choice::Kind(probe)) => given.probe = Some(probe),
            None => return Err(i),
        }
    }
    Ok(given)
}

// What is asked for; or nothing, and what is wrong was said. A file is of the kind that an option says, or else of the one that its command takes or its name says.
pub fn read(rt: HostRuntime) -> Option<Asked> {
    let given = match read_options(rt) {
        Ok(given) => given,
        Err(i) => {
            complain(rt, i as usize, Wrong::Option);
            return None;
        }
    };
    let command = first_word(rt, given.dot);
    let behind = given.end;
    if let Err(why) = fit(rt, command, behind) {
        let word = match why {
            Wrong::Many => last_word(rt),
            _ => 0,
        };
        complain(rt, word, why);
        return None;
    }
    Some(Asked {
        command,
        first: behind + 1,
        explain: given.explain,
        states: given.states,
        probe: match given.probe {
            Some(probe) => probe,
            None => is_probe(rt, command, behind),
        },
        stream: refusal_stream(rt, command, behind),
    })
}

// How many arguments there are behind number `behind`.
fn count_behind(rt: HostRuntime, behind: u8) -> usize {
    argument_count(rt).saturating_sub(behind as usize + 1)
}

// Whether there are as many arguments as a command takes, none too long, and no two of them standard input; if not, what is wrong.
fn fit(rt: HostRuntime, command: Command, behind: u8) -> Result<(), Wrong> {
    let count = count_behind(rt, behind);
    let shape = shape_of(command, count);
    fit_of(shape, count)?;
    if let Some(long) = long_word(rt, behind) {
        return Err(Wrong::Long(name_at(shape, long)));
    }
    if reads_twice(rt, command, behind) {
        return Err(Wrong::Twice(shape.first, shape.third));
    }
    Ok(())
}

// Which of the three arguments behind number `behind` is longer than a name can be, from 0 on, if one is.
fn long_word(rt: HostRuntime, behind: u8) -> Option<usize> {
    for k in 0..3 {
        if is_long(rt, behind as usize + 1 + k) {
            return Some(k);
        }
    }
    None
}

// The number of the last argument.
fn last_word(rt: HostRuntime) -> usize {
    argument_count(rt).saturating_sub(1)
}

// Whether file and text of a command are both standard input.
fn reads_twice(rt: HostRuntime, command: Command, behind: u8) -> bool {
    let first = behind as usize + 1;
    match text_of(command) {
        None => false,
        Some(k) => is_input(rt, first) && is_input(rt, first + k as usize),
    }
}

// Whether a command is about a probe file: `follow` always, those that take either kind by the file's name.
fn is_probe(rt: HostRuntime, command: Command, behind: u8) -> bool {
    match command {
        Command::Follow => true,
        _ => takes_either(command) && is_probe_name(rt, behind as usize + 1),
    }
}
