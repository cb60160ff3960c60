// What the tool writes: answers to standard output, sums of lists and what is wrong to standard error, and a digit for the exit status to descriptor 3, or a letter where nobody reads what it writes. Any other write that fails is told, and the status is 2.

use crate::asking::Asked;
use crate::input::{PATH_MAX, argument, name_of};
use arguments::Wrong;
use estimate::Est;
use facts::Refusal;
use report::{Fault, Subject};
use std::fmt::InlineText;
use std::fs::OpenOptions;
use std::io::{ErrorKind, Write};
use std::os::unix::fs::MetadataExt;
use std::{fs, io};
use taskfile::Walked;
use text::append::Writer;

// Where a text goes: to standard output, or to standard error.
#[derive(Clone, Copy, Debug, PartialEq, Eq)]
pub enum Stream {
    Output,
    Errors,
}

// Where the exit status goes, for the script that starts the tool: what it has open as descriptor 3.
const STATUS: &str = "/proc/self/fd/3";

// The bit of that link's mode that says whether the descriptor is open for writing.
const WRITES: u32 = 0o200;

// The most bytes of a line.
const LINE: usize = 512;

// The same with a name, and with two words of the command line.
const NAMED_LINE: usize = PATH_MAX + LINE;

const WORDS_LINE: usize = PATH_MAX + NAMED_LINE;

// The most bytes of a list as text: five digits and a blank for each entry.
const LIST_TEXT: usize = 65536;

// More bytes than the system's words for an error have.
const REASON: usize = 300;

// Writes a text. Where nobody reads it, the status says so, and what it says first counts.
fn write(rt: HostRuntime, to: Stream, text: &[u8]) -> io::Result<()> {
    let written = match to {
        Stream::Output => Print::write_all(&rt.stdout(), text),
        Stream::Errors => Print::write_all(&rt.stderr(), text),
    };
    if let Err(why) = written {
        if is_unread(why) {
            status(rt, b"p");
        }
    }
    written
}

// Whether a write failed as nobody reads any more.
fn is_unread(why: io::Error) -> bool {
    why.kind() == ErrorKind::BrokenPipe
}

// The same to standard error, where nothing else can be said if that fails.
fn complain_of(rt: HostRuntime, text: &[u8]) {
    let _ = write(rt, Stream::Errors, text);
}

// The digit of the exit status, if the descriptor is open for writing: else nobody asks for one.
fn status(rt: HostRuntime, digit: &[u8]) {
    if let Ok(link) = fs::symlink_metadata(&rt, STATUS) {
        if link.mode() & WRITES != 0 {
            if let Ok(mut to) = OpenOptions::new().append(true).open(&rt, STATUS) {
                let _ = to.write_all(digit);
            }
        }
    }
}

// The system's words for an error, without its number, after the name of what it is about; nothing where nobody reads any more.
pub fn fail(rt: HostRuntime, name: &[u8], why: io::Error) {
    if is_unread(why) {
        return;
    }
    let said = InlineText::<REASON>::of(why);
    let reason = said.as_str();
    let words = match reason.split_once(" (os error ") {
        Some((words, _)) => words,
        None => reason,
    };
    let mut space = [0; NAMED_LINE];
    let mut line = Writer::new(&mut space);
    line.append(name);
    line.append(b": ");
    line.append(words.as_bytes());
    line.append_byte(b'\n');
    complain_of(rt, line.written());
}

// A text is the answer.
pub fn reply(rt: HostRuntime, text: &[u8]) {
    let written = write(rt, Stream::Output, text);
    end(rt, written, b"0");
}

// The status, if all was written; if not, that is said.
fn end(rt: HostRuntime, written: io::Result<()>, digit: &[u8]) {
    match written {
        Ok(()) => status(rt, digit),
        Err(why) => {
            fail(rt, b"standard output", why);
            failed(rt);
        }
    }
}

// All went well.
pub fn done(rt: HostRuntime) {
    status(rt, b"0");
}

// Something was not had, and why is said already.
pub fn failed(rt: HostRuntime) {
    status(rt, b"2");
}

// What is wrong with the text or argument of a name.
pub fn fault(rt: HostRuntime, name: &[u8], why: Fault) {
    let mut space = [0; NAMED_LINE];
    let mut line = Writer::new(&mut space);
    report::put_fault(&mut line, name, why);
    complain_of(rt, line.written());
}

// What is wrong with the command line, with argument i, if that is it.
pub fn complain(rt: HostRuntime, i: usize, why: Wrong) {
    let mut command = [0; PATH_MAX];
    let n = argument(rt, 1, &mut command);
    let mut word = [0; PATH_MAX];
    let m = argument(rt, i, &mut word);
    let mut space = [0; WORDS_LINE];
    let mut line = Writer::new(&mut space);
    arguments::put_wrong(&mut line, &command[..n], &word[..m], why);
    complain_of(rt, line.written());
}

// The file was refused as one kind, and is accepted as the other: a probe file, or a task file.
pub fn hint(rt: HostRuntime, i: usize, either: bool, probe: bool) {
    let mut name = [0; PATH_MAX];
    let n = name_of(rt, i, &mut name);
    let mut space = [0; NAMED_LINE];
    let mut line = Writer::new(&mut space);
    arguments::put_hint(&mut line, &name[..n], either, probe);
    complain_of(rt, line.written());
}

// A refusal, and if it is asked for a sentence that explains it.
pub fn refuse(rt: HostRuntime, asked: Asked, subject: Subject, why: Refusal) {
    let to = asked.stream;
    let mut space = [0; LINE];
    let mut line = Writer::new(&mut space);
    report::put_refusal(&mut line, why);
    let mut written = write(rt, to, line.written());
    if asked.explain {
        let mut space = [0; LINE];
        let mut sentence = Writer::new(&mut space);
        explain::put_explanation(&mut sentence, subject, why);
        written = write(rt, to, sentence.written()).and(written);
    }
    end(rt, written, b"1");
}

// More about a refusal, where that went.
pub fn add(rt: HostRuntime, asked: Asked, text: &[u8]) {
    if let Err(why) = write(rt, asked.stream, text) {
        fail(rt, b"standard output", why);
    }
}

// A number after its name.
pub fn count(rt: HostRuntime, name: &[u8], n: u32) {
    let mut space = [0; LINE];
    let mut line = Writer::new(&mut space);
    report::put_count(&mut line, name, n);
    reply(rt, line.written());
}

// What an action costs, and how many nodes it passes.
pub fn costed(rt: HostRuntime, walked: Walked) {
    let mut space = [0; LINE];
    let mut lines = Writer::new(&mut space);
    report::put_count(&mut lines, b"cost", walked.cost);
    report::put_around(&mut lines, b"nodes ", walked.passed, b"\n");
    reply(rt, lines.written());
}

// What an action costs at most, and the state that is given for it.
pub fn dearest(rt: HostRuntime, cost: u32, state: &[u8]) {
    let mut space = [0; LINE];
    let mut lines = Writer::new(&mut space);
    report::put_dearest(&mut lines, cost, state);
    reply(rt, lines.written());
}

// The sum of a plan, how many nodes its actions pass, and how many steps its probe list has.
pub fn ran(rt: HostRuntime, walked: Walked, steps: usize) {
    let mut space = [0; LINE];
    let mut lines = Writer::new(&mut space);
    report::put_count(&mut lines, b"sum", walked.cost);
    report::put_around(&mut lines, b"nodes ", walked.passed, b"\n");
    report::put_around(&mut lines, b"steps ", steps, b"\n");
    reply(rt, lines.written());
}

// An estimate.
pub fn estimated(rt: HostRuntime, e: Est) {
    let mut space = [0; LINE];
    let mut line = Writer::new(&mut space);
    report::put_estimate(&mut line, e);
    reply(rt, line.written());
}

// A list and its sum.
pub fn listed(rt: HostRuntime, list: &[u16], sum: u32) {
    let mut space = [0; LIST_TEXT];
    let mut text = Writer::new(&mut space);
    text.append_list(list);
    let mut space = [0; LINE];
    let mut line = Writer::new(&mut space);
    report::put_count(&mut line, b"sum", sum);
    let mut written = write(rt, Stream::Output, text.written());
    if written.is_ok() {
        written = write(rt, Stream::Errors, line.written());
    }
    end(rt, written, b"0");
}
