// What the arguments name: files, texts of numbers, and numbers.
ghost use Rattle.std.specs.Prelude.{◌≤◌, length, IfOk, IfSome};
ghost use Rattle.text.specs.Append.{Counts};

use crate::output::{fail, fault};
use report::Fault;
use scan::place::place;
use scan::read::{Entry, number, numbers};
use std::env::FillError;
use std::fs::File;
use std::io;
use std::io::Read;
use std::rt::Env;
use std::str::from_utf8;
use text::append::Writer;
use text::{Flaw, Only};

// The most bytes of a name, with the zero that the system ends it by.
pub const PATH_MAX: usize = 4096;

// The number of the system's error for text that is not of its encoding: `std` opens names of UTF-8 alone.
const EILSEQ: i32 = 84;

// The most bytes of a text of numbers.
const TEXT: usize = 131072;

// Argument i, at the front of a buffer. One that there is not, or that is longer than the buffer, counts as empty.
pub fn argument(rt: HostRuntime, i: usize, buf: &mut [u8]) -> usize
    ensures { Counts result buf.new }
{
    rt.arg(i, buf).unwrap_or(0)
}

// How many arguments there are, the program's name among them.
pub fn argument_count(rt: HostRuntime) -> usize {
    for i in 0..usize::MAX {
        if !is_given(rt, i) {
            return i;
        }
    }
    usize::MAX
}

// Whether argument i is a word.
pub fn is_word(rt: HostRuntime, i: usize, word: &[u8]) -> bool {
    let mut name = [0; PATH_MAX];
    let length = argument(rt, i, &mut name);
    &name[..length] == word
}

// Whether there is an argument i.
pub fn is_given(rt: HostRuntime, i: usize) -> bool {
    let mut none = [0; 0];
    !matches!(rt.arg(i, &mut none), Err(FillError::NotPresent))
}

// Whether argument i is longer than a name can be.
pub fn is_long(rt: HostRuntime, i: usize) -> bool {
    let mut name = [0; PATH_MAX];
    matches!(rt.arg(i, &mut name), Err(FillError::TooLong))
}

// Whether argument i is standard input: `-`, or left out.
pub fn is_input(rt: HostRuntime, i: usize) -> bool {
    !is_given(rt, i) || is_word(rt, i, b"-")
}

// Whether the name in argument i ends in `.probe`.
pub fn is_probe_name(rt: HostRuntime, i: usize) -> bool {
    let mut name = [0; PATH_MAX];
    let length = argument(rt, i, &mut name);
    name[..length].ends_with(b".probe")
}

// The name of what argument i stands for, at the front of a buffer.
pub fn name_of(rt: HostRuntime, i: usize, name: &mut [u8]) -> usize
    ensures { Counts result name.new }
{
    let length = argument(rt, i, name);
    if is_input(rt, i) {
        let mut out = Writer::new(name);
        out.append(b"standard input");
        return out.written().len();
    }
    length
}

// A name as the path of a file.
pub fn path_of(name: &[u8]) -> io::Result<&str> {
    from_utf8(name).map_err(|_| io::Error::from_raw_os_error(EILSEQ))
}

// The bytes of the file that argument i names, as many as there is room for. What is wrong is said.
pub fn read_file(rt: HostRuntime, i: usize, buf: &mut [u8]) -> Option<usize>
    ensures { IfSome result (λ n. Counts n buf.new) }
{
    let mut space = [0; PATH_MAX];
    let length = name_of(rt, i, &mut space);
    let name = &space[..length];
    match read_from(rt, i, name, buf) {
        Ok(length) => Some(length),
        Err(why) => {
            fail(rt, name, why);
            None
        }
    }
}

// The same, where it has this name.
fn read_from(rt: HostRuntime, i: usize, name: &[u8], buf: &mut [u8]) -> io::Result<usize>
    ensures { IfOk result (λ n. Counts n buf.new) }
{
    if is_input(rt, i) {
        return fill(&mut rt.stdin(), buf);
    }
    fill(&mut File::open(&rt, path_of(name)?)?, buf)
}

// Fills a buffer from the front, as far as there is something to read; how many bytes that are. Past a full buffer a byte is read, which says whether reading goes on well.
// The loop is written out: the library's own would tell nothing of a read that fails past a full buffer.
fn fill<R: Read>(from: &mut R, buf: &mut [u8]) -> io::Result<usize>
    ensures { IfOk result (λ n. Counts n buf.new) }
{
    let mut done: usize = 0;
    while done < buf.len() {
        let n = from.read(&mut buf[done..])?;
        if n == 0 {
            return Ok(done);
        }
        done += n;
    }
    let mut more = [0; 1];
    from.read(&mut more)?;
    Ok(done)
}

// The text that argument i names.
fn read_text(rt: HostRuntime, i: usize, text: &mut [u8]) -> Option<usize>
    ensures { IfSome result (λ n. Counts n text.new) }
{
    let length = read_file(rt, i, text)?;
    if length == TEXT {
        wrong_text(rt, i, Fault::Long(TEXT - 1));
        return None;
    }
    Some(length)
}

// The numbers of the text that argument i names, each at most `most`, as many as there is room for. What is wrong is said.
fn read_numbers<T: Entry>(rt: HostRuntime, i: usize, most: T, list: &mut [T]) -> Option<usize>
    ensures { IfSome result (λ n. n ≤ length list.new) }
{
    let mut text = [0; TEXT];
    let n = read_text(rt, i, &mut text)?;
    let part = &text[..n];
    match numbers(part, most, list) {
        Ok(count) => Some(count.min(list.len())),
        Err(flaw) => {
            wrong_text(rt, i, fault_at(part, flaw, most.number()));
            None
        }
    }
}

// The numbers of a list.
pub fn read_list(rt: HostRuntime, i: usize, list: &mut [u16]) -> Option<usize>
    ensures { IfSome result (λ n. n ≤ length list.new) }
{
    read_numbers(rt, i, u16::MAX, list)
}

// Those of a state, or of sets of values.
pub fn read_state(rt: HostRuntime, i: usize, state: &mut [u8]) -> Option<usize>
    ensures { IfSome result (λ n. n ≤ length state.new) }
{
    read_numbers(rt, i, u8::MAX, state)
}

// What is wrong with a text of numbers that are at most `most`, by line and entry.
fn fault_at(text: &[u8], flaw: Flaw, most: u32) -> Fault {
    match flaw {
        Flaw::Stray(p) => Fault::Stray(place(text, p)),
        Flaw::Large(p) => Fault::Large(place(text, p), most),
    }
}

// The number that argument i is, of the name that it has in the help. What is wrong is said.
pub fn read_number(rt: HostRuntime, i: usize, name: &[u8]) -> Option<u32> {
    let mut word = [0; PATH_MAX];
    let length = argument(rt, i, &mut word);
    let why = match number(&word[..length], u32::MAX) {
        Ok(Only::One(n)) => return Some(n),
        Err(Flaw::Large(_)) => Fault::Above(u32::MAX),
        _ => Fault::NotOne,
    };
    fault(rt, name, why);
    None
}

// What is wrong with the text of argument i is said.
fn wrong_text(rt: HostRuntime, i: usize, why: Fault) {
    let mut name = [0; PATH_MAX];
    let length = name_of(rt, i, &mut name);
    fault(rt, &name[..length], why);
}
