// A file that is written: beside its name first, and renamed when it is whole.
ghost use Rattle.text.specs.Append.{Counts};

use console::input::{PATH_MAX, argument, is_input, path_of};
use console::output::{done, fail, failed, reply};
use std::fs::{File, OpenOptions};
use std::io::{Error, ErrorKind, Write};
use std::{fs, io, process};
use text::append::Writer;

// The names that are tried for a new file end in a number of six digits, from LEAST on.
const LEAST: u32 = 100000;

const NAMES: u32 = 900000;

// The number of the system's error for a name that is taken.
const EEXIST: i32 = 17;

// Bytes into the file that argument i names; to standard output for `-`, and where there is no such argument.
pub fn save(rt: HostRuntime, i: usize, bytes: &[u8]) {
    if is_input(rt, i) {
        return reply(rt, bytes);
    }
    let mut space = [0; PATH_MAX];
    let length = argument(rt, i, &mut space);
    let name = &space[..length];
    match replace(rt, name, bytes) {
        Ok(()) => done(rt),
        Err(why) => {
            fail(rt, name, why);
            failed(rt);
        }
    }
}

// Bytes into the file of a name, by way of a new file beside it: the first of many names that nobody has, from one of this process's on.
fn replace(rt: HostRuntime, name: &[u8], bytes: &[u8]) -> io::Result<()> {
    let path = path_of(name)?;
    test_writable(rt, path)?;
    let own = process::id(rt.process()) % NAMES;
    for i in 0..NAMES {
        let number = LEAST + (own + i) % NAMES;
        let mut space = [0; PATH_MAX];
        let mut beside = Writer::new(&mut space);
        beside.append(&name[..folder(name)]);
        beside.append(b".jafrelin.");
        beside.append_number(number as u64);
        let new = path_of(beside.written())?;
        match create(rt, new) {
            Ok(file) => return finish(rt, file, new, path, bytes),
            Err(why) if why.kind() == ErrorKind::AlreadyExists => {}
            Err(why) => return Err(why),
        }
    }
    Err(Error::from_raw_os_error(EEXIST))
}

// An error, unless a name is free, or that of a file that may be written.
fn test_writable(rt: HostRuntime, path: &str) -> io::Result<()> {
    match OpenOptions::new().read(true).write(true).open(&rt, path) {
        Ok(_) => Ok(()),
        Err(why) if why.kind() == ErrorKind::NotFound => Ok(()),
        Err(why) => Err(why),
    }
}

// How many bytes of a name stand before its last part.
fn folder(name: &[u8]) -> usize
    ensures { Counts result name.now }
{
    match name.iter().rposition(|byte| *byte == b'/') {
        Some(last) => last + 1,
        None => 0,
    }
}

// Makes a file of a name that nobody has, with the mode that any new file gets.
fn create(rt: HostRuntime, path: &str) -> io::Result<File> {
    OpenOptions::new()
        .write(true)
        .create_new(true)
        .open(&rt, path)
}

// Writes bytes to a new file and gives it its name; if that fails the new file is removed.
fn finish(rt: HostRuntime, file: File, new: &str, path: &str, bytes: &[u8]) -> io::Result<()> {
    let mut named = put(file, bytes);
    if named.is_ok() {
        named = fs::rename(&rt, new, path);
    }
    if named.is_err() {
        let _ = fs::remove_file(&rt, new);
    }
    named
}

// Writes bytes to a new file and closes it, once the system has taken all of them: an error that only closing would tell is told by then.
fn put(mut file: File, bytes: &[u8]) -> io::Result<()> {
    file.write_all(bytes)?;
    file.sync_data()
}
