// Answers on standard output, a line each, in the words of `report`. A write that fails is not told.
#![tactic(auto)]

use estimate::Est;
use facts::Refusal;
use report::{put_around, put_count, put_estimate, put_refusal};
use text::append::Writer;

// More bytes than any of these lines has.
const LINE: usize = 64;

// Writes a line.
fn show<F: FnOnce(&mut Writer)>(rt: &impl Print, put: F)
    requires { F.IsAlwaysCallable put }
{
    let mut space = [0; LINE];
    let mut line = Writer::new(&mut space);
    put(&mut line);
    let _ = rt.write_all(line.written());
}

// A refusal, as `refused 2 at 40`: number and place.
pub fn refusal(rt: &impl Print, why: Refusal) {
    show(rt, |line| put_refusal(line, why));
}

// A number after its name.
pub fn count(rt: &impl Print, name: &[u8], value: u32) {
    show(rt, |line| put_count(line, name, value));
}

// How many nodes are passed.
pub fn nodes(rt: &impl Print, passed: usize) {
    show(rt, |line| put_around(line, b"nodes ", passed, b"\n"));
}

// Whether a file is accepted.
pub fn checked(rt: &impl Print, answer: Result<(), Refusal>) {
    match answer {
        Ok(()) => show(rt, |line| line.append(b"accepted\n")),
        Err(why) => refusal(rt, why),
    }
}

// The sum of a run.
pub fn ran(rt: &impl Print, answer: Result<u32, Refusal>) {
    match answer {
        Ok(sum) => count(rt, b"sum", sum),
        Err(why) => refusal(rt, why),
    }
}

// An estimate.
pub fn estimated(rt: &impl Print, answer: Result<Est, Refusal>) {
    match answer {
        Ok(number) => show(rt, |line| put_estimate(line, number)),
        Err(why) => refusal(rt, why),
    }
}
