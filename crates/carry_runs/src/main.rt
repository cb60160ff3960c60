// Runs the known cases about plans carried across (document 01) with the code itself; what it writes is compared with the file stdout.
#![tactic(auto)]

ghost use Rattle.std.specs.Prelude.{◌≡◌, length};

use facts::Refusal;
use probefile::Probe;
use taskfile::Task;

// Task P.
const P: [u8; 40] =
    *b"\x01\x02\x00\x01\x00\x00\x00\x00\x00\x00\x00\x01\x01\x00\x00\x00\x00\x00\x00\x00\x00\x01\x00\x00\x00\x00\x00\x00\x00\x01\x03\x00\x01\x00\x02\x05\x00\x02\x00\x00";

// One action more than a source list may have; P's action comes to three entries, so so many are allowed.
const REPEATS: usize = Task::MAX_LIST + 1;

const ALLOWED: usize = 3 * Task::MAX_LIST;

fn main(rt: HostRuntime) {
    expansions(&rt);
    contractions(&rt);
    repeats(&rt);
}

// P's plans, and lists that are none; the last buffer is too short.
fn expansions(rt: &impl Print) {
    let once: [u16; 1] = [0];
    let twice: [u16; 2] = [0, 0];
    let none: [u16; 0] = [];
    let missing: [u16; 1] = [1];
    let long: [u16; REPEATS] = [0; REPEATS];
    show_expanded(rt, &once);
    show_expanded(rt, &twice);
    show_expanded(rt, &none);
    show_expanded(rt, &missing);
    show_expanded(rt, &long);
    let mut short: [u16; 2] = [9; 2];
    let answer = expand::expand(&P, &once, &mut short);
    show_carried(rt, answer, &short);
}

// Plans of P's probe file, and lists that are none; the last buffer is too short.
fn contractions(rt: &impl Print) {
    let once: [u16; 3] = [0, 1, 3];
    let twice: [u16; 6] = [0, 1, 3, 0, 2, 3];
    let unmet: [u16; 2] = [0, 1];
    let blocked: [u16; 3] = [0, 2, 3];
    let missing: [u16; 1] = [4];
    let long: [u16; Probe::MAX_LIST + 1] = [0; Probe::MAX_LIST + 1];
    show_contracted(rt, &once);
    show_contracted(rt, &twice);
    show_contracted(rt, &unmet);
    show_contracted(rt, &blocked);
    show_contracted(rt, &missing);
    show_contracted(rt, &long);
    let mut short: [u16; 0] = [];
    let answer = contract::contract(&P, &once, &mut short);
    show_carried(rt, answer, &short);
}

// P's action 256 times over, and 257 times.
fn repeats(rt: &impl Print) {
    let list = repeated();
    show_contracted(rt, &list[..ALLOWED]);
    show_contracted(rt, &list);
    let mut out: [u16; Task::MAX_LIST] = [9; Task::MAX_LIST];
    let answer = contract::contract(&P, &list[..ALLOWED], &mut out);
    show_carried(rt, answer, &out);
}

// P's action 257 times over: start, edge, end. The value that its node tests is 0 at first, then 1.
fn repeated() -> [u16; 3 * REPEATS]
    ensures { 771 ≡ length result }
{
    let mut list = [3; 3 * REPEATS];
    for i in 0..REPEATS {
        list[3 * i] = 0;
        list[3 * i + 1] = 2;
    }
    list[1] = 1;
    list
}

fn show_expanded(rt: &impl Print, list: &[u16]) {
    let mut out: [u16; 6] = [9; 6];
    let answer = expand::expand(&P, list, &mut out);
    show_carried(rt, answer, &out);
}

fn show_contracted(rt: &impl Print, list: &[u16]) {
    let mut out: [u16; 3] = [9; 3];
    let answer = contract::contract(&P, list, &mut out);
    show_carried(rt, answer, &out);
}

// The answer, and the first entries of the buffer afterwards.
fn show_carried(rt: &impl Print, answer: Result<(usize, u32), Refusal>, out: &[u16]) {
    match answer {
        Err(why) => show::refusal(rt, why),
        Ok((length, sum)) => {
            let _ = rt.print(length as u64);
            show::count(rt, b" entries, sum", sum);
        }
    }
    for entry in out.iter().take(6) {
        let _ = rt.write_all(b" ");
        let _ = rt.print(u64::from(*entry));
    }
    let _ = rt.write_all(b"\n");
}
