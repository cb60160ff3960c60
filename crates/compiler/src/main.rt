// The compiling program: a task file on standard input; its probe file, or the refusal, on standard output. A read that fails ends the input, and a write that fails is not told.
#![tactic(auto)]

use taskfile::Task;
use text::input::read_full;

// One byte more than the longest task file has: what follows cannot change the answer.
const INPUT: usize = Task::MAX_BYTES + 1;

fn main(rt: HostRuntime) {
    let mut input = [0; INPUT];
    let length = read_full(&mut rt.stdin(), &mut input);
    let mut output = [0; Task::MAX_WRITTEN];
    match compile::compile(&input[..length], &mut output) {
        Ok(written) => {
            let _ = rt.write_all(&output[..written]);
        }
        Err(why) => show::refusal(&rt, why),
    }
}
