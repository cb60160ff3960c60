// Why a list is no plan, after its refusal: the entry that does not apply or the goal, with what fails. Nothing is written where the list is a plan, or is refused for something else.
use console::asking::Asked;
use console::output::add;
use facts::Refusal;
use taskfile::Task;
use text::append::within;

// More bytes than any such text has.
const FAILURE_TEXT: usize = 4096;

// A text that was written into a buffer, if it was.
fn told(rt: HostRuntime, asked: Asked, answer: Result<usize, Refusal>, text: &[u8]) {
    let n = within(answer.unwrap_or(0), text);
    add(rt, asked, &text[..n]);
}

// Of a list of actions, on a task.
pub fn on_task(rt: HostRuntime, asked: Asked, file: &[u8], list: &[u16]) {
    let mut text = [0; FAILURE_TEXT];
    let answer = failure::task_failure(file, list, &mut text);
    told(rt, asked, answer, &text);
}

// Of a list of steps, on a probe file.
pub fn on_probe(rt: HostRuntime, asked: Asked, file: &[u8], list: &[u16]) {
    let mut text = [0; FAILURE_TEXT];
    let answer = failure::probe_failure(file, list, &mut text);
    told(rt, asked, answer, &text);
}

// Of a list of steps, on the probe file written from a task.
pub fn on_compiled(rt: HostRuntime, asked: Asked, file: &[u8], list: &[u16]) {
    let mut out = [0; Task::MAX_WRITTEN];
    if let Ok(length) = compile::compile(file, &mut out) {
        let n = within(length, &out);
        on_probe(rt, asked, &out[..n], list);
    }
}
