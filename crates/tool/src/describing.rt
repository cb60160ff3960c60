// The commands that describe a task, a probe file, a plan or a probe list in text.
ghost use Rattle.std.specs.Prelude.{◌≡◌, length};

use console::asking::Asked;
use console::input::{is_given, read_number};
use console::output::{failed, refuse, reply};
use facts::Refusal;
use report::Subject;
use sheet::MAX_SHEET;
use text::append::within;

// The most bytes of a task in words and of its diagrams, of a probe file in words, and of the trace of a list: more than any has.
const TASK_TEXT: usize = 65536;

const PROBE_TEXT: usize = 524288;

const TRACE_TEXT: usize = 3145728;

// An array of zeros, of which no more than its length is known: it is too long to be looked at.
fn zeros<const N: usize>() -> [u8; N]
    ensures { N ≡ length result }
{
    [0; N]
}

// A text that was written into a buffer, or the refusal.
fn described(
    rt: HostRuntime,
    answer: Result<usize, Refusal>,
    text: &[u8],
    subject: Subject,
    asked: Asked,
) {
    match answer {
        Ok(n) => {
            let n = within(n, text);
            reply(rt, &text[..n]);
        }
        Err(why) => refuse(rt, asked, subject, why),
    }
}

// `show TASK`: the task in words.
pub fn show(rt: HostRuntime, file: &[u8], asked: Asked) {
    let mut text = [0; TASK_TEXT];
    let answer = describe::show(file, &mut text);
    described(rt, answer, &text, Subject::File, asked);
}

// `show PROBE`: the probe file in words.
pub fn show_probe(rt: HostRuntime, file: &[u8], asked: Asked) {
    let mut text = zeros::<PROBE_TEXT>();
    let answer = describe_probe::show(file, &mut text);
    described(rt, answer, &text, Subject::File, asked);
}

// `draw TASK [ACTION]`: all cost diagrams, or an action's.
pub fn draw(rt: HostRuntime, file: &[u8], next: usize, asked: Asked) {
    if is_given(rt, next) {
        return draw_action(rt, file, next, asked);
    }
    let mut text = [0; TASK_TEXT];
    let answer = draw::draw(file, &mut text);
    described(rt, answer, &text, Subject::File, asked);
}

// The cost diagram of the action whose number is an argument.
fn draw_action(rt: HostRuntime, file: &[u8], next: usize, asked: Asked) {
    let Some(action) = read_number(rt, next, b"ACTION") else {
        return failed(rt);
    };
    let mut text = [0; TASK_TEXT];
    let answer = draw::draw_action(file, action as usize, &mut text);
    described(rt, answer, &text, Subject::State, asked);
}

// `steps TASK LIST`: the trace of a probe list.
pub fn steps(rt: HostRuntime, file: &[u8], list: &[u16], asked: Asked) {
    let mut text = zeros::<TRACE_TEXT>();
    let answer = trace::trace(file, list, asked.states, &mut text);
    described(rt, answer, &text, Subject::List, asked);
}

// `sheet TASK PLAN`: a line for each action of a plan, and one for the sum.
pub fn sheet(rt: HostRuntime, file: &[u8], list: &[u16], asked: Asked) {
    let mut text = [0; MAX_SHEET];
    let answer = sheet::sheet(file, list, &mut text).map(|(n, _)| n);
    described(rt, answer, &text, Subject::List, asked);
}
