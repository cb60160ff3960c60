// The commands on a file that was read. Each gets its bytes, the number of its next argument, and what is asked for.
use crate::describing::{sheet, steps};
use crate::failing;
use crate::saving::save;
use console::asking::Asked;
use console::command::Command;
use console::input::{read_list, read_number, read_state};
use console::output;
use console::output::{costed, count, estimated, failed, listed, ran, refuse, reply};
use estimate::Est;
use facts::Refusal;
use probefile::Probe;
use report::Subject;
use taskfile::Task;
use text::append::within;

// One entry more than the longest list, one of steps, and than a state may have.
const LIST: usize = Probe::MAX_LIST + 1;

const STATE: usize = Probe::MAX_VARIABLES + 1;

// What is asked of a state, or of sets: an action's cost, or an estimate.
#[derive(Drop)]
pub enum Question {
    Cost(usize),
    Relaxed(usize),
    TaskEstimate,
    ProbeEstimate,
}

// `check FILE`: the file is accepted.
pub fn accepted(rt: HostRuntime) {
    reply(rt, b"accepted\n");
}

// Whether a file is accepted; if not, its refusal is said.
pub fn is_accepted(rt: HostRuntime, answer: Result<(), Refusal>, asked: Asked) -> bool {
    if let Err(why) = answer {
        refuse(rt, asked, Subject::File, why);
    }
    answer.is_ok()
}

// `compile TASK PROBE`: the probe file of a task.
pub fn compile(rt: HostRuntime, file: &[u8], next: usize, asked: Asked) {
    let mut out = [0; Task::MAX_WRITTEN];
    match compile::compile(file, &mut out) {
        Ok(length) => {
            let n = within(length, &out);
            save(rt, next, &out[..n]);
        }
        Err(why) => refuse(rt, asked, Subject::File, why),
    }
}

// `run`, `follow`, `expand`, `contract`, `sheet`, `steps`: a command on the list that its next argument names.
pub fn on_list(rt: HostRuntime, asked: Asked, file: &[u8], next: usize) {
    let mut entries = [0; LIST];
    let Some(n) = read_list(rt, next, &mut entries) else {
        return failed(rt);
    };
    let list = &entries[..n];
    match asked.command {
        Command::Run => run(rt, file, list, asked),
        Command::Follow => follow(rt, file, list, asked),
        Command::Expand => expand(rt, file, list, asked),
        Command::Contract => contract(rt, file, list, asked),
        Command::Sheet => sheet(rt, file, list, asked),
        _ => steps(rt, file, list, asked),
    }
    if asked.explain {
        explain_list(rt, asked, file, list);
    }
}

// Why the list is no plan.
fn explain_list(rt: HostRuntime, asked: Asked, file: &[u8], list: &[u16]) {
    match asked.command {
        Command::Run | Command::Expand | Command::Sheet => failing::on_task(rt, asked, file, list),
        Command::Follow => failing::on_probe(rt, asked, file, list),
        Command::Contract => failing::on_compiled(rt, asked, file, list),
        _ => {}
    }
}

// The probe list that comes from a plan, and its sum.
fn expand(rt: HostRuntime, file: &[u8], list: &[u16], asked: Asked) {
    let mut out = [0; LIST];
    let answer = expand::expand(file, list, &mut out);
    carried(rt, answer, &out, Subject::List, asked);
}

// The plan that a probe list comes from, and its sum.
fn contract(rt: HostRuntime, file: &[u8], list: &[u16], asked: Asked) {
    let mut out = [0; LIST];
    let answer = contract::contract(file, list, &mut out);
    carried(rt, answer, &out, Subject::Contracted, asked);
}

// `cost`, `relaxed`, `estimate`: a question about the state that the next argument names.
pub fn on_state(rt: HostRuntime, question: Question, file: &[u8], next: usize, asked: Asked) {
    let mut values = [0; STATE];
    let Some(n) = read_state(rt, next, &mut values) else {
        return failed(rt);
    };
    let state = &values[..n];
    match question {
        Question::Cost(action) => cost(rt, file, action, state, asked),
        Question::Relaxed(action) => relaxed(rt, file, action, state, asked),
        Question::TaskEstimate => number(rt, task_estimate::estimate(file, state), asked),
        Question::ProbeEstimate => number(rt, probe_estimate::estimate(file, state), asked),
    }
}

// The sum of a plan, the nodes that its actions pass, and the steps of its probe list.
fn run(rt: HostRuntime, file: &[u8], list: &[u16], asked: Asked) {
    match measure::measure(file, list) {
        Ok(measured) => ran(rt, measured.run, measured.steps),
        Err(why) => refuse(rt, asked, Subject::List, why),
    }
}

// The sum of a probe list.
fn follow(rt: HostRuntime, file: &[u8], list: &[u16], asked: Asked) {
    match probe::run(file, list) {
        Ok(sum) => count(rt, b"sum", sum),
        Err(why) => refuse(rt, asked, Subject::List, why),
    }
}

// `charge SUM`: what a shop bills for a run, by its sum.
pub fn charge(rt: HostRuntime, i: usize) {
    let Some(sum) = read_number(rt, i, b"SUM") else {
        return failed(rt);
    };
    count(rt, b"cents", charge::charge(sum));
}

// A list that was written into a buffer, and its sum.
fn carried(
    rt: HostRuntime,
    answer: Result<(usize, u32), Refusal>,
    out: &[u16],
    subject: Subject,
    asked: Asked,
) {
    match answer {
        Ok((length, sum)) => {
            let n = length.min(out.len());
            listed(rt, &out[..n], sum);
        }
        Err(why) => refuse(rt, asked, subject, why),
    }
}

// What an action costs in a state, and the nodes that it passes.
fn cost(rt: HostRuntime, file: &[u8], action: usize, state: &[u8], asked: Asked) {
    match task::cost(file, action, state) {
        Ok(walked) => costed(rt, walked),
        Err(why) => refuse(rt, asked, Subject::State, why),
    }
}

// What an action costs in a relaxed state.
fn relaxed(rt: HostRuntime, file: &[u8], action: usize, sets: &[u8], asked: Asked) {
    match task_relaxed::relaxed_cost(file, action, sets) {
        Ok(cost) => count(rt, b"cost", cost),
        Err(why) => refuse(rt, asked, Subject::Sets, why),
    }
}

// What an action costs at most over all states, and the first state that costs it.
pub fn dearest(rt: HostRuntime, file: &[u8], action: usize, asked: Asked) {
    let mut state = [0; Task::MAX_VARIABLES];
    match task_dearest::dearest(file, action, &mut state) {
        Ok((variables, cost)) => {
            let n = within(variables, &state);
            output::dearest(rt, cost, &state[..n]);
        }
        Err(why) => refuse(rt, asked, Subject::State, why),
    }
}

// An estimate.
fn number(rt: HostRuntime, answer: Result<Est, Refusal>, asked: Asked) {
    match answer {
        Ok(e) => estimated(rt, e),
        Err(why) => refuse(rt, asked, Subject::State, why),
    }
}
