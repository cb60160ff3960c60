// Why a list is no plan: the entry that does not apply, or the goal, with each fact that fails and the value that is there.
#![tactic(auto)]

mod run;
pub mod sentence;

ghost use Rattle.std.specs.Prelude.{◌≡◌, ◌+◌, ◌*◌, ◌≤◌, length, take, drop};
ghost use Rattle.facts.specs.Answers.{answer};
ghost use Rattle.facts.specs.Write.{length_in, written_in};
ghost use Rattle.probefile.specs.Probe.{max_variables};
ghost use Rattle.failure.specs.Failure.{task_failure, probe_failure};
ghost use Rattle.failure.specs.InPlace.{failure_in, Brief};

use facts::Refusal;
use index::bytes_of;
use probefile::Probe;
use taskfile::Task;

// An entry at which a run stops: its index and number, and the offset of its precondition, which does not hold.
#[derive(Clone, Copy, Debug, PartialEq, Eq)]
pub struct Stop {
    pub entry: usize,
    pub number: usize,
    pub place: usize,
}

// Why a list of actions is no plan of a task, nothing where it is one: the file's refusals, then 8, then 11 for an entry before the first that does not apply, then 7 with the length needed; a refusal changes no byte.
pub fn task_failure(file: &[u8], list: &[u16], out: &mut [u8]) -> Result<usize, Refusal>
    ensures result_value { answer result ≡ length_in (length out.old) (task_failure file.now list.now) }
    ensures out_after { out.new ≡ written_in out.old (task_failure file.now list.now) }
{
    let mut row = [0; Task::ROW];
    let (variables, actions) = index::index_in(file, &mut row)?;
    let bytes = bytes_of(file, &Task::BLANK);
    if Task::MAX_LIST < list.len() {
        return Err(Refusal::Long(Task::MAX_LIST));
    }
    failure_in(bytes, variables, &row[..actions], b"action ", list, out)
}

// Why a list of steps is no plan of a probe file, likewise.
pub fn probe_failure(file: &[u8], list: &[u16], out: &mut [u8]) -> Result<usize, Refusal>
    ensures result_value { answer result ≡ length_in (length out.old) (probe_failure file.now list.now) }
    ensures out_after { out.new ≡ written_in out.old (probe_failure file.now list.now) }
{
    let mut offsets = [0; Probe::MAX_STEPS];
    let (variables, steps) = probefile::step_index::index(file, &mut offsets)?;
    if Probe::MAX_LIST < list.len() {
        return Err(Refusal::Long(Probe::MAX_LIST));
    }
    failure_in(file, variables, &offsets[..steps], b"step ", list, out)
}

// The same of an accepted file whose actions or steps begin at these offsets: the run starts from a copy of the initial values.
fn failure_in(
    file: &[u8],
    variables: usize,
    offsets: &[usize],
    label: &[u8],
    list: &[u16],
    out: &mut [u8],
) -> Result<usize, Refusal>
    requires variables_le_max_variables { (variables ≤ max_variables) × (1 + 2 * variables ≤ length file.now) }
    requires brief { Brief (failure_in file.now label.now offsets.now (1 + 2 * variables) list.now (take variables (drop (1 + variables) file.now))) }
    ensures result_value { answer result ≡ length_in (length out.old) (failure_in file.now label.now offsets.now (1 + 2 * variables) list.now (take variables (drop (1 + variables) file.now))) }
    ensures out_after { out.new ≡ written_in out.old (failure_in file.now label.now offsets.now (1 + 2 * variables) list.now (take variables (drop (1 + variables) file.now))) }
{
    let init = 1 + variables;
    let goal = init + variables;
    let mut state = [0; Probe::MAX_VARIABLES];
    state[..variables].copy_from_slice(&file[init..goal]);
    failure_from(
        file,
        goal,
        offsets,
        label,
        list,
        &mut state[..variables],
        out,
    )
}

// The same from a state, which then is the one in which the run comes to its end.
fn failure_from(
    file: &[u8],
    goal: usize,
    offsets: &[usize],
    label: &[u8],
    list: &[u16],
    state: &mut [u8],
    out: &mut [u8],
) -> Result<usize, Refusal>
    requires { Brief (failure_in file.now label.now offsets.now goal list.now state.old) }
    ensures result_value { answer result ≡ length_in (length out.old) (failure_in file.now label.now offsets.now goal list.now state.old) }
    ensures out_after { out.new ≡ written_in out.old (failure_in file.now label.now offsets.now goal list.now state.old) }
{
    let stop = run::halt(file, offsets, list, state)?;
    let end = &*state;
    words::write(out, |text| {
        sentence::put_stop(text, label, file, goal, stop, end)
    })
}
