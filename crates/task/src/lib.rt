// Task files: checked, costed and run.
#![tactic(auto)]

ghost use Rattle.std.specs.Prelude.{◌≡◌};
ghost use Rattle.facts.specs.Answers.{answer};
ghost use Rattle.taskfile.specs.TaskFile.{check_task, cost_task, run_task};
ghost use Rattle.taskfile.specs.Blank.{file_of};
ghost use Rattle.taskfile.specs.Index.{Ready};
ghost use Rattle.taskfile.specs.Answers.{tallied_answer};

use facts::Refusal;
use facts::number::offset_at;
use index::bytes_of;
use taskfile::{Task, Walked};
use walk::action::run_list;
use walk::{own_nodes, walk_from};

// Whether a task file is accepted: refusals 1 to 6.
pub fn check(file: &[u8]) -> Result<(), Refusal>
    ensures { answer result ≡ check_task file.now }
{
    let mut row = [0; Task::ROW];
    index::index_in(file, &mut row)?;
    Ok(())
}

// What an action costs in a state, whether or not it applies there, and how many nodes it passes: the file's refusals, then 11 for the number, then 12 and 4 for the state.
pub fn cost(file: &[u8], action: usize, state: &[u8]) -> Result<Walked, Refusal>
    ensures { tallied_answer result ≡ cost_task file.now action state.now }
{
    let mut row = [0; Task::ROW];
    let (variables, actions) = index::index_in(file, &mut row)?;
    let bytes = bytes_of(file, &Task::BLANK);
    cost_in(bytes, variables, actions, &row, action, state)
}

// The same, of an accepted file by the bytes in which its task is found.
fn cost_in(
    file: &[u8],
    variables: usize,
    actions: usize,
    row: &[usize],
    action: usize,
    state: &[u8],
) -> Result<Walked, Refusal>
    requires { Ready file.now variables actions row.now }
    ensures { tallied_answer result ≡ cost_task (file_of file.now) action state.now }
{
    if actions <= action {
        return Err(Refusal::Missing(0));
    }
    let last = 1 + variables;
    partial::state::check_state(&file[1..last], state)?;
    let incoming = offset_at(row, Task::INCOMING + action);
    let own = own_nodes(row, action);
    Ok(walk_from(file, incoming, &row[own..], state))
}

// The sum of a list of actions, and how many nodes they pass: the file's refusals, then 8, then per action 11 before 9, and 10 at the end.
pub fn run(file: &[u8], list: &[u16]) -> Result<Walked, Refusal>
    ensures { tallied_answer result ≡ run_task file.now list.now }
{
    let mut row = [0; Task::ROW];
    let (variables, actions) = index::index_in(file, &mut row)?;
    let bytes = bytes_of(file, &Task::BLANK);
    run_in(bytes, variables, actions, &row, list)
}

// The same, likewise: the run starts from a copy of the initial values.
fn run_in(
    file: &[u8],
    variables: usize,
    actions: usize,
    row: &[usize],
    list: &[u16],
) -> Result<Walked, Refusal>
    requires { Ready file.now variables actions row.now }
    ensures { tallied_answer result ≡ run_task (file_of file.now) list.now }
{
    let init = 1 + variables;
    let goal = init + variables;
    let mut state = [0; Task::MAX_VARIABLES];
    state[..variables].copy_from_slice(&file[init..goal]);
    run_list(file, goal, actions, row, list, &mut state[..variables])
}
