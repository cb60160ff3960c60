// The additive estimate of a task file.
#![tactic(auto)]

mod rounds;

ghost use Rattle.std.specs.Prelude.{◌≡◌};
ghost use Rattle.facts.specs.Read.{with_value};
ghost use Rattle.facts.specs.Answers.{answer};
ghost use Rattle.taskfile.specs.Blank.{file_of};
ghost use Rattle.taskfile.specs.Index.{Ready};
ghost use Rattle.estimate.specs.Number.{number};
ghost use Rattle.relaxation.specs.EstimateTask.{estimate_task};

use estimate::Est;
use facts::Refusal;
use index::bytes_of;
use taskfile::Task;

// The estimate from a state: the file's refusals, then 12 and 4 for the state.
pub fn estimate(file: &[u8], state: &[u8]) -> Result<Est, Refusal>
    ensures { with_value number (answer result) ≡ estimate_task file.now state.now }
{
    let mut row = [0; Task::ROW];
    let (variables, actions) = index::index_in(file, &mut row)?;
    let bytes = bytes_of(file, &Task::BLANK);
    estimate_in(bytes, variables, actions, &row, state)
}

// The same, of an accepted file by the bytes in which its task is found.
fn estimate_in(
    file: &[u8],
    variables: usize,
    actions: usize,
    row: &[usize],
    state: &[u8],
) -> Result<Est, Refusal>
    requires { Ready file.now variables actions row.now }
    ensures { with_value number (answer result) ≡ estimate_task (file_of file.now) state.now }
{
    let init = 1 + variables;
    let sizes = &file[1..init];
    partial::state::check_state(sizes, state)?;
    let goal = init + variables;
    Ok(rounds::settle(file, sizes, goal, actions, row, state))
}
