// Relaxed costs of task files.
#![tactic(auto)]

mod relaxed;

ghost use Rattle.std.specs.Prelude.{◌≡◌};
ghost use Rattle.facts.specs.Answers.{answer};
ghost use Rattle.relaxation.specs.RelaxedTask.{relaxed_task};

use facts::Refusal;
use index::bytes_of;
use taskfile::Task;

// What an action costs at least over the states of a relaxed state, which has a set of values, one byte, for each variable, that meet its precondition: the
// file's refusals, then 11 for the number, then 12 and 4 for the sets, then 17 for a set that lacks a value of the precondition.
pub fn relaxed_cost(file: &[u8], action: usize, sets: &[u8]) -> Result<u32, Refusal>
    ensures { answer result ≡ relaxed_task file.now action sets.now }
{
    let mut row = [0; Task::ROW];
    let (variables, actions) = index::index_in(file, &mut row)?;
    let bytes = bytes_of(file, &Task::BLANK);
    relaxed::relaxed_in(bytes, variables, actions, &row, action, sets)
}
