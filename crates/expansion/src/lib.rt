// A list of actions run, and its probe list written in the same walk.
#![tactic(auto)]

mod path;

ghost use Rattle.std.specs.Prelude.{◌+◌, ◌*◌, ◌≤◌, length};
ghost use Rattle.facts.specs.Partial.{partial_at};
ghost use Rattle.facts.specs.State.{Inside};
ghost use Rattle.taskfile.specs.Task.{max_list, max_actions, max_entries};
ghost use Rattle.taskfile.specs.Blank.{file_of};
ghost use Rattle.taskfile.specs.Index.{Ready};
ghost use Rattle.taskfile.specs.TaskFile.{sum_task};
ghost use Rattle.taskfile.specs.WalkInPlace.{move_at, run_list};
ghost use Rattle.taskfile.specs.PartsInPlace.{actions_in};
ghost use Rattle.plans.specs.Carry.{expand_from};
ghost use Rattle.numbering.specs.InPlace.{expansion, Prepared, WroteIf};

use crate::path::put_action;
use facts::Refusal;
use numbering::{Numbers, initial};
use partial::holds_at;
use taskfile::Task;
use walk::own_nodes;

// Runs a list of at most 256 actions and writes its probe list; what is written for a list that is refused says nothing.
pub fn put_plan(
    file: &[u8],
    variables: usize,
    actions: usize,
    row: &[usize],
    list: &[u16],
    out: &mut [u16],
) -> Result<(usize, u32), Refusal>
    requires ready { Ready file.now variables actions row.now }
    requires few { length list.now ≤ max_list }
    requires room { max_entries * length list.now ≤ length out.old }
    ensures { WroteIf result (sum_task (file_of file.now) list.now) (expansion (file_of file.now) list.now) out.old out.new }
{
    let last = 1 + variables;
    let sizes = &file[1..last];
    let mut numbers = Numbers::NONE;
    numbers.note(file, sizes, actions, row);
    let mut state = initial(file, variables);
    put_list(
        file,
        sizes,
        1 + 2 * variables,
        actions,
        row,
        &numbers,
        list,
        &mut state[..variables],
        out,
    )
}

// The same from a state on, by the row of the index and the numbers of the steps; the goal starts at `goal`.
fn put_list(
    file: &[u8],
    sizes: &[u8],
    goal: usize,
    actions: usize,
    row: &[usize],
    numbers: &Numbers,
    list: &[u16],
    state: &mut [u8],
    out: &mut [u16],
) -> Result<(usize, u32), Refusal>
    requires prepared { Prepared file.now sizes.now actions row.now numbers.now.first_step numbers.now.first_edge }
    requires inside { Inside sizes.now state.old }
    requires actions_bound { actions ≤ max_actions }
    requires few { length list.now ≤ max_list }
    requires room { max_entries * length list.now ≤ length out.old }
    ensures { WroteIf result (run_list actions (move_at file.now row.now) (partial_at file.now goal) list.now state.old) (expand_from (actions_in file.now sizes.now row.now 0 actions) list.now state.old) out.old out.new }
{
    let mut sum = 0;
    let mut written = 0;
    for (i, number) in list.iter().enumerate() {
        let number = *number as usize;
        if actions <= number {
            return Err(Refusal::Missing(i));
        }
        let own = own_nodes(row, number);
        let put = put_action(
            file,
            sizes,
            row[number],
            row[Task::INCOMING + number],
            &row[own..],
            numbers.of(row, number),
            state,
            &mut out[written..],
        );
        let Some(path) = put else {
            return Err(Refusal::Blocked(i));
        };
        sum += path.cost;
        written += path.written;
    }
    if holds_at(file, goal, state) {
        return Ok((written, sum));
    }
    Err(Refusal::Unmet(list.len()))
}
