// A list of actions run, and the costs of its actions noted.
ghost use Rattle.std.specs.Prelude.{◌≡◌, ◌≤◌, length};
ghost use Rattle.facts.specs.Answers.{answer};
ghost use Rattle.facts.specs.Partial.{partial_at};
ghost use Rattle.facts.specs.Write.{over};
ghost use Rattle.taskfile.specs.Task.{max_list};
ghost use Rattle.taskfile.specs.InPlace.{Fronts};
ghost use Rattle.taskfile.specs.WalkInPlace.{move_at, run_list};
ghost use Rattle.sheet.specs.Sheet.{costs_from};

use facts::Refusal;
use facts::number::offset_at;
use partial::holds_at;
use taskfile::Task;
use walk::action::apply_action;
use walk::own_nodes;

// Runs a list from a state, by the row of the index: there are `count` actions, and the goal starts at `goal`. Notes what each action costs, up to one that is missing or does not apply.
pub fn note_costs(
    file: &[u8],
    goal: usize,
    count: usize,
    row: &[usize],
    list: &[u16],
    state: &mut [u8],
    costs: &mut [u32],
) -> Result<u32, Refusal>
    requires fronts { Fronts file.now count row.now }
    requires few { length list.now ≤ max_list }
    requires room { length list.now ≤ length costs.old }
    ensures result_value { answer result ≡ run_list count (move_at file.now row.now) (partial_at file.now goal) list.now state.old }
    ensures costs_after { costs.new ≡ over (costs_from count (move_at file.now row.now) list.now state.old) costs.old }
{
    let mut sum = 0;
    for (i, number) in list.iter().enumerate() {
        let number = *number as usize;
        if count <= number {
            return Err(Refusal::Missing(i));
        }
        let own = own_nodes(row, number);
        let incoming = offset_at(row, Task::INCOMING + number);
        let act = apply_action(file, offset_at(row, number), incoming, &row[own..], state);
        let Some(walked) = act else {
            return Err(Refusal::Blocked(i));
        };
        costs[i] = walked.cost;
        sum += walked.cost;
    }
    if holds_at(file, goal, state) {
        return Ok(sum);
    }
    Err(Refusal::Unmet(list.len()))
}
