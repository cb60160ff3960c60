// Actions in place: one applied, and a list of them run.
ghost use Rattle.std.specs.Prelude.{◌≡◌, ◌≤◌, IfSome, option_map};
ghost use Rattle.facts.specs.Partial.{partial_at};
ghost use Rattle.facts.specs.Answers.{move_of};
ghost use Rattle.taskfile.specs.WalkInPlace.{incoming_place, max_passed, max_walk, perform_at, pass_at, move_at, passes_at, run_list};
ghost use Rattle.taskfile.specs.InPlace.{Fronts};
ghost use Rattle.taskfile.specs.Answers.{sum_answer, passed_answer};

use crate::{own_nodes, walk_from};
use facts::Refusal;
use facts::number::offset_at;
use partial::{apply_at, held_at};
use taskfile::{Task, Walked};

// Does the action at an offset, whose incoming weight is at another: where its precondition holds, its effect is set in the state, and it costs what its walk costs in the state before.
// Both runs, here and in crate `sheet`, have it in place.
#[inline(always)]
pub fn apply_action(
    file: &[u8],
    at: usize,
    incoming: usize,
    nodes: &[usize],
    state: &mut [u8],
) -> Option<Walked>
    requires { incoming ≡ incoming_place file.now at }
    ensures state_after { move_of (option_map (λ walk. walk.cost) result) state.new ≡ perform_at file.now at nodes.now state.old }
    ensures state_after_2 { move_of (option_map (λ walk. walk.passed) result) state.new ≡ pass_at file.now at nodes.now state.old }
    ensures most { IfSome result (λ walk. (walk.cost ≤ max_walk) × (walk.passed ≤ max_passed)) }
{
    let effect = held_at(file, at, state)?;
    let walked = walk_from(file, incoming, nodes, state);
    apply_at(file, effect, state);
    Some(walked)
}

// Runs a list of at most 256 numbers from a state, by the row of the index: there are `count` actions, and the goal starts at `goal`.
pub fn run_list(
    file: &[u8],
    goal: usize,
    count: usize,
    row: &[usize],
    list: &[u16],
    state: &mut [u8],
) -> Result<Walked, Refusal>
    requires { Fronts file.now count row.now }
    ensures result_value { sum_answer result ≡ run_list count (move_at file.now row.now) (partial_at file.now goal) list.now state.old }
    ensures result_value_2 { passed_answer result ≡ run_list count (passes_at file.now row.now) (partial_at file.now goal) list.now state.old }
{
    let long = Task::MAX_LIST < list.len();
    if long {
        return Err(Refusal::Long(Task::MAX_LIST));
    }
    let mut sum: u32 = 0;
    let mut passed: usize = 0;
    for (i, number) in list.iter().enumerate() {
        let number = *number as usize;
        if count <= number {
            return Err(Refusal::Missing(i));
        }
        let own = own_nodes(row, number);
        let incoming = offset_at(row, Task::INCOMING + number);
        let act = apply_action(file, offset_at(row, number), incoming, &row[own..], state);
        let Some(walked) = act else {
            return Err(Refusal::Blocked(i));
        };
        sum += walked.cost;
        passed += walked.passed;
    }
    if partial::holds_at(file, goal, state) {
        return Ok(Walked { cost: sum, passed });
    }
    Err(Refusal::Unmet(list.len()))
}
