// The one pass over a task file that checks it and notes where its actions and nodes start, and which variables the nodes test.
ghost use Rattle.std.specs.Prelude.{◌≡◌, ℕ, ◌+◌, ◌-◌, ◌≤◌, ◌<◌, length};
ghost use Rattle.facts.specs.Read.{accepted};
ghost use Rattle.facts.specs.Answers.{answer};
ghost use Rattle.facts.specs.Fields.{next_of, read_operator, head_at};
ghost use Rattle.taskfile.specs.Task.{max_variables, max_values, max_actions, max_nodes};
ghost use Rattle.taskfile.specs.TaskFile.{read_actions};
ghost use Rattle.taskfile.specs.Row.{nodes_from, row_long};
ghost use Rattle.taskfile.specs.InPlace.{action_at, ActionPlaced, front_noted, Fronts, Listed, task_at};
ghost use Rattle.taskfile.specs.Index.{Noted};

use diagram::diagram_end;
use facts::Refusal;
use facts::number::read_word;
use partial::partial_end;
use taskfile::Task;

// How many variables and actions a task file has, an empty one those of the blank task; where each action, its effect and its incoming weight stand, which of all nodes is its first, where each node starts and which variable it tests.
pub fn index_into(file: &[u8], row: &mut [usize]) -> Result<(usize, usize), Refusal>
    requires { row_long ≤ length row.old }
    ensures counted { answer result ≡ task_at file.now }
    ensures noted { Noted file.now (answer result) row.new }
{
    match head::read_head(file, Task::MAX_VARIABLES as u64, Task::MAX_VALUES as u64) {
        Err(why) => {
            let blank = file.len() == 0;
            if blank {
                return Ok((1, 0));
            }
            Err(why)
        }
        Ok((variables, at)) => index_actions(file, variables, at, row),
    }
}

// The same, past the head, which ends at `at`.
fn index_actions(
    file: &[u8],
    variables: usize,
    at: usize,
    row: &mut [usize],
) -> Result<(usize, usize), Refusal>
    requires { (head_at file.now max_variables max_values ≡ accepted (variables, at)) × (row_long ≤ length row.old) }
    ensures counted { answer result ≡ task_at file.now }
    ensures noted { Noted file.now (answer result) row.new }
{
    let actions = head::read_count(file, at, 1, Task::MAX_ACTIONS as u64)? as usize;
    let last = 1 + variables;
    let end = actions_end(file, at + 1, &file[1..last], actions, row)?;
    if end < file.len() {
        return Err(Refusal::Trailing(end));
    }
    Ok((variables, actions))
}

// Past the actions, noting where each and its parts stand and which node is its first.
fn actions_end(
    file: &[u8],
    from: usize,
    sizes: &[u8],
    count: usize,
    row: &mut [usize],
) -> Result<usize, Refusal>
    requires { (count ≤ max_actions) × (row_long ≤ length row.old) × (length sizes.now ≤ max_variables) }
    ensures result_value { answer result ≡ next_of (read_actions file.now sizes.now count max_nodes from) }
    ensures listed { Listed file.now sizes.now count from row.new }
    ensures by_index { (end : ℕ) → answer result ≡ accepted end → Fronts file.now count row.new }
{
    let mut at = from;
    let mut used: usize = 0;
    for a in 0..count {
        row[Task::FIRSTS + a] = used;
        row[a] = at;
        let (next, nodes) = action_end(file, at, sizes, a, used, row)?;
        at = next;
        used += nodes;
    }
    Ok(at)
}

// Past action a: its front, and its diagram, whose nodes are noted after the `used` ones that there are.
fn action_end(
    file: &[u8],
    at: usize,
    sizes: &[u8],
    a: usize,
    used: usize,
    row: &mut [usize],
) -> Result<(usize, usize), Refusal>
    requires { (used ≤ max_nodes) × (a < max_actions) × (row_long ≤ length row.old) × (length sizes.now ≤ max_variables) }
    ensures result_value { answer result ≡ action_at file.now sizes.now (max_nodes - used) at }
    ensures by_index { (p : ℕ × ℕ) → answer result ≡ accepted p → ActionPlaced file.now sizes.now (max_nodes - used) at (nodes_from + used) (front_noted file.now at a row.old) row.new }
{
    let place = front_end(file, at, sizes, a, row)?;
    diagram_end(file, place, sizes, used, row)
}

// Past the front of action a, its precondition, effect and incoming weight, noting where the last two stand.
fn front_end(
    file: &[u8],
    at: usize,
    sizes: &[u8],
    a: usize,
    row: &mut [usize],
) -> Result<usize, Refusal>
    requires { (a < max_actions) × (row_long ≤ length row.old) }
    ensures result_value { answer result ≡ next_of (read_operator file.now sizes.now at) }
    ensures by_index { (end : ℕ) → answer result ≡ accepted end → row.new ≡ front_noted file.now at a row.old }
{
    let effect = partial_end(file, at, sizes)?;
    let incoming = partial_end(file, effect, sizes)?;
    read_word(file, incoming)?;
    row[Task::EFFECTS + a] = effect;
    row[Task::INCOMING + a] = incoming;
    Ok(incoming + 2)
}
