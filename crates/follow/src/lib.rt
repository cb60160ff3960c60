// A probe list followed in place on the task: the entries of each action are held against the walk of its diagram.
#![tactic(auto)]

ghost use Rattle.std.specs.Prelude.{◌≡◌, ◌+◌, ◌≤◌, ◌<◌, length, get_or, IfSome};
ghost use Rattle.facts.specs.State.{Inside};
ghost use Rattle.taskfile.specs.Blank.{file_of};
ghost use Rattle.taskfile.specs.Index.{Ready};
ghost use Rattle.taskfile.specs.Task.{max_actions, max_list};
ghost use Rattle.taskfile.specs.WalkInPlace.{max_passed, node_count};
ghost use Rattle.taskfile.specs.PartsInPlace.{nodes_in, action_in, Tested};
ghost use Rattle.follow.specs.Follow.{Walkable, PathTo, ActionTo, Followable, PlanTo, ContractsTo};

use facts::number::{byte_at, offset_at};
use numbering::{Numbers, Steps, initial};
use partial::{apply_at, held_at, holds_at};
use probefile::Probe;
use taskfile::Task;
use walk::{diagram_past, edge_for, own_nodes};

// Follows a list from the initial state of an accepted file on, and notes the actions that it comes from: how many they are, and their sum, if the list is a plan.
pub fn follow_plan(
    file: &[u8],
    variables: usize,
    actions: usize,
    row: &[usize],
    list: &[u16],
    plan: &mut [u16],
) -> Option<(usize, u32)>
    requires ready { Ready file.now variables actions row.now }
    requires plan_len_bound { length plan.old ≤ max_list }
    ensures { ContractsTo (file_of file.now) list.now plan.new result }
{
    let last = 1 + variables;
    let sizes = &file[1..last];
    let mut numbers = Numbers::NONE;
    numbers.note(file, sizes, actions, row);
    let mut action_of = [0; Probe::MAX_STEPS];
    numbers.note_actions(actions, &mut action_of);
    let mut state = initial(file, variables);
    follow_list(
        file,
        sizes,
        1 + 2 * variables,
        actions,
        row,
        &numbers,
        &action_of,
        list,
        &mut state[..variables],
        plan,
    )
}

// Follows a list from a state on, by the row of the index and the numbers of the steps, and notes the actions that it comes from. `action_of` has at the number of each start 1 and the number of its action.
fn follow_list(
    file: &[u8],
    sizes: &[u8],
    goal: usize,
    actions: usize,
    row: &[usize],
    numbers: &Numbers,
    action_of: &[u8],
    list: &[u16],
    state: &mut [u8],
    plan: &mut [u16],
) -> Option<(usize, u32)>
    requires followable { Followable file.now sizes.now actions row.now numbers.now.first_step numbers.now.first_edge action_of.now }
    requires inside { Inside sizes.now state.old }
    requires actions_bound { actions ≤ max_actions }
    requires plan_len_bound { length plan.old ≤ max_list }
    ensures { PlanTo file.now sizes.now goal actions row.now list.now state.old plan.new result }
{
    let mut sum = 0;
    let mut count = 0;
    let mut i = 0;
    // no range: an action begins where the entries of the one before end
    while i < list.len() {
        let number = usize::from(byte_at(action_of, list[i] as usize)).checked_sub(1)?;
        if plan.len() <= count {
            return None;
        }
        let own = own_nodes(row, number);
        let (end, cost) = follow_action(
            file,
            sizes,
            row[number],
            &row[own..],
            numbers.of(row, number),
            state,
            list,
            i,
        )?;
        plan[count] = number as u16;
        count += 1;
        sum += cost;
        i = end;
    }
    if holds_at(file, goal, state) {
        return Some((count, sum));
    }
    None
}

// Follows the action at an offset, whose start is the list's entry `from`: its precondition holds, its walk's entries come next, and its effect is set. Answers where its entries end in the list, and what it costs, if the list
// has them.
fn follow_action(
    file: &[u8],
    sizes: &[u8],
    at: usize,
    nodes: &[usize],
    steps: Steps,
    state: &mut [u8],
    list: &[u16],
    from: usize,
) -> Option<(usize, u32)>
    requires walkable { Walkable sizes.now (action_in file.now sizes.now at nodes.now).nodes steps.edges.now (get_or list.now from 0) steps.next state.old }
    requires from_in { from < length list.now }
    requires tested { Tested file.now nodes.now (node_count file.now at) }
    ensures { ActionTo file.now sizes.now at nodes.now state.old list.now from state.new result }
{
    let effect = held_at(file, at, state)?;
    let diagram = diagram_past(file, effect);
    let (end, cost) = follow_path(file, sizes, nodes, diagram.count, steps, state, list, from)?;
    apply_at(file, effect, state);
    Some((end, diagram.incoming + cost))
}

// Follows the walk of the same action, which has `count` nodes: past the start the entry of an edge for each node passed, and the end. An entry tells the
// value whose edge it is, so that the next node is known before the state is asked.
fn follow_path(
    file: &[u8],
    sizes: &[u8],
    nodes: &[usize],
    count: usize,
    steps: Steps,
    state: &[u8],
    list: &[u16],
    from: usize,
) -> Option<(usize, u32)>
    requires walkable { Walkable sizes.now (nodes_in file.now sizes.now nodes.now 0 count) steps.edges.now (get_or list.now from 0) steps.next state.now }
    requires count_bound { count ≤ max_passed }
    requires from_in { from < length list.now }
    requires tested { Tested file.now nodes.now count }
    ensures { PathTo file.now sizes.now nodes.now count state.now list.now from result }
{
    let mut cost = 0;
    let mut i = 1 + from;
    let mut k = 1;
    // no range: the next number is that of the edge's target
    while k <= count {
        let j = k - 1;
        let node = offset_at(nodes, j);
        let value = past(list, i, offset_at(steps.edges, j))?;
        if byte_at(state, offset_at(nodes, Task::MAX_NODES + j)) as usize != value {
            return None;
        }
        let edge = edge_for(file, node, value as u8);
        cost += edge.weight;
        i += 1;
        k = edge.target;
    }
    let beyond = past(list, i, steps.next - 1)?;
    let ends = beyond == 0;
    if ends {
        return Some((i + 1, cost));
    }
    None
}

// How far past a step the entry at an index lies, if it is there and no earlier step.
fn past(list: &[u16], i: usize, step: usize) -> Option<usize>
    ensures { IfSome result (λ far. (i < length list.now) × (get_or list.now i 0 ≡ step + far)) }
{
    let entry = list.get(i).copied()?;
    usize::from(entry).checked_sub(step)
}
