// The head of the probe file of a task: sizes, initial values and goal, then the step count.
ghost use Rattle.std.specs.Prelude.{◌≡◌, ◌++◌, ℕ, ◌+◌, ◌*◌, ◌^◌, ◌≤◌, ◌<◌, length, get_or, replicate};
ghost use Rattle.facts.specs.Bytes.{bytes_of};
ghost use Rattle.facts.specs.Partial.{partial_at, partial_bytes, write_partial};
ghost use Rattle.facts.specs.Write.{Wrote};
ghost use Rattle.taskfile.specs.Task.{max_variables, max_actions};
ghost use Rattle.taskfile.specs.Row.{incoming_from};
ghost use Rattle.taskfile.specs.PartsInPlace.{Stands};
ghost use Rattle.step_writer.specs.InPlace.{Weighs};
ghost use Rattle.probe_writer.specs.HeadInPlace.{markers_in, sizes_in, init_in, goal_in, head_in};

use facts::number::{byte_at, offset_at};
use partial::length_at;
use step_writer::put::{bit, put_byte, put_bytes, put_extended, put_word};
use taskfile::Task;

// The length of head and step count, for a task with n variables: a byte for the number of variables, one for each size and initial value, the goal, two bytes.
pub fn head_length(file: &[u8], n: usize, actions: usize) -> usize
    requires { (n ≤ max_variables) × (actions ≤ max_actions) × (1 + 2 * n ≤ length file.now) }
    ensures { (result ≡ 3 + 2 * n + partial_bytes (partial_at file.now (1 + 2 * n)) + 3 * (1 + actions)) × (result ≤ 222) }
{
    let goal = 1 + 2 * n;
    3 + 2 * n + length_at(file, goal) + 3 * (1 + actions)
}

// Head and step count, by the row of the index.
pub fn put_head(
    file: &[u8],
    n: usize,
    actions: usize,
    row: &[usize],
    steps: usize,
    out: &mut [u8],
) -> usize
    requires n_le_max_variables { (n ≤ max_variables) × (actions ≤ max_actions) × (steps < 65536) × Stands file.now n (1 + 2 * n) }
    requires by_index { (a : ℕ) → a < actions → Weighs file.now (get_or row.now a 0) (get_or row.now (incoming_from + a) 0) }
    requires steps_in_bounds { length (head_in file.now n actions row.now ++ bytes_of 2 steps) ≤ length out.old }
    ensures { Wrote (head_in file.now n actions row.now ++ bytes_of 2 steps) out.old out.new result }
{
    let sizes = put_sizes(file, n, actions, row, out);
    let init = sizes + put_init(file, n, actions, &mut out[sizes..]);
    let goal = init + put_goal(file, n, actions, &mut out[init..]);
    goal + put_word(&mut out[goal..], steps as u32)
}

// The number of variables and the domain sizes: those of the task, 2 for the semaphore, one for each marker.
fn put_sizes(file: &[u8], n: usize, actions: usize, row: &[usize], out: &mut [u8]) -> usize
    requires n_le_max_variables { (n ≤ max_variables) × (actions ≤ max_actions) × (1 + 2 * n ≤ length file.now) }
    requires by_index { (a : ℕ) → a < actions → Weighs file.now (get_or row.now a 0) (get_or row.now (incoming_from + a) 0) }
    requires actions_in_bounds { 2 + n + actions ≤ length out.old }
    ensures { Wrote (sizes_in file.now n actions row.now) out.old out.new result }
{
    let last = 1 + n;
    let count = put_byte(out, (n + (1 + actions)) as u8);
    let own = count + put_bytes(&mut out[count..], &file[1..last]);
    let semaphore = own + put_byte(&mut out[own..], 2);
    semaphore + put_markers(file, actions, row, &mut out[semaphore..])
}

// The domain size of each action's marker: 0, each node and the terminal.
fn put_markers(file: &[u8], actions: usize, row: &[usize], out: &mut [u8]) -> usize
    requires by_index { (a : ℕ) → a < actions → Weighs file.now (get_or row.now a 0) (get_or row.now (incoming_from + a) 0) }
    requires actions_in_bounds { (actions ≤ length out.old) × (actions ≤ max_actions) }
    ensures { Wrote (markers_in file.now row.now 0 actions) out.old out.new result }
{
    let mut at = 0;
    for a in 0..actions {
        let incoming = offset_at(row, Task::INCOMING + a);
        at += put_byte(&mut out[at..], byte_at(file, incoming + 2) + 2);
    }
    at
}

// The initial values: those of the task, then semaphore and markers at 0.
fn put_init(file: &[u8], n: usize, actions: usize, out: &mut [u8]) -> usize
    requires n_le_max_variables { (n ≤ max_variables) × (actions ≤ max_actions) × (1 + 2 * n ≤ length file.now) }
    requires actions_in_bounds { n + (1 + actions) ≤ length out.old }
    ensures { Wrote (init_in file.now n actions) out.old out.new result }
{
    let from = 1 + n;
    let own = put_bytes(out, &file[from..from + n]);
    own + put_zeros(&mut out[own..], 1 + actions)
}

// So many zeros.
fn put_zeros(out: &mut [u8], count: usize) -> usize
    requires { count ≤ length out.old }
    ensures { Wrote (replicate count 0) out.old out.new result }
{
    out[..count].fill(0);
    count
}

// The goal: the task's, with semaphore and markers at 0.
fn put_goal(file: &[u8], n: usize, actions: usize, out: &mut [u8]) -> usize
    requires n_le_max_variables { (n ≤ max_variables) × (actions ≤ max_actions) × Stands file.now n (1 + 2 * n) }
    requires actions_in_bounds { length (write_partial (goal_in file.now n actions)) ≤ length out.old }
    ensures { Wrote (write_partial (goal_in file.now n actions)) out.old out.new result }
{
    let zeros = [0; Task::MAX_MARKERS];
    let further = 1 + actions;
    let bits = row_of_bits(n, further);
    let goal = 1 + 2 * n;
    let end = goal + length_at(file, goal);
    put_extended(file, goal, end, bits, &zeros[..further], out)
}

// The map with the bits of `count` variables from n on.
fn row_of_bits(n: usize, count: usize) -> u64
    requires { n + count < 64 }
    ensures { result + 2 ^ n ≡ 2 ^ (n + count) }
{
    bit(n + count) - bit(n)
}
