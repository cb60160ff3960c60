// Probe files: checked and run. Nothing here knows of tasks or diagrams.
#![tactic(auto)]

mod step;

ghost use Rattle.std.specs.Prelude.{◌≡◌, ◌+◌, ◌*◌, ◌≤◌, length, take, drop};
ghost use Rattle.facts.specs.Answers.{answer};
ghost use Rattle.facts.specs.Partial.{partial_at};
ghost use Rattle.facts.specs.Run.{run_from};
ghost use Rattle.probefile.specs.Probe.{max_variables, max_list};
ghost use Rattle.probefile.specs.ProbeFile.{check_probe, run_probe};
ghost use Rattle.probefile.specs.InPlace.{move_at};

use crate::step::Applied;
use facts::Refusal;
use probefile::Probe;

// Whether a probe file is accepted: refusals 1 to 5.
pub fn check(file: &[u8]) -> Result<(), Refusal>
    ensures { answer result ≡ check_probe file.now }
{
    let mut offsets = [0; Probe::MAX_STEPS];
    probefile::step_index::index(file, &mut offsets)?;
    Ok(())
}

// The sum of a list of steps: the file's refusals, then 8, then per step 11 before 9, and 10 at the end.
pub fn run(file: &[u8], list: &[u16]) -> Result<u32, Refusal>
    ensures { answer result ≡ run_probe file.now list.now }
{
    let mut offsets = [0; Probe::MAX_STEPS];
    let (variables, steps) = probefile::step_index::index(file, &mut offsets)?;
    let long = Probe::MAX_LIST < list.len();
    if long {
        return Err(Refusal::Long(Probe::MAX_LIST));
    }
    run_from_start(file, variables, &offsets[..steps], list)
}

// Runs a list from the initial state: `offsets` has the offset of each step.
fn run_from_start(
    file: &[u8],
    variables: usize,
    offsets: &[usize],
    list: &[u16],
) -> Result<u32, Refusal>
    requires { (length list.now ≤ max_list) × (variables ≤ max_variables) × (1 + 2 * variables ≤ length file.now) }
    ensures { answer result ≡ run_from (length offsets.now) (move_at file.now offsets.now) (partial_at file.now (1 + 2 * variables)) 0 0 list.now (take variables (drop (1 + variables) file.now)) }
{
    let init = 1 + variables;
    let goal = init + variables;
    let mut state = [0; Probe::MAX_VARIABLES];
    state[..variables].copy_from_slice(&file[init..goal]);
    run_list(file, goal, offsets, list, &mut state[..variables])
}

// Runs a list from a state: `offsets` has the offset of each step, and the goal starts at `goal`.
fn run_list(
    file: &[u8],
    goal: usize,
    offsets: &[usize],
    list: &[u16],
    state: &mut [u8],
) -> Result<u32, Refusal>
    requires { length list.now ≤ max_list }
    ensures { answer result ≡ run_from (length offsets.now) (move_at file.now offsets.now) (partial_at file.now goal) 0 0 list.now state.old }
{
    let mut sum: u32 = 0;
    for (i, entry) in list.iter().enumerate() {
        let number = *entry as usize;
        if offsets.len() <= number {
            return Err(Refusal::Missing(i));
        }
        let answer = step::apply_step(file, offsets[number], state);
        let Applied::Next(cost) = answer else {
            return Err(Refusal::Blocked(i));
        };
        sum += cost;
    }
    if partial::holds_at(file, goal, state) {
        return Ok(sum);
    }
    Err(Refusal::Unmet(list.len()))
}
