// The additive estimate of a probe file.
#![tactic(auto)]

mod rounds;

ghost use Rattle.std.specs.Prelude.{◌≡◌, ◌+◌, ◌≤◌, length};
ghost use Rattle.facts.specs.Read.{accepted, with_value};
ghost use Rattle.facts.specs.Answers.{answer};
ghost use Rattle.facts.specs.Fields.{value_of, head_at};
ghost use Rattle.probefile.specs.Probe.{max_variables, max_values};
ghost use Rattle.probefile.specs.ProbeFile.{read_step_count};
ghost use Rattle.estimate.specs.Number.{number};
ghost use Rattle.probe_estimate.specs.Estimate.{estimate_probe, InPlace};

use estimate::Est;
use facts::Refusal;
use probefile::Probe;

// The array of offsets of a file that has few steps is for so many.
const FEW_STEPS: usize = 128;

// The estimate from a state: the file's refusals, then 12 and 4 for the state. An array for all steps that a file may have is filled only where it is needed.
pub fn estimate(file: &[u8], state: &[u8]) -> Result<Est, Refusal>
    ensures { with_value number (answer result) ≡ estimate_probe file.now state.now }
{
    let (variables, at, steps) = probefile::step_index::count_steps(file)?;
    if steps <= FEW_STEPS {
        let mut few = [0; FEW_STEPS];
        return estimate_in(file, variables, at, steps, state, &mut few);
    }
    let mut offsets = [0; Probe::MAX_STEPS];
    estimate_in(file, variables, at, steps, state, &mut offsets)
}

// The same past the head, which ends at `at`, and the step count: the steps' offsets are noted in `offsets`.
fn estimate_in(
    file: &[u8],
    variables: usize,
    at: usize,
    steps: usize,
    state: &[u8],
    offsets: &mut [usize],
) -> Result<Est, Refusal>
    requires { (head_at file.now max_variables max_values ≡ accepted (variables, at)) × (value_of (read_step_count file.now at) ≡ accepted steps) × (steps ≤ length offsets.old) }
    ensures { with_value number (answer result) ≡ estimate_probe file.now state.now }
{
    let (variables, steps) = probefile::step_index::index_steps(
        file, variables, at, steps, offsets,
    )?;
    estimate_from(file, variables, &offsets[..steps], state)
}

// The same for an accepted file: `offsets` has the offset of each step.
fn estimate_from(
    file: &[u8],
    variables: usize,
    offsets: &[usize],
    state: &[u8],
) -> Result<Est, Refusal>
    requires { InPlace file.now variables offsets.now }
    ensures { with_value number (answer result) ≡ estimate_probe file.now state.now }
{
    let init = 1 + variables;
    let sizes = &file[1..init];
    partial::state::check_state(sizes, state)?;
    let goal = init + variables;
    Ok(rounds::settle(file, sizes, goal, offsets, state))
}
