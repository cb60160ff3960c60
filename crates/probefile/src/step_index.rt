// The one pass over a probe file that checks it and notes where each step starts.
ghost use Rattle.std.specs.Prelude.{◌≡◌, ◌≤◌, length};
ghost use Rattle.facts.specs.Read.{accepted};
ghost use Rattle.facts.specs.Answers.{answer};
ghost use Rattle.facts.specs.Fields.{next_of, value_of, head_at};
ghost use Rattle.probefile.specs.Probe.{max_variables, max_values, max_steps};
ghost use Rattle.probefile.specs.ProbeFile.{read_step_count, read_steps};
ghost use Rattle.probefile.specs.InPlace.{probe_at, CountedIn, Marked, Located};

use crate::Probe;
use facts::Refusal;

// How many variables and steps a probe file has, and the offset of each step.
pub fn index(file: &[u8], offsets: &mut [usize]) -> Result<(usize, usize), Refusal>
    requires { max_steps ≤ length offsets.old }
    ensures counted { answer result ≡ probe_at file.now }
    ensures located { Located file.now offsets.new }
{
    let (variables, at, steps) = count_steps(file)?;
    index_steps(file, variables, at, steps, offsets)
}

// What stands before the steps: how many variables there are, where the head ends, and how many steps there are.
pub fn count_steps(file: &[u8]) -> Result<(usize, usize, usize), Refusal>
    ensures { CountedIn file.now result }
{
    match head::read_head(file, Probe::MAX_VARIABLES as u64, Probe::MAX_VALUES as u64) {
        // written out for its edit: `?` with another answer in place of the refusal is refused by its form alone (docs/DESIGN-PASS.md)
        Err(why) => Err(why),
        Ok((variables, at)) => {
            let steps = step_count(file, at)? as usize;
            Ok((variables, at, steps))
        }
    }
}

// The same as the index of the file, past the head, which ends at `at`, and the step count.
pub fn index_steps(
    file: &[u8],
    variables: usize,
    at: usize,
    steps: usize,
    offsets: &mut [usize],
) -> Result<(usize, usize), Refusal>
    requires { (head_at file.now max_variables max_values ≡ accepted (variables, at)) × (value_of (read_step_count file.now at) ≡ accepted steps) × (steps ≤ length offsets.old) }
    ensures counted { answer result ≡ probe_at file.now }
    ensures located { Located file.now offsets.new }
{
    let sizes_end = 1 + variables;
    let end = steps_end(file, at + 2, &file[1..sizes_end], steps, offsets)?;
    if end < file.len() {
        return Err(Refusal::Trailing(end));
    }
    Ok((variables, steps))
}

// The step count at an offset.
fn step_count(file: &[u8], at: usize) -> Result<u64, Refusal>
    ensures { answer result ≡ value_of (read_step_count file.now at) }
{
    let count = facts::number::read_word(file, at)?;
    if (Probe::MAX_STEPS as u64) < count {
        return Err(Refusal::Range(at));
    }
    Ok(count)
}

// Past the steps, noting where each starts.
fn steps_end(
    file: &[u8],
    from: usize,
    sizes: &[u8],
    count: usize,
    offsets: &mut [usize],
) -> Result<usize, Refusal>
    requires { count ≤ length offsets.old }
    ensures past { answer result ≡ next_of (read_steps file.now sizes.now count from) }
    ensures marked { Marked file.now sizes.now count from offsets.new }
{
    let mut at = from;
    for i in 0..count {
        offsets[i] = at;
        at = partial::operator_end(file, at, sizes)?;
    }
    Ok(at)
}
