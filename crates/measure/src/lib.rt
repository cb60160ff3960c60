// A plan measured by its run, before its probe list is written.
#![tactic(auto)]

ghost use Rattle.std.specs.Prelude.{◌≡◌};
ghost use Rattle.measure.specs.Measure.{measured, measured_answer};

use facts::Refusal;
use taskfile::Walked;

// What the run of a plan comes to, and how many entries the list has that expanding returns.
#[derive(Clone, Copy, Debug, PartialEq, Eq)]
pub struct Measured {
    pub run: Walked,
    pub steps: usize,
}

// Runs a list of actions once: two steps come from each action, and one from each node that is passed. Refusals as `task::run`.
pub fn measure(file: &[u8], list: &[u16]) -> Result<Measured, Refusal>
    ensures { measured_answer result ≡ measured file.now list.now }
{
    let run = task::run(file, list)?;
    Ok(Measured {
        run,
        steps: 2 * list.len() + run.passed,
    })
}
