// One step in place.
ghost use Rattle.std.specs.Prelude.{◌≡◌};
ghost use Rattle.probefile.specs.Probe.{perform};
ghost use Rattle.probefile.specs.InPlace.{step_at};
ghost use Rattle.probe.specs.Answers.{applied_move, CostMost};

// What a step answers; the state stands beside it.
// No option: document 01 names this form for the turn of a run, `let Applied::Next(cost) = answer else`.
#[derive(Clone, Copy, Debug, PartialEq, Eq)]
pub enum Applied {
    Next(u32),
    Blocked,
}

// Does the step at an offset: where its precondition holds, its effect is set in the state, and it has its cost.
pub fn apply_step(file: &[u8], at: usize, state: &mut [u8]) -> Applied
    ensures state_after { applied_move result state.new ≡ perform (step_at file.now at) state.old }
    ensures cost_most { CostMost 65535 result }
{
    let Some(effect) = partial::held_at(file, at, state) else {
        return Applied::Blocked;
    };
    let cost = partial::apply_at(file, effect, state);
    Applied::Next(facts::number::word_at(file, cost))
}
