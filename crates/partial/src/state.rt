// States handed in: one value for each variable.
ghost use Rattle.std.specs.Prelude.{◌≡◌};
ghost use Rattle.facts.specs.Answers.{answer};
ghost use Rattle.facts.specs.State.{check_state};

use facts::Refusal;

// Whether a state has a value inside its domain for each variable: 12 for its length, then 4 at the lowest variable.
pub fn check_state(sizes: &[u8], state: &[u8]) -> Result<(), Refusal>
    ensures { answer result ≡ check_state sizes.now state.now }
{
    if state.len() != sizes.len() {
        return Err(Refusal::Width(0));
    }
    for v in 0..sizes.len() {
        if sizes[v] <= state[v] {
            return Err(Refusal::Outside(v));
        }
    }
    Ok(())
}
