// A list run up to its first entry that does not apply.
ghost use Rattle.std.specs.Prelude.{◌≡◌};
ghost use Rattle.facts.specs.Partial.{holds, partial_at, past_partial};
ghost use Rattle.failure.specs.InPlace.{advanced, halt_in, halted_answer};

use crate::Stop;
use facts::Refusal;
use partial::{apply_at, held_at};

// Whether the action or step at an offset applies in a state, which then has its effect.
fn advance(file: &[u8], place: usize, state: &mut [u8]) -> bool
    ensures value { result ≡ holds (partial_at file.now place) state.old }
    ensures state_after { state.new ≡ advanced (partial_at file.now place) (partial_at file.now (past_partial file.now place)) state.old }
{
    match held_at(file, place, state) {
        None => false,
        Some(effect) => {
            apply_at(file, effect, state);
            true
        }
    }
}

// Runs a list from a state, where `offsets` has the offset of each action or step, to its end: the entry that stops it, none past the last, or 11 at the index of a number that there is not.
pub fn halt(
    file: &[u8],
    offsets: &[usize],
    list: &[u16],
    state: &mut [u8],
) -> Result<Option<Stop>, Refusal>
    ensures { halted_answer file.now result state.new ≡ halt_in file.now offsets.now 0 list.now state.old }
{
    for i in 0..list.len() {
        let number = list[i] as usize;
        if offsets.len() <= number {
            return Err(Refusal::Missing(i));
        }
        let place = offsets[number];
        let applies = advance(file, place, state);
        if !applies {
            return Ok(Some(Stop {
                entry: i,
                number,
                place,
            }));
        }
    }
    Ok(None)
}
