// The sets of a relaxed state narrowed to the values of a precondition, in a copy.
#![tactic(auto)]

ghost use Rattle.std.specs.Prelude.{◌≡◌, ◌%◌, ◌≤◌, ◌<◌, length, slice_get};
ghost use Rattle.facts.specs.Answers.{answer};
ghost use Rattle.facts.specs.Lists.{All};
ghost use Rattle.facts.specs.Partial.{standing_at, partial_at};
ghost use Rattle.value.specs.ValueLaws.{if_stands};
ghost use Rattle.relaxation.specs.RelaxedTask.{check_meets};
ghost use Rattle.relaxation.specs.Narrowing.{kept_set, Narrows};

use facts::Refusal;
use facts::number::read_map;

// The sets narrowed to the values of the partial state at an offset, in a copy as long as they are: 17 at the lowest variable whose set lacks its value.
pub fn narrow(file: &[u8], at: usize, sets: &[u8], copy: &mut [u8]) -> Result<(), Refusal>
    requires { All (λ set. 0 < set) sets.now × (length copy.old ≡ length sets.now) }
    ensures result_value { answer result ≡ check_meets (partial_at file.now at) sets.now }
    ensures narrows { Narrows (partial_at file.now at) sets.now copy.new }
{
    match read_map(file, at) {
        Err(_) => narrow_by(file, 0, 0, sets, copy),
        Ok(map) => narrow_by(file, at + 8, map, sets, copy),
    }
}

// The same by the map, whose values begin at an offset: each turn takes its lowest bit away, and the value with it if it stands.
fn narrow_by(
    file: &[u8],
    values: usize,
    map: u64,
    sets: &[u8],
    copy: &mut [u8],
) -> Result<(), Refusal>
    requires { (values ≤ length file.now) × All (λ set. 0 < set) sets.now × (length copy.old ≡ length sets.now) }
    ensures result_value { answer result ≡ check_meets (standing_at file.now map values) sets.now }
    ensures narrows { Narrows (standing_at file.now map values) sets.now copy.new }
{
    let mut rest = map;
    let mut at = values;
    for (v, set) in sets.iter().enumerate() {
        let kept = kept_set(*set, next_value(file, at, rest));
        if kept == 0 {
            return Err(Refusal::Lacking(v));
        }
        copy[v] = kept;
        at += (rest % 2) as usize;
        rest /= 2;
    }
    Ok(())
}

// The value at an offset, if the lowest bit of a map stands and the file goes on.
fn next_value(file: &[u8], at: usize, map: u64) -> Option<u8>
    ensures { result ≡ if_stands (map % 2) (slice_get file.now at) }
{
    if map % 2 == 0 {
        return None;
    }
    file.get(at).copied()
}

// A set without all values but one, if there is one.
fn kept_set(set: u8, value: Option<u8>) -> u8
    ensures { result ≡ kept_set set value }
{
    match value {
        None => set,
        Some(d) => value_alone(set, d),
    }
}

// A set without all values but d.
fn value_alone(set: u8, d: u8) -> u8
    ensures { result ≡ kept_set set (Some d) }
{
    if 8 <= d {
        return 0;
    }
    ((set >> d) % 2) << d
}
