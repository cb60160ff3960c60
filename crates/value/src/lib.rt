// The value that a partial state in place has for a variable, found by the variable's number.
#![tactic(auto)]

ghost use Rattle.std.specs.Prelude.{◌≡◌, ◌+◌, ◌≤◌, length};
ghost use Rattle.facts.specs.Partial.{value_place, standing_at, partial_at};
ghost use Rattle.value.specs.Value.{value_of};

use facts::number::read_map;

// How far past the map's first byte the value byte of a variable lies whose bit stands in the map: each lower bit is itself added to the place.
pub fn value_place(map: u64, variable: usize) -> usize
    ensures { result ≡ value_place map variable }
{
    let mut place: usize = 8;
    let mut rest = map;
    for _ in 0..variable {
        place += (rest % 2) as usize;
        rest /= 2;
    }
    place
}

// The value that the partial state at an offset has for a variable.
pub fn value_at(file: &[u8], at: usize, variable: usize) -> Option<u8>
    ensures { result ≡ value_of (partial_at file.now at) variable }
{
    match read_map(file, at) {
        Err(_) => None,
        Ok(map) => value_in(file, at, map, variable),
    }
}

// The same, where the map at the offset is known. A map has 64 bits, so that no place is looked for past them.
fn value_in(file: &[u8], at: usize, map: u64, variable: usize) -> Option<u8>
    requires { at + 8 ≤ length file.now }
    ensures { result ≡ value_of (standing_at file.now map (at + 8)) variable }
{
    if 64 <= variable {
        return None;
    }
    let unset = (map >> variable) % 2 == 0;
    if unset {
        return None;
    }
    let place = at + value_place(map, variable);
    file.get(place).copied()
}
