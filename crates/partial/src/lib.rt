// Partial states in place: read, held against a state, applied to one; states handed in, checked.
#![tactic(auto)]

pub mod state;

ghost use Rattle.std.specs.Prelude.{◌≡◌, ◌+◌, ◌^◌, ◌≤◌, ◌<◌, leb, length, is_some, IfSome};
ghost use Rattle.std.specs.Int.Count.{ones};
ghost use Rattle.facts.specs.Answers.{answer};
ghost use Rattle.facts.specs.Bits.{LowestBit};
ghost use Rattle.facts.specs.Partial.{holds, apply, partial_bytes, standing_at, partial_at, past_partial, Alike};
ghost use Rattle.facts.specs.Fields.{next_of, standing, read_value, read_values, read_partial, read_operator};
ghost use Rattle.std.specs.Iterator.{at_most};
ghost use Rattle.partial.specs.Standing.{Takes};

use facts::Refusal;
use facts::number::{read_map, read_word};

// The length in bytes of a partial state with this map: "The count of standing bits is the count of value bytes."
pub fn partial_length(map: u64) -> usize
    ensures { result ≡ 8 + ones map }
{
    8 + (u64::count_ones(map) as usize)
}

// The length in bytes of the partial state at an offset, as its map stands.
pub fn length_at(file: &[u8], at: usize) -> usize
    ensures { (result ≡ partial_bytes (partial_at file.now at)) × (result ≤ 72) }
{
    match read_map(file, at) {
        Ok(map) => partial_length(map),
        Err(_) => 8,
    }
}

// Past the partial state at an offset, checked against the domain sizes of the variables.
pub fn partial_end(file: &[u8], at: usize, sizes: &[u8]) -> Result<usize, Refusal>
    ensures { answer result ≡ next_of (read_partial file.now sizes.now at) }
{
    let map = read_map(file, at)?;
    if stray(map, sizes.len()) {
        return Err(Refusal::Stray(at));
    }
    values_end(file, at + 8, map, sizes)?;
    Ok(at + partial_length(map))
}

// Past an operator: precondition, effect, weight.
pub fn operator_end(file: &[u8], at: usize, sizes: &[u8]) -> Result<usize, Refusal>
    ensures { answer result ≡ next_of (read_operator file.now sizes.now at) }
{
    let effect = partial_end(file, at, sizes)?;
    let weight = partial_end(file, effect, sizes)?;
    read_word(file, weight)?;
    Ok(weight + 2)
}

// Whether a map has a bit for no variable, of n; or a set one for no value.
pub fn stray(map: u64, n: usize) -> bool
    ensures { result ≡ leb (2 ^ n) map }
{
    if 64 <= n {
        return false;
    }
    if map >> n == 0 {
        return false;
    }
    true
}

// The lowest standing bit of a map: how many bits lie below it, and the bits above it.
#[derive(Clone, Copy, Debug, PartialEq, Eq)]
pub struct Bit {
    pub zeros: usize,
    pub above: u64,
}

// The lowest standing bit; below it there are 64 where none stands.
pub fn lowest_bit(map: u64) -> Bit
    ensures { LowestBit map result.zeros result.above }
{
    if map == 0 {
        return Bit {
            zeros: 64,
            above: 0,
        };
    }
    let zeros = u64::trailing_zeros(map);
    Bit {
        zeros: zeros as usize,
        above: (map >> zeros) / 2,
    }
}

// The standing bits of a map, the lowest first, by number.
#[derive(Clone, Copy, Debug, PartialEq, Eq)]
pub struct Standing {
    rest: u64,
}

impl Iterator for Standing {
    type Item = usize;

    ghost remaining = { λ s. at_most s.rest };

    ghost next_gives = { λ s bit s'. Takes s.rest bit s'.rest };

    fn next(&mut self) -> Option<usize> {
        if self.rest == 0 {
            return None;
        }
        let bit = lowest_bit(self.rest).zeros;
        self.rest &= self.rest - 1;
        Some(bit)
    }
}

// The bits that stand in a map.
pub fn standing_bits(map: u64) -> Standing
    ensures { result.rest ≡ map }
{
    Standing { rest: map }
}

// Past the value of a variable that has size values.
pub fn value_end(file: &[u8], at: usize, size: u8) -> Result<usize, Refusal>
    ensures { answer result ≡ next_of (read_value file.now size at) }
{
    if file.len() <= at {
        return Err(Refusal::Ends(at));
    }
    if file[at] < size {
        Ok(at + 1)
    } else {
        Err(Refusal::Outside(at))
    }
}

// Past the values for the standing bits of a map: one test tells whether the file has all of them.
fn values_end(file: &[u8], from: usize, map: u64, sizes: &[u8]) -> Result<usize, Refusal>
    requires { (from ≤ length file.now) × (map < 2 ^ length sizes.now) }
    ensures { answer result ≡ next_of (read_values file.now (standing map sizes.now) from) }
{
    if file.len() - from < partial_length(map) - 8 {
        return values_cut(file, from, map, sizes);
    }
    values_whole(file, from, map, sizes)
}

// The same, where the file has all of them, from one standing bit to the next.
fn values_whole(file: &[u8], from: usize, map: u64, sizes: &[u8]) -> Result<usize, Refusal>
    requires { (from + ones map ≤ length file.now) × (map < 2 ^ length sizes.now) }
    ensures { answer result ≡ next_of (read_values file.now (standing map sizes.now) from) }
{
    let mut at = from;
    for v in standing_bits(map) {
        if file[at] < sizes[v] {
            at += 1;
            continue;
        }
        return Err(Refusal::Outside(at));
    }
    Ok(at)
}

// The same, value by value.
fn values_cut(file: &[u8], from: usize, map: u64, sizes: &[u8]) -> Result<usize, Refusal>
    ensures { answer result ≡ next_of (read_values file.now (standing map sizes.now) from) }
{
    let mut at = from;
    for v in standing_bits(map) {
        if sizes.len() <= v {
            return Ok(at);
        }
        at = value_end(file, at, sizes[v])?;
    }
    Ok(at)
}

// Whether the partial state at an offset holds in a state, and if so where it ends.
pub fn held_at(file: &[u8], at: usize, state: &[u8]) -> Option<usize>
    ensures result_value { is_some result ≡ holds (partial_at file.now at) state.now }
    ensures ends_alike { IfSome result (λ end. Alike file.now end (past_partial file.now at)) }
{
    match read_map(file, at) {
        Err(_) => Some(past_map(file, at)),
        Ok(map) => values_hold(file, at + 8, map, state),
    }
}

// Whether the partial state at an offset holds in a state.
pub fn holds_at(file: &[u8], at: usize, state: &[u8]) -> bool
    ensures { result ≡ holds (partial_at file.now at) state.now }
{
    held_at(file, at, state).is_some()
}

// Past the eight bytes of a map; past the end of the file the offset stays.
fn past_map(file: &[u8], at: usize) -> usize
    ensures { Alike file.now result (at + 8) }
{
    if file.len() < at {
        return at;
    }
    at + 8
}

// Whether the values from an offset on, for the standing bits of a map, are those of a state.
fn values_hold(file: &[u8], from: usize, map: u64, state: &[u8]) -> Option<usize>
    requires { from ≤ length file.now }
    ensures result_value { is_some result ≡ holds (standing_at file.now map from) state.now }
    ensures ends_at { IfSome result (λ end. end ≡ from + ones map) }
{
    let mut at = from;
    for v in standing_bits(map) {
        if state.len() <= v {
            return Some(past_values(from, map));
        }
        if file.len() <= at {
            return None;
        }
        if file[at] != state[v] {
            return None;
        }
        at += 1;
    }
    Some(at)
}

// Past as many values as a map has standing bits.
fn past_values(at: usize, map: u64) -> usize
    requires { at + 64 < 2 ^ 64 }
    ensures { result ≡ at + ones map }
{
    at + (u64::count_ones(map) as usize)
}

// Sets the facts of the partial state at an offset in a state, and goes past it.
pub fn apply_at(file: &[u8], at: usize, state: &mut [u8]) -> usize
    ensures state_after { state.new ≡ apply (partial_at file.now at) state.old }
    ensures alike { Alike file.now result (past_partial file.now at) }
{
    match read_map(file, at) {
        Err(_) => past_map(file, at),
        Ok(map) => values_set(file, at + 8, map, state),
    }
}

// Sets the values from an offset on, for the standing bits of a map, in a state, and goes past them.
fn values_set(file: &[u8], from: usize, map: u64, state: &mut [u8]) -> usize
    requires { from ≤ length file.now }
    ensures state_after { state.new ≡ apply (standing_at file.now map from) state.old }
    ensures value { result ≡ from + ones map }
{
    let mut at = from;
    for v in standing_bits(map) {
        if state.len() <= v {
            return past_values(from, map);
        }
        if file.len() <= at {
            return past_values(from, map);
        }
        state[v] = file[at];
        at += 1;
    }
    at
}
