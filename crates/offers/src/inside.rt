// Sums and offers for partial states that lie inside the file and whose variables have room among the ranks: what their loops need to know is tested once, before them.
ghost use Rattle.std.specs.Prelude.{◌≡◌, true, ℕ, ◌+◌, ◌*◌, ◌/◌, ◌^◌, ◌≤◌, ◌<◌, min, length};
ghost use Rattle.std.specs.Int.Count.{ones};
ghost use Rattle.facts.specs.Partial.{standing_at};
ghost use Rattle.estimate.specs.Number.{ranked};
ghost use Rattle.estimate.specs.Facts.{most_variables, most_values};
ghost use Rattle.estimate.specs.Additive.{sum_from};
ghost use Rattle.estimate.specs.Ranks.{rank_number, Room, Inside, SumEnds, HasRanks, Fell, after_offer, after_fact};

use crate::Summed;
use estimate::ranks::{NEVER, OVER};
use partial::standing_bits;
use probefile::Probe;

// Whether the file goes on from an offset for as many values as any map has, and a map has bits for such variables alone, of the first n, as have room among so many ranks.
pub fn inside(file: &[u8], from: usize, map: u64, n: usize, count: usize) -> bool
    requires { from ≤ length file.now }
    ensures { result ≡ true → Inside file.now from map count × (map < 2 ^ n) }
{
    if partial::stray(map, with_room(n, count)) {
        return false;
    }
    64 <= file.len() - from
}

// How many variables, of the first n, have room among so many ranks.
fn with_room(n: usize, count: usize) -> usize
    ensures { result ≡ min (min n most_variables) (count / most_values) }
{
    n.min(Probe::MAX_VARIABLES).min(count / Probe::MAX_VALUES)
}

// The sum of the numbers of the facts that a map has values for from an offset on, and where they end. Ranks below never's are added up, and the sum is over from over's rank on.
pub fn sum_inside(file: &[u8], from: usize, map: u64, ranks: &[u64]) -> Summed
    requires { Inside file.now from map (length ranks.now) }
    ensures by_index { (n : ℕ) → map < 2 ^ n → ranked result.rank ≡ sum_from (rank_number ranks.now) 0 n (standing_at file.now map from) }
    ensures sum_ends { SumEnds file.now (from + ones map) result.rank result.end }
{
    let mut total: u64 = 0;
    let mut end = from;
    for v in standing_bits(map) {
        let rank = rank_inside(ranks, v, file[end] as usize);
        if NEVER <= rank {
            return Summed { rank, end };
        }
        total += rank;
        end += 1;
    }
    Summed {
        rank: total.min(OVER),
        end,
    }
}

// The rank of the number of the fact that variable v has the value d.
fn rank_inside(ranks: &[u64], v: usize, d: usize) -> u64
    requires { (v < most_variables) × (v * most_values + most_values ≤ length ranks.now) }
    ensures { ranked result ≡ rank_number ranks.now v d }
{
    if Probe::MAX_VALUES <= d {
        return NEVER;
    }
    ranks[v * Probe::MAX_VALUES + d]
}

// Offers a number, by its rank, to each fact that a map has a value for from an offset on; whether a rank fell.
pub fn lower_inside(file: &[u8], from: usize, map: u64, offer: u64, ranks: &mut [u64]) -> bool
    requires { Inside file.now from map (length ranks.old) }
    ensures has_ranks { HasRanks ranks.new (after_offer (record { effect = standing_at file.now map from; number = ranked offer }) (rank_number ranks.old)) }
    ensures fell { Fell ranks.old ranks.new result }
{
    let mut fell = false;
    let mut at = from;
    for v in standing_bits(map) {
        fell |= value_lowered(v, file[at] as usize, offer, ranks);
        at += 1;
    }
    fell
}

// The same for the fact that variable v has the value d.
fn value_lowered(v: usize, d: usize, offer: u64, ranks: &mut [u64]) -> bool
    requires { (v < most_variables) × (v * most_values + most_values ≤ length ranks.old) }
    ensures has_ranks { HasRanks ranks.new (after_fact (ranked offer) v d (rank_number ranks.old)) }
    ensures fell { Fell ranks.old ranks.new result }
{
    if Probe::MAX_VALUES <= d {
        return false;
    }
    fact_lowered(v, d, offer, ranks)
}

// The same for a fact that has room.
pub fn fact_lowered(v: usize, d: usize, offer: u64, ranks: &mut [u64]) -> bool
    requires { Room (length ranks.old) v d }
    ensures has_ranks { HasRanks ranks.new (after_fact (ranked offer) v d (rank_number ranks.old)) }
    ensures fell { Fell ranks.old ranks.new result }
{
    let i = v * Probe::MAX_VALUES + d;
    if ranks[i] <= offer {
        return false;
    }
    ranks[i] = offer;
    true
}
