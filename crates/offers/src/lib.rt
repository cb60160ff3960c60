// The facts of a partial state in place: the sum of their numbers, and what is offered to them.
#![tactic(auto)]

mod inside;
pub mod rounds;

ghost use Rattle.std.specs.Prelude.{◌≡◌, ◌+◌, ◌≤◌, length};
ghost use Rattle.std.specs.Int.Count.{ones};
ghost use Rattle.facts.specs.Partial.{standing_at, partial_at, past_partial};
ghost use Rattle.estimate.specs.Number.{number, ranked};
ghost use Rattle.estimate.specs.Facts.{number_in};
ghost use Rattle.estimate.specs.Additive.{sum_from};
ghost use Rattle.estimate.specs.Ranks.{rank_number, SumEnds, HasRanks, Fell, after_offer, after_fact};

use crate::inside::{fact_lowered, inside, lower_inside, sum_inside};
use estimate::Est;
use estimate::ranks::{NEVER, rank_of, sum_rank};
use facts::number::read_map;
use partial::standing_bits;
use probefile::Probe;

// The sum of the numbers of a partial state's facts, by its rank, and where the partial state ends; a sum that is never says nothing about the end.
#[derive(Clone, Copy, Debug, PartialEq, Eq)]
pub struct Summed {
    pub rank: u64,
    pub end: usize,
}

// The sum of the numbers of the facts of the partial state at an offset, for n variables.
pub fn sum_at(file: &[u8], at: usize, n: usize, ranks: &[u64]) -> Summed
    ensures rank_value { ranked result.rank ≡ sum_from (rank_number ranks.now) 0 n (partial_at file.now at) }
    ensures sum_ends { SumEnds file.now (past_partial file.now at) result.rank result.end }
{
    let Ok(map) = read_map(file, at) else {
        return Summed {
            rank: 0,
            end: file.len() + 1, // past the end of the file all offsets are alike
        };
    };
    if inside(file, at + 8, map, n, ranks.len()) {
        return sum_inside(file, at + 8, map, ranks);
    }
    values_sum(file, at, map, n, ranks)
}

// The same for the standing bits of the map at an offset, and never stays never.
fn values_sum(file: &[u8], at: usize, map: u64, n: usize, ranks: &[u64]) -> Summed
    requires { at + 8 ≤ length file.now }
    ensures rank_value { ranked result.rank ≡ sum_from (rank_number ranks.now) 0 n (standing_at file.now map (at + 8)) }
    ensures sum_ends { SumEnds file.now (at + 8 + ones map) result.rank result.end }
{
    let mut total: u64 = 0;
    let mut end = at + 8;
    for v in standing_bits(map) {
        if NEVER <= total {
            return Summed { rank: total, end };
        }
        if n <= v {
            return Summed {
                rank: total,
                end: at + partial::partial_length(map),
            };
        }
        if file.len() <= end {
            return Summed {
                rank: total,
                end: at + partial::partial_length(map),
            };
        }
        total = sum_rank(total, rank_of(ranks, v, file[end] as usize));
        end += 1;
    }
    Summed { rank: total, end }
}

// The goal facts' sum, by the array of facts, which stays where it is: of the partial state at an offset, for n variables.
pub fn goal_sum(file: &[u8], at: usize, n: usize, numbers: &[Est]) -> Est
    ensures { number result ≡ sum_from (number_in numbers.now) 0 n (partial_at file.now at) }
{
    let mut total = Est::Exact(0);
    let Ok(map) = read_map(file, at) else {
        return total;
    };
    let mut end = at + 8;
    for v in standing_bits(map) {
        if n <= v {
            return total;
        }
        if file.len() <= end {
            return total;
        }
        let i = v * Probe::MAX_VALUES + file[end] as usize;
        if numbers.len() <= i {
            return Est::Never;
        }
        total = estimate::sum(total, numbers[i]);
        end += 1;
    }
    total
}

// Offers a number, by its rank, to each fact of the partial state at an offset, which then has the lesser of its own and the offer; whether a rank fell.
pub fn lower_at(file: &[u8], at: usize, offer: u64, ranks: &mut [u64]) -> bool
    ensures has_ranks { HasRanks ranks.new (after_offer (record { effect = partial_at file.now at; number = ranked offer }) (rank_number ranks.old)) }
    ensures fell { Fell ranks.old ranks.new result }
{
    let Ok(map) = read_map(file, at) else {
        return false;
    };
    if inside(file, at + 8, map, Probe::MAX_VARIABLES, ranks.len()) {
        return lower_inside(file, at + 8, map, offer, ranks);
    }
    values_lowered(file, at + 8, map, offer, ranks)
}

// The same for the values from an offset on, for the standing bits of a map.
fn values_lowered(file: &[u8], from: usize, map: u64, offer: u64, ranks: &mut [u64]) -> bool
    ensures has_ranks { HasRanks ranks.new (after_offer (record { effect = standing_at file.now map from; number = ranked offer }) (rank_number ranks.old)) }
    ensures fell { Fell ranks.old ranks.new result }
{
    let mut fell = false;
    let mut at = from;
    for v in standing_bits(map) {
        if Probe::MAX_VARIABLES <= v {
            return fell;
        }
        if file.len() <= at {
            return fell;
        }
        fell |= lower_fact(v, file[at] as usize, offer, ranks);
        at += 1;
    }
    fell
}

// The same for the fact that variable v has the value d.
fn lower_fact(v: usize, d: usize, offer: u64, ranks: &mut [u64]) -> bool
    ensures has_ranks { HasRanks ranks.new (after_fact (ranked offer) v d (rank_number ranks.old)) }
    ensures fell { Fell ranks.old ranks.new result }
{
    if Probe::MAX_VARIABLES <= v {
        return false;
    }
    if Probe::MAX_VALUES <= d {
        return false;
    }
    if ranks.len() <= v * Probe::MAX_VALUES + d {
        return false;
    }
    fact_lowered(v, d, offer, ranks)
}
