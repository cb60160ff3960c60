// The numbers of the additive heuristic, document 01's estimate, and the array that has one for every fact. What rounds over them come to is in specs/.
#![tactic(auto)]

pub mod ranks;

ghost use Rattle.std.specs.Prelude.{◌≡◌, length};
ghost use Rattle.estimate.specs.Number.{number, never, sum};
ghost use Rattle.estimate.specs.Facts.{HasNumbers, HasFacts, start_number};
ghost use Rattle.estimate.specs.Ranks.{rank_number, Roomy, HasRanks, started_over};

use crate::ranks::{rank, ranked};
use probefile::Probe;

// A number of the estimate. Never is first, for the first case is what a definition reads past the end of an array.
#[derive(Clone, Copy, Debug, PartialEq, Eq)]
pub enum Est {
    Never,
    Over,
    Exact(u32),
}

// The sum of two numbers.
pub fn sum(a: Est, b: Est) -> Est
    ensures { number result ≡ sum (number a) (number b) }
{
    match (a, b) {
        (Est::Never, _) | (_, Est::Never) => Est::Never, // never plus anything is never
        (Est::Over, _) | (_, Est::Over) => Est::Over,
        (Est::Exact(x), Est::Exact(y)) => x.checked_add(y).map_or(Est::Over, Est::Exact),
    }
}

// The numbers with which the estimate from a state starts, at variable times 66 plus value: 0 for the facts of the state, else never. Each number that is set lowers
// the rank at its index, so that ranks that are never's have the same numbers.
pub fn start(state: &[u8], ranks: &mut [u64]) -> [Est; Probe::FACTS]
    ensures has_numbers { HasNumbers result (start_number state.now) }
    ensures has_ranks { HasRanks ranks.new (started_over (rank_number ranks.old) state.now) }
{
    let mut numbers = [Est::Never; Probe::FACTS];
    start_in(state, &mut numbers, ranks);
    numbers
}

// Sets these numbers in an array that is lent and not copied, as the stack has to hold it: 0 for the facts of the state, where the array has never for every
// fact. Past 57 variables and past 66 values nothing is set. Each number that is set lowers the rank at its index, so that ranks that are never's have the same numbers.
pub fn start_in(state: &[u8], numbers: &mut [Est; Probe::FACTS], ranks: &mut [u64])
    ensures has_numbers { HasNumbers numbers.old (λ v d. never) → HasNumbers numbers.new (start_number state.now) }
    ensures has_ranks { HasRanks ranks.new (started_over (rank_number ranks.old) state.now) }
{
    for v in 0..state.len().min(Probe::MAX_VARIABLES) {
        let d = state[v] as usize;
        if Probe::MAX_VALUES <= d {
            continue;
        }
        let i = v * Probe::MAX_VALUES + d;
        numbers[i] = Est::Exact(0);
        if ranks.len() <= i {
            continue;
        }
        ranks[i] = rank(numbers[i]);
    }
}

// Puts the last numbers back into an array, from their ranks: those of all facts of the file, variable by variable and value by value.
pub fn put_back(last: &mut [Est; Probe::FACTS], sizes: &[u8], ranks: &[u64])
    requires { Roomy sizes.now (length ranks.now) }
    ensures { HasFacts sizes.now last.new (rank_number ranks.now) }
{
    for v in 0..sizes.len() {
        for d in 0..sizes[v] as usize {
            let place = v * Probe::MAX_VALUES + d;
            last[place] = ranked(ranks[place]);
        }
    }
}
