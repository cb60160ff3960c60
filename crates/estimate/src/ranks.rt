// The numbers of all facts, lent as ranks: a number's rank is how many numbers are less than it. Ranks stand at variable times 66 plus value, as in
// the array of `start`. Past the end of a slice nothing is read or set.
ghost use Rattle.std.specs.Prelude.{◌≡◌};
ghost use Rattle.estimate.specs.Number.{number, sum, ranked};
ghost use Rattle.estimate.specs.Ranks.{rank_number};

use crate::Est;
use probefile::Probe;

// The ranks of over and of never.
pub const OVER: u64 = 4294967296;

pub const NEVER: u64 = 4294967297;

// All above is never's too: this rank, of bytes that are all alike, fills an array at once.
pub const UNSET: u64 = 18446744073709551615;

// The rank of a number.
pub fn rank(e: Est) -> u64
    ensures { ranked result ≡ number e }
{
    match e {
        Est::Never => NEVER,
        Est::Over => OVER,
        Est::Exact(x) => u64::from(x),
    }
}

// The number of a rank; never for all above.
pub fn ranked(n: u64) -> Est
    ensures { number result ≡ ranked n }
{
    match u32::try_from(n) {
        Ok(x) => Est::Exact(x),
        Err(_) if n == OVER => Est::Over,
        Err(_) => Est::Never,
    }
}

// The rank of the sum of two numbers.
pub fn sum_rank(a: u64, b: u64) -> u64
    ensures { ranked result ≡ sum (ranked a) (ranked b) }
{
    if NEVER <= a {
        return NEVER; // never plus anything is never
    }
    if NEVER <= b {
        return NEVER;
    }
    (a + b).min(OVER)
}

// The rank of the number of the fact that variable v has the value d.
pub fn rank_of(ranks: &[u64], v: usize, d: usize) -> u64
    ensures { ranked result ≡ rank_number ranks.now v d }
{
    if Probe::MAX_VARIABLES <= v {
        return NEVER;
    }
    if Probe::MAX_VALUES <= d {
        return NEVER;
    }
    ranks
        .get(v * Probe::MAX_VALUES + d)
        .copied()
        .unwrap_or(NEVER)
}
