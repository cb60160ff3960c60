// The estimate of a probe file, in place: one array of ranks, which steps lower in turn.
ghost use Rattle.std.specs.Prelude.{◌≡◌, ◌<◌, map, length, get_or};
ghost use Rattle.facts.specs.Partial.{partial_at};
ghost use Rattle.facts.specs.Fields.{word_at};
ghost use Rattle.estimate.specs.Number.{number};
ghost use Rattle.estimate.specs.Additive.{additive};
ghost use Rattle.estimate.specs.Ranks.{rank_number, HasRanks, Fell};
ghost use Rattle.probefile.specs.InPlace.{step_at, Costed};
ghost use Rattle.probe_estimate.specs.Estimate.{achiever_at, after_step, Ready};

use estimate::Est;
use estimate::ranks::{NEVER, sum_rank};
use offers::rounds::Achievers;
use probefile::Probe;

// The arrays of ranks of files that have few variables: for so many, and with so many places each.
const FEWEST: usize = 3;

const FEWEST_FACTS: usize = FEWEST * Probe::MAX_VALUES;

const FEWER: usize = 8;

const FEWER_FACTS: usize = FEWER * Probe::MAX_VALUES;

const FEW: usize = 16;

const FEW_FACTS: usize = FEW * Probe::MAX_VALUES;

const FACTS: usize = Probe::FACTS;

// The estimate from a state: `offsets` has the offset of each step, and the goal starts at `goal`. An array is filled in whole, so the smallest that has room for all facts is taken.
pub fn settle(file: &[u8], sizes: &[u8], goal: usize, offsets: &[usize], state: &[u8]) -> Est
    requires { Ready file.now sizes.now goal offsets.now }
    ensures { number result ≡ additive sizes.now (map (achiever_at file.now) offsets.now) (partial_at file.now goal) state.now }
{
    let steps = Steps {
        file,
        sizes,
        offsets,
    };
    if sizes.len() <= FEWEST {
        return offers::rounds::settle::<FEWEST_FACTS, _>(&steps, file, sizes, goal, state);
    }
    if sizes.len() <= FEWER {
        return offers::rounds::settle::<FEWER_FACTS, _>(&steps, file, sizes, goal, state);
    }
    if sizes.len() <= FEW {
        return offers::rounds::settle::<FEW_FACTS, _>(&steps, file, sizes, goal, state);
    }
    offers::rounds::settle::<FACTS, _>(&steps, file, sizes, goal, state)
}

// The steps of a file, by the offset of each.
#[derive(Clone, Copy)]
struct Steps<'a> {
    file: &'a [u8],
    sizes: &'a [u8],
    offsets: &'a [usize],
}

impl Achievers for Steps<'_> {
    ghost ready = { λ steps. Costed steps.file.now steps.offsets.now };

    ghost variables = { λ steps. length steps.sizes.now };

    ghost achievers = { λ steps. map (achiever_at steps.file.now) steps.offsets.now };

    fn offer(&self, ranks: &mut [u64]) -> bool {
        let mut fell = false;
        for (k, at) in self.offsets.iter().enumerate() {
            let cost = cost_place(self.file, self.offsets, k);
            if offer_step(self.file, *at, cost, self.sizes.len(), ranks) {
                fell = true;
            }
        }
        fell
    }
}

// Where the cost of step number k stands: before the next step, or before the end of the file.
fn cost_place(file: &[u8], offsets: &[usize], k: usize) -> usize
    requires { (k < length offsets.now) × Costed file.now offsets.now }
    ensures { word_at file.now result ≡ (step_at file.now (get_or offsets.now k 0)).cost }
{
    if k + 1 < offsets.len() {
        return offsets[k + 1] - 2;
    }
    file.len() - 2
}

// The same as for all steps for the step at an offset, whose cost stands at `cost`.
fn offer_step(file: &[u8], at: usize, cost: usize, n: usize, ranks: &mut [u64]) -> bool
    requires { word_at file.now cost ≡ (step_at file.now at).cost }
    ensures has_ranks { HasRanks ranks.new (after_step file.now at n (rank_number ranks.old)) }
    ensures fell { Fell ranks.old ranks.new result }
{
    let known = offers::sum_at(file, at, n, ranks);
    if NEVER <= known.rank {
        return false; // never is offered to no effect
    }
    let offer = sum_rank(known.rank, facts::number::word_at(file, cost) as u64);
    offers::lower_at(file, known.end, offer, ranks)
}
