// Rounds of offers, whoever offers: the estimate from a state, in one array of ranks, which achievers lower in turn.
ghost use Rattle.std.specs.Prelude.{◌≡◌, ℕ, List, ◌≤◌, length};
ghost use Rattle.facts.specs.Partial.{partial_at};
ghost use Rattle.estimate.specs.Number.{number};
ghost use Rattle.estimate.specs.Facts.{most_facts};
ghost use Rattle.estimate.specs.Additive.{Achiever, additive};
ghost use Rattle.estimate.specs.Ranks.{Roomy, Fresh};
ghost use Rattle.estimate.specs.InTurn.{InTurn};
ghost use Rattle.offers.specs.Rounds.{WellPosed};

use crate::goal_sum;
use estimate::Est;
use estimate::ranks::UNSET;
use probefile::Probe;

// Those who offer, as they stand in a file: what each needs, sets and costs, and how many variables there are.
pub trait Achievers {
    // that they stand in the file as it was checked
    ghost ready: { Self → Type 0 };

    ghost variables: { Self → ℕ };

    ghost achievers: { Self → List Achiever };

    // All offer in turn, each by the numbers as they are then; whether a rank fell.
    fn offer(&self, ranks: &mut [u64]) -> bool
        requires { ready self.now }
        ensures { InTurn (variables self.now) (achievers self.now) ranks.old ranks.new result };
}

// The estimate from a state, in an array of so many ranks; the goal starts at `goal`. It has a place of its own on the stack, so that arrays of other lengths do not lie beside it.
#[inline(never)]
pub fn settle<const PLACES: usize, A: Achievers>(
    all: &A,
    file: &[u8],
    sizes: &[u8],
    goal: usize,
    state: &[u8],
) -> Est
    requires ready { A.ready all.now }
    requires variables { A.variables all.now ≡ length sizes.now }
    requires posed { WellPosed sizes.now (A.achievers all.now) (partial_at file.now goal) }
    requires room { Roomy sizes.now PLACES }
    requires most { PLACES ≤ most_facts }
    ensures { number result ≡ additive sizes.now (A.achievers all.now) (partial_at file.now goal) state.now }
{
    let mut ranks = [UNSET; PLACES];
    settle_in(all, file, sizes, goal, state, &mut ranks)
}

// The same in fresh ranks, to which the numbers of the start are lent: offers until no rank falls; then the last numbers are put back into the array of facts, and the goal facts' sum is taken from it.
// There is one such array, lent and not copied, as the stack has to hold it.
fn settle_in<A: Achievers>(
    all: &A,
    file: &[u8],
    sizes: &[u8],
    goal: usize,
    state: &[u8],
    ranks: &mut [u64],
) -> Est
    requires ready { A.ready all.now }
    requires variables { A.variables all.now ≡ length sizes.now }
    requires posed { WellPosed sizes.now (A.achievers all.now) (partial_at file.now goal) }
    requires room { Roomy sizes.now (length ranks.old) }
    requires fresh { Fresh ranks.old }
    ensures { number result ≡ additive sizes.now (A.achievers all.now) (partial_at file.now goal) state.now }
{
    let mut numbers = [Est::Never; Probe::FACTS];
    estimate::start_in(state, &mut numbers, ranks);
    while all.offer(ranks) {}
    estimate::put_back(&mut numbers, sizes, ranks);
    goal_sum(file, goal, sizes.len(), &numbers)
}
