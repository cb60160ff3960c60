// The estimate of a task, in place: one array of ranks, which actions lower in turn.
ghost use Rattle.std.specs.Prelude.{◌≡◌, ℕ, ◌≤◌, ◌<◌, length, get_or, drop};
ghost use Rattle.facts.specs.Partial.{partial_at};
ghost use Rattle.estimate.specs.Number.{number};
ghost use Rattle.estimate.specs.Additive.{additive};
ghost use Rattle.estimate.specs.Ranks.{rank_number, HasRanks, Fell};
ghost use Rattle.estimate.specs.InTurn.{after_own};
ghost use Rattle.taskfile.specs.Row.{own_from};
ghost use Rattle.relaxation.specs.EstimateInPlace.{achiever_in, achievers_in, Priceable, Estimable};

use estimate::Est;
use estimate::ranks::{NEVER, sum_rank};
use offers::rounds::Achievers;
use price::least_from;
use probefile::Probe;
use taskfile::Task;
use walk::{diagram_past, own_nodes};

// The ranks have room for so many facts, those of 24 variables.
const FACTS: usize = Task::MAX_VARIABLES * Probe::MAX_VALUES;

// The arrays of ranks of tasks that have few variables: for so many, and with so many places each.
const FEWEST: usize = 3;

const FEWEST_FACTS: usize = FEWEST * Probe::MAX_VALUES;

const FEW: usize = 8;

const FEW_FACTS: usize = FEW * Probe::MAX_VALUES;

// The estimate from a state, by the row of the index: there are `count` actions, and the goal starts at `goal`. An array is filled in whole, so the smallest that has room for all facts is taken.
pub fn settle(
    file: &[u8],
    sizes: &[u8],
    goal: usize,
    count: usize,
    row: &[usize],
    state: &[u8],
) -> Est
    requires { Estimable file.now sizes.now goal count row.now }
    ensures { number result ≡ additive sizes.now (achievers_in file.now sizes.now row.now 0 count) (partial_at file.now goal) state.now }
{
    let actions = Actions {
        file,
        sizes,
        count,
        row,
    };
    if sizes.len() <= FEWEST {
        return offers::rounds::settle::<FEWEST_FACTS, _>(&actions, file, sizes, goal, state);
    }
    if sizes.len() <= FEW {
        return offers::rounds::settle::<FEW_FACTS, _>(&actions, file, sizes, goal, state);
    }
    offers::rounds::settle::<FACTS, _>(&actions, file, sizes, goal, state)
}

// The first `count` actions of a task, by the row of the index.
#[derive(Clone, Copy)]
struct Actions<'a> {
    file: &'a [u8],
    sizes: &'a [u8],
    count: usize,
    row: &'a [usize],
}

impl Achievers for Actions<'_> {
    ghost ready = { λ s. (s.count ≤ length s.row.now) × ((a : ℕ) → a < s.count → Priceable s.file.now s.sizes.now (get_or s.row.now a 0) (drop (own_from s.row.now a) s.row.now)) };

    ghost variables = { λ s. length s.sizes.now };

    ghost achievers = { λ s. achievers_in s.file.now s.sizes.now s.row.now 0 s.count };

    fn offer(&self, ranks: &mut [u64]) -> bool {
        let mut fell = false;
        for a in 0..self.count {
            let own = own_nodes(self.row, a);
            if offer_action(self.file, self.sizes, self.row[a], &self.row[own..], ranks) {
                fell = true;
            }
        }
        fell
    }
}

// The same for the action at an offset, whose own nodes begin at the offsets `nodes`.
fn offer_action(file: &[u8], sizes: &[u8], at: usize, nodes: &[usize], ranks: &mut [u64]) -> bool
    requires { Priceable file.now sizes.now at nodes.now }
    ensures has_ranks { HasRanks ranks.new (after_own (length sizes.now) (achiever_in file.now sizes.now at nodes.now) (rank_number ranks.old)) }
    ensures fell { Fell ranks.old ranks.new result }
{
    let known = offers::sum_at(file, at, sizes.len(), ranks);
    if NEVER <= known.rank {
        return false; // never is offered to no effect
    }
    let effect = known.end;
    let diagram = diagram_past(file, effect);
    let least = least_from(file, sizes, diagram.count, nodes, ranks);
    let offer = sum_rank(known.rank, sum_rank(diagram.incoming as u64, least));
    offers::lower_at(file, effect, offer, ranks)
}
