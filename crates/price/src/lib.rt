// The least from the first node of a diagram on by the numbers of facts, in place: by one pass over its nodes from the last to the first.
#![tactic(auto)]

ghost use Rattle.std.specs.Prelude.{◌≡◌, true, ◌≤◌, ◌<◌, map, length, get_or};
ghost use Rattle.facts.specs.Lists.{up_from};
ghost use Rattle.estimate.specs.Number.{never, lesser, ranked};
ghost use Rattle.estimate.specs.Ranks.{rank_number};
ghost use Rattle.taskfile.specs.PartsInPlace.{node_in, nodes_in};
ghost use Rattle.relaxation.specs.Least.{least_of};
ghost use Rattle.relaxation.specs.Pass.{least_at, least_from};
ghost use Rattle.relaxation.specs.EstimatePass.{number_pass};
ghost use Rattle.relaxation.specs.EstimateInPlace.{Climbing};
ghost use Rattle.relaxation.specs.Sums.{settled_rank, Settled, Apart, EdgesInside};
ghost use Rattle.price.specs.Choice.{number_by};

use estimate::ranks::{NEVER, OVER, rank_of, sum_rank};
use facts::number::{byte_at, offset_at};
use probefile::Probe;
use taskfile::Task;
use walk::{edge_for, weight_inside};

// Stands for never in sums of ranks: no sum of an edge's parts that are not never comes near it.
const FAR: u64 = 1099511627776;

// The rank of the least from node 1 of a diagram on, of `count` nodes that begin at the offsets `nodes`, by the numbers of these ranks. Entry k of the table is the rank of the least from node k on; the
// terminal's is 0.
pub fn least_from(file: &[u8], sizes: &[u8], count: usize, nodes: &[usize], ranks: &[u64]) -> u64
    requires { Climbing file.now sizes.now nodes.now count }
    ensures { ranked result ≡ least_from (number_pass sizes.now (rank_number ranks.now)) (nodes_in file.now sizes.now nodes.now 0 count) 1 }
{
    if count == 0 {
        return 0; // no table is needed
    }
    let mut least: [u64; Task::NUMBERS] = [0; Task::NUMBERS];
    for k in (0..count).rev() {
        least[k + 1] = least_rank(file, sizes, offset_at(nodes, k), ranks, &least);
    }
    least[1]
}

// The rank of the least from the node at an offset on, over the values of its variable: an edge's weight, the value's number and the entry of the edge's target. It has no rank between over's and the
// one that stands for never.
fn least_rank(file: &[u8], sizes: &[u8], node: usize, ranks: &[u64], least: &[u64]) -> u64
    requires { Apart least.now }
    ensures result_value { ranked result ≡ least_at (number_pass sizes.now (rank_number ranks.now)) (node_in file.now sizes.now node) (λ t. ranked (get_or least.now t 0)) }
    ensures settled { Settled result }
{
    let variable = byte_at(file, node) as usize;
    let size = byte_at(sizes, variable);
    let choice = Choice {
        file,
        node,
        variable,
        ranks,
        least,
    };
    if choice.edges_inside(size) {
        return choice.least_inside(size as usize);
    }
    let best = choice.least_by_value(size);
    if NEVER <= best {
        return FAR;
    }
    best
}

// The choice among the values of a variable, which the node at an offset tests: what each comes to is found by the ranks of the facts and by a table of the least from each later node on.
#[derive(Clone, Copy)]
struct Choice<'a> {
    file: &'a [u8],
    node: usize,
    variable: usize,
    ranks: &'a [u64],
    least: &'a [u64],
}

impl Choice<'_> {
    // Whether so many edges of the node lie inside the file, and its variable has room for as many values among the ranks.
    fn edges_inside(&self, size: u8) -> bool
        ensures { result ≡ true → EdgesInside self.now.file.now self.now.node self.now.variable size (length self.now.ranks.now) }
    {
        if self.file.len() <= self.node {
            return false;
        }
        if self.file.len() - self.node <= Task::EDGE_BYTES * (size as usize) {
            return false;
        }
        if Probe::MAX_VARIABLES <= self.variable {
            return false;
        }
        if Probe::MAX_VALUES < (size as usize) {
            return false;
        }
        self.variable * Probe::MAX_VALUES + (size as usize) <= self.ranks.len()
    }

    // The rank of the least over the values where edges and ranks are known to be there: sums are cut off at over's rank once, at the end.
    fn least_inside(&self, size: usize) -> u64
        requires inside { EdgesInside self.now.file.now self.now.node self.now.variable size (length self.now.ranks.now) }
        requires apart { Apart self.now.least.now }
        ensures result_value { ranked result ≡ least_of lesser never (map (number_by self.now) (up_from 0 size)) }
        ensures settled { Settled result }
    {
        let mut best = FAR;
        for d in 0..size {
            best = best.min(self.edge_sum(d, size));
        }
        settled(best)
    }

    // What the edge for one of so many values comes to, by a sum of ranks that is not cut off; it is far above all others if it is never.
    fn edge_sum(&self, value: usize, size: usize) -> u64
        requires inside { EdgesInside self.now.file.now self.now.node self.now.variable size (length self.now.ranks.now) }
        requires apart { Apart self.now.least.now }
        requires below { value < size }
        ensures { ranked (settled_rank result) ≡ number_by self.now value }
    {
        let number = self.ranks[self.variable * Probe::MAX_VALUES + value];
        if NEVER <= number {
            return FAR;
        }
        let at = self.node + (1 + Task::EDGE_BYTES * value);
        number + weight_inside(self.file, at + 1) + self.rank_at(self.file[at] as usize)
    }

    // The rank of the least over the values, each edge and each rank read only where it is there.
    fn least_by_value(&self, size: u8) -> u64
        ensures { ranked result ≡ least_of lesser never (map (number_by self.now) (up_from 0 size)) }
    {
        let mut best = NEVER;
        for d in 0..size {
            best = best.min(self.rank_for(d));
        }
        best
    }

    // The rank of what the edge for a value comes to.
    fn rank_for(&self, value: u8) -> u64
        ensures { ranked result ≡ number_by self.now value }
    {
        let number = rank_of(self.ranks, self.variable, value as usize);
        if NEVER <= number {
            return NEVER; // never plus anything is never
        }
        let edge = edge_for(self.file, self.node, value);
        sum_rank(
            edge.weight as u64,
            sum_rank(number, self.rank_at(edge.target)),
        )
    }

    // The rank of the least from a node on, by its number; 0 past the last.
    fn rank_at(&self, k: usize) -> u64
        ensures { result ≡ get_or self.now.least.now k 0 }
    {
        self.least.get(k).copied().unwrap_or(0)
    }
}

// The rank of a sum that is not cut off.
fn settled(sum: u64) -> u64
    ensures { result ≡ settled_rank sum }
{
    if FAR <= sum {
        return FAR;
    }
    sum.min(OVER)
}
