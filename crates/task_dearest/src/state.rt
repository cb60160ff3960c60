// The walk from node 1 that keeps the greatest cost, and the state that it gives.
ghost use Rattle.std.specs.Prelude.{◌≡◌, ◌+◌, ◌≤◌, ◌<◌, length, get_or};
ghost use Rattle.dearest.specs.ByWalk.{value_at, next_at, dearest_by_walk};
ghost use Rattle.task_dearest.specs.Course.{action_of, Ready};

use crate::edge::first_costing;
use facts::number::offset_at;
use taskfile::Task;

// The value of a variable that the walk does not pass.
const UNPASSED: u8 = 0;

// What the walk goes by: the `count` nodes of the action at an offset, which begin at the offsets `nodes`, and the table of the greatest from each number on.
#[derive(Clone, Copy)]
pub struct Course<'a> {
    pub file: &'a [u8],
    pub sizes: &'a [u8],
    pub at: usize,
    pub nodes: &'a [usize],
    pub count: usize,
    pub table: &'a [u32],
}

// A turn of the walk: the value of a variable, and the number to go on from.
#[derive(Clone, Copy, Debug, PartialEq, Eq)]
struct Turn {
    value: u8,
    next: usize,
}

impl Course<'_> {
    // The state of the walk, variable by variable.
    pub fn put_state(&self, state: &mut [u8])
        requires ready { Ready self.now }
        requires wide { length state.old ≡ length self.now.sizes.now }
        ensures { state.new ≡ dearest_by_walk self.now.sizes.now (action_of self.now) }
    {
        let mut k: usize = 1;
        for v in 0..self.sizes.len() {
            let turn = self.turn_at(k, v);
            state[v] = turn.value;
            k = turn.next;
        }
    }

    // At number k, the value of variable v: the first that keeps the greatest cost where node k tests it, and on by its edge; else 0, and on from number k.
    fn turn_at(&self, k: usize, v: usize) -> Turn
        requires ready { Ready self.now }
        requires number { (1 ≤ k) × (k ≤ self.now.count + 1) }
        requires variable { v < length self.now.sizes.now }
        ensures value_value { result.value ≡ value_at self.now.sizes.now (action_of self.now).nodes k v (get_or self.now.sizes.now v 0) }
        ensures next_value { result.next ≡ next_at self.now.sizes.now (action_of self.now).nodes k v result.value }
        ensures le_next { (1 ≤ result.next) × (result.next ≤ self.now.count + 1) }
    {
        if self.count < k {
            return Turn {
                value: UNPASSED,
                next: k,
            };
        }
        let node = offset_at(self.nodes, k - 1);
        if (self.file[node] as usize) != v {
            return Turn {
                value: UNPASSED,
                next: k,
            };
        }
        let value = first_costing(self.file, node, self.sizes[v], self.table, self.table[k]);
        Turn {
            value,
            next: self.file[node + (1 + Task::EDGE_BYTES * (value as usize))] as usize,
        }
    }
}
