// A list traced from a copy of the initial values, one entry after the other.
ghost use Rattle.std.specs.Prelude.{◌+◌, ◌*◌, ◌≤◌, length, take, drop};
ghost use Rattle.probefile.specs.Probe.{max_variables, max_list};
ghost use Rattle.text.specs.Writer.{Appends};
ghost use Rattle.steps.specs.Seek.{names_in};
ghost use Rattle.failure.specs.InPlace.{pre_at, eff_at};
ghost use Rattle.trace.specs.Trace.{entries, entries_text, trace_text};

use crate::entry::{put_entry, put_state};
use facts::number::offset_at;
use probefile::Probe;
use steps::find::find_step;
use text::append::Writer;

// The trace of a list: the state is a copy of the initial values, which stand in the probe file.
pub fn put_trace(
    out: &mut Writer,
    file: &[u8],
    sizes: &[u8],
    actions: usize,
    row: &[usize],
    probe: &[u8],
    variables: usize,
    offsets: &[usize],
    list: &[u16],
    states: bool,
)
    requires variables_le_max_variables { variables ≤ max_variables }
    requires values { 1 + 2 * variables ≤ length probe.now }
    requires few { length list.now ≤ max_list }
    ensures { Appends (trace_text states (names_in file.now sizes.now actions row.now) (pre_at probe.now offsets.now) (eff_at probe.now offsets.now) list.now (take variables (drop (1 + variables) probe.now))) out.old out.new }
{
    let init = 1 + variables;
    let goal = init + variables;
    let mut state = [0; Probe::MAX_VARIABLES];
    state[..variables].copy_from_slice(&probe[init..goal]);
    put_from(
        out,
        file,
        sizes,
        actions,
        row,
        probe,
        offsets,
        list,
        states,
        &mut state[..variables],
    );
}

// The same from a state.
fn put_from(
    out: &mut Writer,
    file: &[u8],
    sizes: &[u8],
    actions: usize,
    row: &[usize],
    probe: &[u8],
    offsets: &[usize],
    list: &[u16],
    states: bool,
    state: &mut [u8],
)
    requires { length list.now ≤ max_list }
    ensures { Appends (trace_text states (names_in file.now sizes.now actions row.now) (pre_at probe.now offsets.now) (eff_at probe.now offsets.now) list.now state.old) out.old out.new }
{
    put_state(out, states, b"initial state:", state);
    put_entries(
        out, file, sizes, actions, row, probe, offsets, list, states, state,
    );
}

// The entries of a list, up to the first that does not apply.
fn put_entries(
    out: &mut Writer,
    file: &[u8],
    sizes: &[u8],
    actions: usize,
    row: &[usize],
    probe: &[u8],
    offsets: &[usize],
    list: &[u16],
    states: bool,
    state: &mut [u8],
)
    requires { length list.now ≤ max_list }
    ensures { Appends (entries_text states (entries (names_in file.now sizes.now actions row.now) (pre_at probe.now offsets.now) (eff_at probe.now offsets.now) 0 list.now state.old)) out.old out.new }
{
    let mut sum: u64 = 0;
    for i in 0..list.len() {
        let k = list[i];
        let Ok((name, cost)) = find_step(file, sizes, actions, row, k as usize) else {
            return;
        };
        let place = offset_at(offsets, k as usize);
        let Some(paid) = put_entry(out, probe, place, k, name, cost, sum, states, state) else {
            return;
        };
        sum = paid;
    }
}
