// The steps of an action: start, edges, end. With n variables of the task, variable n is the semaphore, and n + 1 + a the marker of action a.
ghost use Rattle.std.specs.Prelude.{◌≡◌, ◌+◌, ◌≤◌, ◌<◌, length};
ghost use Rattle.facts.specs.Partial.{partial_at, write_partial, past_partial};
ghost use Rattle.facts.specs.Write.{Wrote};
ghost use Rattle.taskfile.specs.Task.{max_nodes};
ghost use Rattle.probefile.specs.Probe.{max_variables};
ghost use Rattle.taskfile.specs.TaskFile.{edge_bytes};
ghost use Rattle.taskfile.specs.WalkInPlace.{incoming_place};
ghost use Rattle.probefile.specs.ProbeFile.{write_step};
ghost use Rattle.compilation.specs.Extend.{extend};
ghost use Rattle.compilation.specs.Compile.{edge_step};
ghost use Rattle.taskfile.specs.PartsInPlace.{edge_in, Stands};
ghost use Rattle.step_writer.specs.InPlace.{start_in, end_in};

use crate::marks::Marks;
use crate::put::{put_extended, put_one, put_two, put_word, two_bits};
use facts::number::{byte_at, word_at};
use taskfile::Task;

// The partial state at an offset, which ends at `end`, with semaphore and marker at 0.
pub fn put_cleared(file: &[u8], at: usize, end: usize, marks: Marks, out: &mut [u8]) -> usize
    requires stands { Stands file.now marks.n at × (end ≡ past_partial file.now at) }
    requires a_in_bounds { length (write_partial (extend (extend (partial_at file.now at) marks.n 0) (marks.n + (1 + marks.a)) 0)) ≤ length out.old }
    ensures { Wrote (write_partial (extend (extend (partial_at file.now at) marks.n 0) (marks.n + (1 + marks.a)) 0)) out.old out.new result }
{
    put_extended(
        file,
        at,
        end,
        two_bits(marks.n, marks.marker()),
        &[0, 0],
        out,
    )
}

// The start of an action at an offset, whose effect and incoming weight stand at these: its precondition, semaphore and marker at 0; sets both to 1; costs the incoming weight.
pub fn put_start(
    file: &[u8],
    at: usize,
    effect: usize,
    incoming: usize,
    marks: Marks,
    out: &mut [u8],
) -> usize
    requires stands { Stands file.now marks.n at × (effect ≡ past_partial file.now at) × (incoming ≡ incoming_place file.now at) }
    requires at_in_bounds { length (write_step (start_in file.now marks.n marks.a at)) ≤ length out.old }
    ensures { Wrote (write_step (start_in file.now marks.n marks.a at)) out.old out.new result }
{
    let weight = word_at(file, incoming);
    let marker = marks.marker();
    let pre = put_cleared(file, at, effect, marks, out);
    let eff = pre + put_two(marks.n, 1, marker, 1, &mut out[pre..]);
    eff + put_word(&mut out[eff..], weight)
}

// The edge at an offset, of node i of an action, for the value d of its variable v: the marker goes from i to the target; costs the edge's weight.
pub fn put_edge(
    file: &[u8],
    at: usize,
    marks: Marks,
    i: u8,
    v: usize,
    d: u8,
    out: &mut [u8],
) -> usize
    requires v_lt_max_variables { (v < max_variables) × (at + edge_bytes ≤ length file.now) }
    requires in_bounds { 21 ≤ length out.old }
    ensures { Wrote (write_step (edge_step marks.n marks.a i v d (edge_in file.now at))) out.old out.new result }
{
    let end = at + Task::EDGE_BYTES;
    let edge = &file[at..end];
    let target = byte_at(edge, 0);
    let weight = word_at(edge, 1);
    let marker = marks.marker();
    let pre = put_two(v, d, marker, i, out);
    let eff = pre + put_one(marker, target, &mut out[pre..]);
    eff + put_word(&mut out[eff..], weight)
}

// The end of an action, whose effect stands at an offset and ends at `end`, with so many nodes: its marker at the terminal; sets the effect, semaphore and marker to 0; costs nothing.
pub fn put_end(
    file: &[u8],
    effect: usize,
    end: usize,
    count: usize,
    marks: Marks,
    out: &mut [u8],
) -> usize
    requires stands { Stands file.now marks.n effect × (end ≡ past_partial file.now effect) × (count ≤ max_nodes) }
    requires count_in_bounds { length (write_step (end_in file.now marks.n marks.a effect count)) ≤ length out.old }
    ensures { Wrote (write_step (end_in file.now marks.n marks.a effect count)) out.old out.new result }
{
    let marker = marks.marker();
    let pre = put_one(marker, (1 + count) as u8, out);
    let eff = pre + put_cleared(file, effect, end, marks, &mut out[pre..]);
    eff + put_word(&mut out[eff..], 0)
}
