// The trace of a probe list on the probe file written from a task file: each step with what it needs and sets, and the first that does not apply; into the caller's buffer.
#![tactic(auto)]

mod entry;
mod lines;

ghost use Rattle.std.specs.Prelude.{◌≡◌, length};
ghost use Rattle.facts.specs.Answers.{answer};
ghost use Rattle.facts.specs.Write.{length_in, written_in};
ghost use Rattle.taskfile.specs.Blank.{file_of};
ghost use Rattle.taskfile.specs.Index.{Ready};
ghost use Rattle.carry.specs.SameSumLaws.{WrittenFrom};
ghost use Rattle.steps.specs.Seek.{names_in};
ghost use Rattle.trace.specs.TraceFile.{traced};
ghost use Rattle.trace.specs.FileLaws.{Stated};

use facts::Refusal;
use index::bytes_of;
use probefile::Probe;
use taskfile::Task;

// The trace of a list, with the state after each step if asked for: the task file's refusals, then 8, then 11 at the first index that has no step, then 7 with the length needed; a refusal changes no byte.
pub fn trace(file: &[u8], list: &[u16], states: bool, out: &mut [u8]) -> Result<usize, Refusal>
    ensures result_value { answer result ≡ length_in (length out.old) (traced states file.now list.now) }
    ensures out_after { out.new ≡ written_in out.old (traced states file.now list.now) }
{
    let mut row = [0; Task::ROW];
    let (variables, actions) = index::index_in(file, &mut row)?;
    let bytes = bytes_of(file, &Task::BLANK);
    trace_in(bytes, variables, actions, &row, list, states, out)
}

// The same, of an accepted file by the bytes in which its task is found: the list is checked.
fn trace_in(
    file: &[u8],
    variables: usize,
    actions: usize,
    row: &[usize],
    list: &[u16],
    states: bool,
    out: &mut [u8],
) -> Result<usize, Refusal>
    requires { Ready file.now variables actions row.now }
    ensures result_value { answer result ≡ length_in (length out.old) (traced states (file_of file.now) list.now) }
    ensures out_after { out.new ≡ written_in out.old (traced states (file_of file.now) list.now) }
{
    if Probe::MAX_LIST < list.len() {
        return Err(Refusal::Long(Probe::MAX_LIST));
    }
    let last = 1 + variables;
    let sizes = &file[1..last];
    steps::find::check_steps(file, sizes, actions, row, list)?;
    trace_compiled(file, variables, sizes, actions, row, list, states, out)
}

// The same, of a list that is accepted: the task is compiled.
fn trace_compiled(
    file: &[u8],
    variables: usize,
    sizes: &[u8],
    actions: usize,
    row: &[usize],
    list: &[u16],
    states: bool,
    out: &mut [u8],
) -> Result<usize, Refusal>
    requires ready { Ready file.now variables actions row.now }
    requires stated { Stated (file_of file.now) list.now (names_in file.now sizes.now actions row.now) }
    ensures result_value { answer result ≡ length_in (length out.old) (traced states (file_of file.now) list.now) }
    ensures out_after { out.new ≡ written_in out.old (traced states (file_of file.now) list.now) }
{
    let mut written = [0; Task::MAX_WRITTEN];
    let length = compile::compile_in(file, variables, actions, row, &mut written)?;
    trace_written(
        file,
        sizes,
        actions,
        row,
        &written[..length],
        list,
        states,
        out,
    )
}

// The same, on the written file, whose steps are indexed.
fn trace_written(
    file: &[u8],
    sizes: &[u8],
    actions: usize,
    row: &[usize],
    probe: &[u8],
    list: &[u16],
    states: bool,
    out: &mut [u8],
) -> Result<usize, Refusal>
    requires stated { Stated (file_of file.now) list.now (names_in file.now sizes.now actions row.now) }
    requires written { WrittenFrom (file_of file.now) probe.now }
    ensures result_value { answer result ≡ length_in (length out.old) (traced states (file_of file.now) list.now) }
    ensures out_after { out.new ≡ written_in out.old (traced states (file_of file.now) list.now) }
{
    let mut offsets = [0; Probe::MAX_STEPS];
    let (variables, _) = probefile::step_index::index(probe, &mut offsets)?;
    words::write(out, |text| {
        lines::put_trace(
            text, file, sizes, actions, row, probe, variables, &offsets, list, states,
        )
    })
}
