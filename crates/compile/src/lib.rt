// The probe file of a task: written into the caller's buffer.
#![tactic(auto)]

ghost use Rattle.std.specs.Prelude.{◌≡◌, length};
ghost use Rattle.facts.specs.Answers.{answer};
ghost use Rattle.taskfile.specs.Blank.{file_of};
ghost use Rattle.taskfile.specs.Index.{Ready};
ghost use Rattle.compilation.specs.CompileFile.{compile_file, compiled_buffer};

use facts::Refusal;
use index::bytes_of;
use probe_writer::action::put_actions;
use probe_writer::head_bytes::{head_length, put_head};
use probe_writer::length::extent_of;
use taskfile::Task;

// Writes the probe file of a task: the task file's refusals, then 7 where the buffer is too short; a refusal changes no byte.
pub fn compile(file: &[u8], out: &mut [u8]) -> Result<usize, Refusal>
    ensures result_value { answer result ≡ compile_file file.now (length out.old) }
    ensures out_after { out.new ≡ compiled_buffer file.now out.old }
{
    let mut row = [0; Task::ROW];
    let (variables, actions) = index::index_in(file, &mut row)?;
    let bytes = bytes_of(file, &Task::BLANK);
    compile_in(bytes, variables, actions, &row, out)
}

// The same, of an accepted file by the bytes in which its task is found and their index, which is lent, and not copied.
pub fn compile_in(
    file: &[u8],
    variables: usize,
    actions: usize,
    row: &[usize],
    out: &mut [u8],
) -> Result<usize, Refusal>
    requires { Ready file.now variables actions row.now }
    ensures result_value { answer result ≡ compile_file (file_of file.now) (length out.old) }
    ensures out_after { out.new ≡ compiled_buffer (file_of file.now) out.old }
{
    let last = 1 + variables;
    let sizes = &file[1..last];
    let extent = extent_of(file, sizes, actions, row);
    let needed = head_length(file, variables, actions) + extent.bytes;
    let short = out.len() < needed;
    if short {
        return Err(Refusal::Short(needed));
    }
    let at = put_head(file, variables, actions, row, extent.steps, out);
    let written = put_actions(file, sizes, actions, row, &mut out[at..]);
    Ok(at + written)
}
