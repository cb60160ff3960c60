// Contracting: the list of actions that a probe list comes from.
#![tactic(auto)]

mod starts;

ghost use Rattle.std.specs.Prelude.{◌≡◌, length};
ghost use Rattle.facts.specs.Answers.{answer};
ghost use Rattle.taskfile.specs.Blank.{file_of};
ghost use Rattle.taskfile.specs.Index.{Ready};
ghost use Rattle.carry.specs.CarryFile.{contracted, answer_in, buffer_in};

use facts::Refusal;
use index::bytes_of;
use taskfile::Task;

// Writes the list of actions that a probe list comes from: the task file's refusals, then 8, per step 11 before 9, 10 at the end, 8 for more than 256
// actions, and 7 where the buffer is too short; a refusal changes no entry.
pub fn contract(file: &[u8], list: &[u16], out: &mut [u16]) -> Result<(usize, u32), Refusal>
    ensures result_value { answer result ≡ answer_in (length out.old) (contracted file.now list.now) }
    ensures out_after { out.new ≡ buffer_in out.old (contracted file.now list.now) }
{
    let mut row = [0; Task::ROW];
    let (variables, actions) = index::index_in(file, &mut row)?;
    let bytes = bytes_of(file, &Task::BLANK);
    contract_in(bytes, variables, actions, &row, list, out)
}

// The same, of an accepted file by the bytes in which its task is found: a plan is followed on the task; only where a list strays from all plans its refusal is looked for on the written
// file.
fn contract_in(
    file: &[u8],
    variables: usize,
    actions: usize,
    row: &[usize],
    list: &[u16],
    out: &mut [u16],
) -> Result<(usize, u32), Refusal>
    requires { Ready file.now variables actions row.now }
    ensures result_value { answer result ≡ answer_in (length out.old) (contracted (file_of file.now) list.now) }
    ensures out_after { out.new ≡ buffer_in out.old (contracted (file_of file.now) list.now) }
{
    let mut plan = [0; Task::MAX_LIST];
    let followed = follow::follow_plan(file, variables, actions, row, list, &mut plan);
    let Some((count, sum)) = followed else {
        return contract_written(file, variables, actions, row, list, out);
    };
    let short = out.len() < count;
    if short {
        return Err(Refusal::Short(count));
    }
    out[..count].copy_from_slice(&plan[..count]);
    Ok((count, sum))
}

// The same, by a run of the list on the written file.
fn contract_written(
    file: &[u8],
    variables: usize,
    actions: usize,
    row: &[usize],
    list: &[u16],
    out: &mut [u16],
) -> Result<(usize, u32), Refusal>
    requires { Ready file.now variables actions row.now }
    ensures result_value { answer result ≡ answer_in (length out.old) (contracted (file_of file.now) list.now) }
    ensures out_after { out.new ≡ buffer_in out.old (contracted (file_of file.now) list.now) }
{
    let mut written = [0; Task::MAX_WRITTEN];
    let length = compile::compile_in(file, variables, actions, row, &mut written)?;
    let sum = probe::run(&written[..length], list)?;
    starts::contract_plan(file, variables, actions, row, list, sum, out)
}
