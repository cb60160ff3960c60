// The sheet of a plan: a line for each action and one for the sum, in a lent buffer. Document 02, W12.
#![tactic(auto)]

mod run;

ghost use Rattle.std.specs.Prelude.{◌≡◌, ◌≤◌, ◌++◌, length};
ghost use Rattle.facts.specs.Answers.{answer};
ghost use Rattle.facts.specs.Read.{accepted};
ghost use Rattle.facts.specs.Lists.{All};
ghost use Rattle.taskfile.specs.Task.{max_list};
ghost use Rattle.taskfile.specs.Blank.{file_of};
ghost use Rattle.taskfile.specs.Index.{Ready};
ghost use Rattle.carry.specs.CarryFile.{answer_in, buffer_in};
ghost use Rattle.line_writer.specs.Lines.{last_text, lines_text, entries_from};
ghost use Rattle.line_writer.specs.Columns.{most_sum, Narrow};
ghost use Rattle.sheet.specs.SheetFile.{sheet_of};

use crate::run::note_costs;
use facts::Refusal;
use index::bytes_of;
use line_writer::{LINE, put_text};
use numbering::initial;
use taskfile::Task;

// The bytes of the sheet of the longest plan.
pub const MAX_SHEET: usize = LINE * (Task::MAX_LIST + 1);

// Writes the sheet of a plan: the refusals of a run, and 7 where the buffer is too short; a refusal changes no byte.
pub fn sheet(file: &[u8], list: &[u16], out: &mut [u8]) -> Result<(usize, u32), Refusal>
    ensures result_value { answer result ≡ answer_in (length out.old) (sheet_of file.now list.now) }
    ensures out_after { out.new ≡ buffer_in out.old (sheet_of file.now list.now) }
{
    let mut row = [0; Task::ROW];
    let (variables, actions) = index::index_in(file, &mut row)?;
    let bytes = bytes_of(file, &Task::BLANK);
    sheet_in(bytes, variables, actions, &row, list, out)
}

// The same, of an accepted file by the bytes in which its task is found: the list is run to its end before a byte is written.
fn sheet_in(
    file: &[u8],
    variables: usize,
    actions: usize,
    row: &[usize],
    list: &[u16],
    out: &mut [u8],
) -> Result<(usize, u32), Refusal>
    requires { Ready file.now variables actions row.now }
    ensures result_value { answer result ≡ answer_in (length out.old) (sheet_of (file_of file.now) list.now) }
    ensures out_after { out.new ≡ buffer_in out.old (sheet_of (file_of file.now) list.now) }
{
    let n = list.len();
    if Task::MAX_LIST < n {
        return Err(Refusal::Long(Task::MAX_LIST));
    }
    let mut costs = [0; Task::MAX_LIST];
    let mut state = initial(file, variables);
    let goal = 1 + 2 * variables;
    let sum = note_costs(
        file,
        goal,
        actions,
        row,
        list,
        &mut state[..variables],
        &mut costs,
    )?;
    put_sheet(list, &costs[..n], sum, out)
}

// The sheet of a plan by the costs of its actions and their sum.
fn put_sheet(list: &[u16], costs: &[u32], sum: u32, out: &mut [u8]) -> Result<(usize, u32), Refusal>
    requires few { length list.now ≤ max_list }
    requires all { length costs.now ≡ length list.now }
    requires narrow { All Narrow (entries_from 0 0 list.now costs.now) }
    requires small { sum ≤ most_sum }
    ensures result_value { answer result ≡ answer_in (length out.old) (accepted (lines_text (entries_from 0 0 list.now costs.now) ++ last_text sum, sum)) }
    ensures out_after { out.new ≡ buffer_in out.old (accepted (lines_text (entries_from 0 0 list.now costs.now) ++ last_text sum, sum)) }
{
    let needed = LINE * (list.len() + 1);
    if out.len() < needed {
        return Err(Refusal::Short(needed));
    }
    put_text(list, costs, sum, out);
    Ok((needed, sum))
}
