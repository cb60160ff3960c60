// A task in words.
#![tactic(auto)]

mod task;

ghost use Rattle.std.specs.Prelude.{◌≡◌, length};
ghost use Rattle.facts.specs.Write.{length_in, written_in};
ghost use Rattle.taskfile.specs.Index.{Ready};
ghost use Rattle.facts.specs.Answers.{answer};
ghost use Rattle.text.specs.Writer.{Appends};
ghost use Rattle.words.specs.DescribeFile.{shown};
ghost use Rattle.words.specs.Rows.{showing};

use facts::Refusal;
use index::bytes_of;
use taskfile::Task;
use text::append::Writer;
use words::parts::put_heading;

// A task in words: the task file's refusals, then 7 with the length needed; a refusal changes no byte.
pub fn show(file: &[u8], out: &mut [u8]) -> Result<usize, Refusal>
    ensures result_value { answer result ≡ length_in (length out.old) (shown file.now) }
    ensures out_after { out.new ≡ written_in out.old (shown file.now) }
{
    let mut row = [0; Task::ROW];
    let (variables, actions) = index::index_in(file, &mut row)?;
    let bytes = bytes_of(file, &Task::BLANK);
    words::write(out, |text| put_task(text, bytes, variables, actions, &row))
}

// All of the text.
fn put_task(out: &mut Writer, file: &[u8], variables: usize, actions: usize, row: &[usize])
    requires { Ready file.now variables actions row.now }
    ensures { Appends (showing file.now variables actions row.now) out.old out.new }
{
    put_heading(out, file, variables);
    let last = 1 + variables;
    task::put_actions(out, file, &file[1..last], actions, row);
}
