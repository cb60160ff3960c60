// The index of a task file, noted in a lent row by the one pass that checks the file.
#![tactic(auto)]

mod pass;

ghost use Rattle.std.specs.Prelude.{◌≡◌, length};
ghost use Rattle.facts.specs.Answers.{answer};
ghost use Rattle.taskfile.specs.Blank.{or_else};
ghost use Rattle.taskfile.specs.Index.{index_answer, Noted};

use facts::Refusal;
use taskfile::Task;

// The index of a file, noted in a lent row: how many variables and actions there are, or the refusal; 7 with the length needed for a row that is too short.
pub fn index_in(file: &[u8], row: &mut [usize]) -> Result<(usize, usize), Refusal>
    ensures result_value { answer result ≡ index_answer file.now (length row.old) }
    ensures noted { Noted file.now (answer result) row.new }
{
    if row.len() < Task::ROW {
        return Err(Refusal::Short(Task::ROW));
    }
    pass::index_into(file, row)
}

// The bytes in which an accepted file's task is found: its own, or those of the blank task for an empty file.
pub fn bytes_of<'a>(file: &'a [u8], blank: &'a [u8]) -> &'a [u8]
    ensures { result.now ≡ or_else file.now blank.now }
{
    if 0 < file.len() {
        return file;
    }
    blank
}
