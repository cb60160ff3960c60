// Expanding: the probe list that comes from a list of actions.
#![tactic(auto)]

ghost use Rattle.std.specs.Prelude.{◌≡◌, ◌*◌, ◌≤◌, length};
ghost use Rattle.facts.specs.Answers.{answer};
ghost use Rattle.taskfile.specs.Task.{max_list, max_entries};
ghost use Rattle.taskfile.specs.Blank.{file_of};
ghost use Rattle.taskfile.specs.Index.{Ready};
ghost use Rattle.carry.specs.CarryFile.{expanded, answer_in, buffer_in};

use facts::Refusal;
use index::bytes_of;
use taskfile::Task;

// The most actions of a list whose probe list is written into the smallest buffer, and into the next one: a buffer is filled before it is used.
const SHORT_LIST: usize = 16;

const MIDDLING_LIST: usize = 64;

// The room for the probe lists of so many actions, and of as many as a list may have.
const SHORT_ROOM: usize = SHORT_LIST * Task::MAX_ENTRIES;

const MIDDLING_ROOM: usize = MIDDLING_LIST * Task::MAX_ENTRIES;

const LONG_ROOM: usize = Task::MAX_LIST * Task::MAX_ENTRIES;

// Writes the probe list that comes from a list of actions: the task file's refusals, then 8, per action 11 before 9, 10 at the end, and 7 where the
// buffer is too short; a refusal changes no entry.
pub fn expand(file: &[u8], list: &[u16], out: &mut [u16]) -> Result<(usize, u32), Refusal>
    ensures result_value { answer result ≡ answer_in (length out.old) (expanded file.now list.now) }
    ensures out_after { out.new ≡ buffer_in out.old (expanded file.now list.now) }
{
    let mut row = [0; Task::ROW];
    let (variables, actions) = index::index_in(file, &mut row)?;
    let bytes = bytes_of(file, &Task::BLANK);
    expand_in(bytes, variables, actions, &row, list, out)
}

// The same, of an accepted file by the bytes in which its task is found: the probe list is written into a buffer of its own first, as a list may be refused at its end.
fn expand_in(
    file: &[u8],
    variables: usize,
    actions: usize,
    row: &[usize],
    list: &[u16],
    out: &mut [u16],
) -> Result<(usize, u32), Refusal>
    requires { Ready file.now variables actions row.now }
    ensures result_value { answer result ≡ answer_in (length out.old) (expanded (file_of file.now) list.now) }
    ensures out_after { out.new ≡ buffer_in out.old (expanded (file_of file.now) list.now) }
{
    if Task::MAX_LIST < list.len() {
        return Err(Refusal::Long(Task::MAX_LIST));
    }
    if list.len() <= SHORT_LIST {
        return expand_by::<SHORT_ROOM>(file, variables, actions, row, list, out);
    }
    if list.len() <= MIDDLING_LIST {
        return expand_by::<MIDDLING_ROOM>(file, variables, actions, row, list, out);
    }
    expand_by::<LONG_ROOM>(file, variables, actions, row, list, out)
}

// The same by a buffer of N entries, which has room for the probe list.
fn expand_by<const N: usize>(
    file: &[u8],
    variables: usize,
    actions: usize,
    row: &[usize],
    list: &[u16],
    out: &mut [u16],
) -> Result<(usize, u32), Refusal>
    requires ready { Ready file.now variables actions row.now }
    requires few { length list.now ≤ max_list }
    requires room { max_entries * length list.now ≤ N }
    requires limit { N ≤ max_entries * max_list }
    ensures result_value { answer result ≡ answer_in (length out.old) (expanded (file_of file.now) list.now) }
    ensures out_after { out.new ≡ buffer_in out.old (expanded (file_of file.now) list.now) }
{
    let mut room = [0; N];
    let (written, sum) = expansion::put_plan(file, variables, actions, row, list, &mut room)?;
    let short = out.len() < written;
    if short {
        return Err(Refusal::Short(written));
    }
    out[..written].copy_from_slice(&room[..written]);
    Ok((written, sum))
}
