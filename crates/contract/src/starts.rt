// Starts among the steps: their numbers, and the actions that a probe list starts.
ghost use Rattle.std.specs.Prelude.{◌≡◌, ◌≤◌, length, replicate};
ghost use Rattle.facts.specs.Answers.{answer};
ghost use Rattle.facts.specs.Write.{Wrote};
ghost use Rattle.probefile.specs.Probe.{max_steps};
ghost use Rattle.taskfile.specs.Blank.{file_of};
ghost use Rattle.taskfile.specs.Index.{Ready};
ghost use Rattle.carry.specs.CarryFile.{contracted, answer_in, buffer_in};
ghost use Rattle.numbering.specs.InPlace.{NotedIn, contract_in, count_in, ProbePlanOf};

use facts::Refusal;
use facts::number::byte_at;
use numbering::Numbers;
use probefile::Probe;
use taskfile::Task;

// Writes the actions that a probe plan of an accepted file starts, in turn; the plan has this sum.
pub fn contract_plan(
    file: &[u8],
    variables: usize,
    actions: usize,
    row: &[usize],
    list: &[u16],
    sum: u32,
    out: &mut [u16],
) -> Result<(usize, u32), Refusal>
    requires ready { Ready file.now variables actions row.now }
    requires plan { ProbePlanOf (file_of file.now) list.now sum }
    ensures result_value { answer result ≡ answer_in (length out.old) (contracted (file_of file.now) list.now) }
    ensures out_after { out.new ≡ buffer_in out.old (contracted (file_of file.now) list.now) }
{
    let mut action_of = [0; Probe::MAX_STEPS];
    note_starts(file, variables, actions, row, &mut action_of);
    let needed = count_starts(&action_of, list)?;
    let short = out.len() < needed;
    if short {
        return Err(Refusal::Short(needed));
    }
    Ok((put_starts(&action_of, list, out), sum))
}

// Notes at each start's number 1 and the number of its action; at every other step's 0 stays.
fn note_starts(file: &[u8], variables: usize, actions: usize, row: &[usize], action_of: &mut [u8])
    requires ready { Ready file.now variables actions row.now }
    requires zeros { action_of.old ≡ replicate max_steps 0 }
    ensures { NotedIn (file_of file.now) action_of.new }
{
    let last = 1 + variables;
    let mut numbers = Numbers::NONE;
    numbers.note(file, &file[1..last], actions, row);
    numbers.note_actions(actions, action_of);
}

// How many actions a probe list starts.
fn count_starts(action_of: &[u8], list: &[u16]) -> Result<usize, Refusal>
    ensures { answer result ≡ count_in action_of.now 0 0 list.now }
{
    let mut count = 0;
    for (i, step) in list.iter().enumerate() {
        if byte_at(action_of, *step as usize) == 0 {
            continue;
        }
        if Task::MAX_LIST <= count {
            return Err(Refusal::Long(i));
        }
        count += 1;
    }
    Ok(count)
}

// Writes the number of each action that a probe list starts.
fn put_starts(action_of: &[u8], list: &[u16], out: &mut [u16]) -> usize
    requires { length (contract_in action_of.now list.now) ≤ length out.old }
    ensures { Wrote (contract_in action_of.now list.now) out.old out.new result }
{
    let mut written = 0;
    for step in list {
        let Some(action) = byte_at(action_of, *step as usize).checked_sub(1) else {
            continue;
        };
        out[written] = u16::from(action);
        written += 1;
    }
    written
}
