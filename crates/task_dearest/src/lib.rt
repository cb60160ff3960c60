// The dearest state of an action: the greatest cost over all states, and the first state that has it. Document 02, W11.
#![tactic(auto)]

mod edge;
mod state;

ghost use Rattle.std.specs.Prelude.{◌≡◌, length};
ghost use Rattle.facts.specs.Answers.{answer};
ghost use Rattle.taskfile.specs.Blank.{file_of};
ghost use Rattle.taskfile.specs.Index.{Ready};
ghost use Rattle.taskfile.specs.PartsInPlace.{action_in};
ghost use Rattle.carry.specs.CarryFile.{answer_in, buffer_in};
ghost use Rattle.dearest.specs.Dearest.{dearest_of};
ghost use Rattle.dearest.specs.ByWalk.{greatest_by_pass, dearest_by_walk};
ghost use Rattle.dearest.specs.InPlace.{Drawn};

use crate::edge::greatest_at;
use crate::state::Course;
use facts::Refusal;
use facts::number::offset_at;
use index::bytes_of;
use taskfile::Task;
use walk::{diagram_at, own_nodes};

// What an action costs at most, and the first state that costs it, at the buffer's front: how many variables it has, and the cost; the file's refusals, then 11 for the number, then 7 where the buffer is shorter than a state; a refusal changes no byte.
pub fn dearest(file: &[u8], action: usize, out: &mut [u8]) -> Result<(usize, u32), Refusal>
    ensures result_value { answer result ≡ answer_in (length out.old) (dearest_of file.now action) }
    ensures out_after { out.new ≡ buffer_in out.old (dearest_of file.now action) }
{
    let mut row = [0; Task::ROW];
    let (variables, actions) = index::index_in(file, &mut row)?;
    let bytes = bytes_of(file, &Task::BLANK);
    dearest_in(bytes, variables, actions, &row, action, out)
}

// The same, of an accepted file by the bytes in which its task is found.
fn dearest_in(
    file: &[u8],
    variables: usize,
    actions: usize,
    row: &[usize],
    action: usize,
    out: &mut [u8],
) -> Result<(usize, u32), Refusal>
    requires { Ready file.now variables actions row.now }
    ensures result_value { answer result ≡ answer_in (length out.old) (dearest_of (file_of file.now) action) }
    ensures out_after { out.new ≡ buffer_in out.old (dearest_of (file_of file.now) action) }
{
    if actions <= action {
        return Err(Refusal::Missing(0));
    }
    if out.len() < variables {
        return Err(Refusal::Short(variables));
    }
    let last = 1 + variables;
    let sizes = &file[1..last];
    let own = own_nodes(row, action);
    let at = offset_at(row, action);
    let cost = dearest_at(file, sizes, at, &row[own..], &mut out[..variables]);
    Ok((variables, cost))
}

// The greatest cost of the action at an offset, whose own nodes begin at the offsets `nodes`, and the first state that has it. Entry k of the table is the greatest from node k on; the terminal's is 0.
fn dearest_at(file: &[u8], sizes: &[u8], at: usize, nodes: &[usize], state: &mut [u8]) -> u32
    requires { Drawn file.now sizes.now at nodes.now × (length state.old ≡ length sizes.now) }
    ensures value { result ≡ greatest_by_pass sizes.now (action_in file.now sizes.now at nodes.now) }
    ensures state_after { state.new ≡ dearest_by_walk sizes.now (action_in file.now sizes.now at nodes.now) }
{
    let diagram = diagram_at(file, at);
    let mut table: [u32; Task::NUMBERS] = [0; Task::NUMBERS];
    for k in (0..diagram.count).rev() {
        table[k + 1] = greatest_at(file, sizes, offset_at(nodes, k), &table);
    }
    let course = Course {
        file,
        sizes,
        at,
        nodes,
        count: diagram.count,
        table: &table,
    };
    course.put_state(state);
    diagram.incoming + table[1]
}
