// The cost diagrams of a task, for Graphviz.
#![tactic(auto)]

mod dot;

ghost use Rattle.std.specs.Prelude.{◌≡◌, ◌+◌, ◌≤◌, length};
ghost use Rattle.facts.specs.Answers.{answer};
ghost use Rattle.facts.specs.Read.{accepted};
ghost use Rattle.facts.specs.Write.{length_in, written_in};
ghost use Rattle.text.specs.Append.{largest};
ghost use Rattle.words.specs.DescribeFile.{drawn, drawn_action};
ghost use Rattle.words.specs.Rows.{drawing};

use dot::put_drawing;
use facts::Refusal;
use index::bytes_of;
use taskfile::Task;
use text::append::Writer;

// All cost diagrams of a task for Graphviz: the task file's refusals, then 7 with the length needed; a refusal changes no byte.
pub fn draw(file: &[u8], out: &mut [u8]) -> Result<usize, Refusal>
    ensures result_value { answer result ≡ length_in (length out.old) (drawn file.now) }
    ensures out_after { out.new ≡ written_in out.old (drawn file.now) }
{
    let mut row = [0; Task::ROW];
    let (variables, actions) = index::index_in(file, &mut row)?;
    let bytes = bytes_of(file, &Task::BLANK);
    draw_in(bytes, variables, &row, 0, actions, out)
}

// The cost diagram of an action: the task file's refusals, then 11 for the number, then 7 with the length needed; a refusal changes no byte.
pub fn draw_action(file: &[u8], action: usize, out: &mut [u8]) -> Result<usize, Refusal>
    ensures result_value { answer result ≡ length_in (length out.old) (drawn_action file.now action) }
    ensures out_after { out.new ≡ written_in out.old (drawn_action file.now action) }
{
    let mut row = [0; Task::ROW];
    let (variables, actions) = index::index_in(file, &mut row)?;
    if actions <= action {
        return Err(Refusal::Missing(0));
    }
    let bytes = bytes_of(file, &Task::BLANK);
    draw_in(bytes, variables, &row, action, action + 1, out)
}

// All actions of an accepted file from number `from` up to `end`, in one drawing, which is counted first.
// No `words::write`: the edit `cut_is_success` takes the test away, and without a test of its own it would be refused by its form alone (docs/DESIGN-PASS.md).
fn draw_in(
    file: &[u8],
    variables: usize,
    row: &[usize],
    from: usize,
    end: usize,
    out: &mut [u8],
) -> Result<usize, Refusal>
    requires variables_in_bounds { 1 + variables ≤ length file.now }
    requires end_len_bound { length (drawing file.now variables row.now from end) ≤ largest }
    ensures result_value { answer result ≡ length_in (length out.old) (accepted (drawing file.now variables row.now from end)) }
    ensures out_after { out.new ≡ written_in out.old (accepted (drawing file.now variables row.now from end)) }
{
    let mut count = Writer::new(&mut []);
    put_drawing(&mut count, file, variables, row, from, end);
    let needed = count.length();
    let short = out.len() < needed;
    if short {
        return Err(Refusal::Short(needed));
    }
    let mut text = Writer::new(out);
    put_drawing(&mut text, file, variables, row, from, end);
    Ok(text.length())
}
