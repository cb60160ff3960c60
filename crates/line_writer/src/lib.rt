// The lines of a plan's sheet, written into a buffer. Document 02, W12.
#![tactic(auto)]

mod line;

ghost use Rattle.std.specs.Prelude.{◌≡◌, ◌+◌, ◌*◌, ◌≤◌, ◌++◌, length};
ghost use Rattle.facts.specs.Lists.{All};
ghost use Rattle.facts.specs.Write.{Wrote};
ghost use Rattle.taskfile.specs.Task.{max_list};
ghost use Rattle.line_writer.specs.Lines.{last_text, lines_text, entries_from};
ghost use Rattle.line_writer.specs.Columns.{line_bytes, most_sum, Narrow};

use crate::line::Pairs;

// The bytes of a line: 24 characters and a newline.
pub const LINE: usize = 25;

// Puts the text of a sheet at the front of a buffer that has room for it: the lines of a plan's actions, by their costs, and the last line, with their sum.
pub fn put_text(list: &[u16], costs: &[u32], sum: u32, out: &mut [u8]) -> usize
    requires { (length list.now ≤ max_list) × (length costs.now ≡ length list.now) × All Narrow (entries_from 0 0 list.now costs.now) × (sum ≤ most_sum) × (line_bytes * (length list.now + 1) ≤ length out.old) }
    ensures { Wrote (lines_text (entries_from 0 0 list.now costs.now) ++ last_text sum) out.old out.new result }
{
    let pairs = Pairs::new();
    let end = put_lines(pairs, list, costs, out);
    end + pairs.put_last(sum, &mut out[end..])
}

// The lines of actions by their costs, one after the other.
fn put_lines(pairs: Pairs, list: &[u16], costs: &[u32], out: &mut [u8]) -> usize
    requires { (length list.now ≤ max_list) × (length costs.now ≡ length list.now) × All Narrow (entries_from 0 0 list.now costs.now) × (line_bytes * length list.now ≤ length out.old) }
    ensures { Wrote (lines_text (entries_from 0 0 list.now costs.now)) out.old out.new result }
{
    let mut at: usize = 0;
    let mut sum: u32 = 0;
    for i in 0..list.len() {
        let cost = costs[i];
        let paid = sum + cost;
        at += pairs.put_line(i as u32, list[i] as u32, cost, paid, &mut out[at..]);
        sum = paid;
    }
    at
}
