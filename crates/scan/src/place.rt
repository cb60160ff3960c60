// Where an offset of a text lies, in lines and entries.
ghost use Rattle.std.specs.Prelude.{◌≡◌, false, ◌+◌};
ghost use Rattle.text.specs.Place.{newlines, entries_end, line_at, entry_at};

use crate::is_blank;
use text::Place;
use text::append::within;

// The line and the entry of the byte at an offset; of the end, where the text is shorter.
pub fn place(text: &[u8], at: usize) -> Place
    ensures line_value { result.line ≡ line_at at text.now }
    ensures result_value { result.entry ≡ entry_at at text.now }
{
    place_after(&text[..within(at, text)])
}

// The line and the entry of what follows some bytes.
fn place_after(bytes: &[u8]) -> Place
    ensures line_value { result.line ≡ 1 + newlines bytes.now }
    ensures result_value { result.entry ≡ entries_end false bytes.now }
{
    let mut line: usize = 1;
    let mut entry: usize = 0;
    let mut inside = false;
    for b in bytes {
        let blank = is_blank(*b);
        line += (*b == b'\n') as usize;
        entry += (inside & blank) as usize;
        inside = !blank;
    }
    Place { line, entry }
}
