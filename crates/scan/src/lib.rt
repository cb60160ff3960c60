// Numbers of a text: found one by one, each with a bound and the place of what is wrong.
#![tactic(auto)]

pub mod place;
pub mod read;

ghost use Rattle.std.specs.Prelude.{◌≡◌, ◌<◌, length, drop};
ghost use Rattle.text.specs.Text.{blank, between, within, numbers_from, count_of};
ghost use Rattle.text.specs.Answers.{found_answer, token_answer, Ahead};

use text::Flaw;

// How many numbers a text has.
pub fn scan(text: &[u8], most: u32) -> Result<usize, Flaw>
    ensures { found_answer result ≡ count_of most text.now }
{
    let mut at: usize = 0;
    let mut count: usize = 0;
    while let Some((_, end)) = next_number(text, at, most)? {
        at = end;
        count += 1;
    }
    Ok(count)
}

// The next number from an offset on, and the offset past it.
pub fn next_number(text: &[u8], from: usize, most: u32) -> Result<Option<(u32, usize)>, Flaw>
    ensures text_value { numbers_from most between from (drop from text.now) ≡ token_answer most text.now result }
    ensures ahead { Ahead most text.now from result }
{
    for at in from..text.len() {
        let b = text[at];
        if b.is_ascii_digit() {
            return number_from(text, at, most);
        }
        if !is_blank(b) {
            return Err(Flaw::Stray(at));
        }
    }
    Ok(None)
}

// The number whose first digit is at an offset, up to a blank or the end.
fn number_from(text: &[u8], from: usize, most: u32) -> Result<Option<(u32, usize)>, Flaw>
    requires { from < length text.now }
    ensures text_value { numbers_from most (within 0 from) from (drop from text.now) ≡ token_answer most text.now result }
    ensures ahead { Ahead most text.now from result }
{
    let mut n: u32 = 0;
    for at in from..text.len() {
        let b = text[at];
        if !b.is_ascii_digit() {
            return if is_blank(b) {
                Ok(Some((n, at + 1)))
            } else {
                Err(Flaw::Stray(at))
            };
        }
        let longer = 10 * (n as u64) + (b - b'0') as u64;
        if (most as u64) + 1 <= longer {
            return Err(Flaw::Large(from));
        }
        n = longer as u32;
    }
    Ok(Some((n, text.len())))
}

// Whether a byte is a space, a tab, a newline or a carriage return.
#[tactic(auto, unfolding(text::specs::Text::blank))]
fn is_blank(b: u8) -> bool
    ensures { result ≡ blank b }
{
    b == b' ' || b == b'\t' || b == b'\n' || b == b'\r'
}
