// The numbers of a text, at the front of a buffer.
ghost use Rattle.std.specs.Prelude.{◌≡◌, refl, ℕ, ◌≤◌, List, length, set};
ghost use Rattle.text.specs.Text.{with_parsed, numbers_of, count_of, buffer_of, only_of};
ghost use Rattle.text.specs.Answers.{found_answer};

use crate::{next_number, scan};
use text::{Flaw, Only};

// What a buffer has: a number of one or two bytes.
pub trait Entry: Copy {
    // the number that an entry is, and those of a buffer
    ghost number: { Self → ℕ };

    ghost numbers: { List Self → List ℕ };

    fn number(self) -> u32
        ensures { result ≡ number self };

    // The entry of a number that is at most this one's.
    fn entry(self, n: u32) -> Self
        requires { n ≤ number self }
        ensures { number result ≡ n };

    ghost sets: { (xs : List Self) (i : ℕ) (x : Self) → numbers (set xs i x) ≡ set (numbers xs) i (number x) };

    ghost long: { (xs : List Self) → length (numbers xs) ≡ length xs };
}

impl Entry for u8 {
    ghost number = { λ n. n };

    ghost numbers = { λ xs. xs };

    ghost sets = { λ xs i x. refl };

    ghost long = { λ xs. refl };

    fn number(self) -> u32 {
        self as u32
    }

    fn entry(self, n: u32) -> u8 {
        n as u8
    }
}

impl Entry for u16 {
    ghost number = { λ n. n };

    ghost numbers = { λ xs. xs };

    ghost sets = { λ xs i x. refl };

    ghost long = { λ xs. refl };

    fn number(self) -> u32 {
        self as u32
    }

    fn entry(self, n: u32) -> u16 {
        n as u16
    }
}

// Puts the numbers of a text at the front of a buffer, as many as it has room for. A text that has something wrong leaves it as it was.
pub fn numbers<T: Entry>(text: &[u8], most: T, out: &mut [T]) -> Result<usize, Flaw>
    ensures result_value { found_answer result ≡ count_of (T.number most) text.now }
    ensures out_after { T.numbers out.new ≡ buffer_of (numbers_of (T.number most) text.now) (T.numbers out.old) }
{
    let bound = most.number();
    let count = scan(text, bound)?;
    let room = count.min(out.len());
    let mut at: usize = 0;
    for i in 0..room {
        let Some((number, end)) = next_number(text, at, bound)? else {
            break;
        };
        out[i] = most.entry(number);
        at = end;
    }
    Ok(count)
}

// The only number of a text.
pub fn number(text: &[u8], most: u32) -> Result<Only, Flaw>
    ensures { found_answer result ≡ with_parsed only_of (numbers_of most text.now) }
{
    let Some((number, _)) = next_number(text, 0, most)? else {
        return Ok(Only::None);
    };
    let one = scan(text, most)? == 1;
    if one {
        return Ok(Only::One(number));
    }
    Ok(Only::More)
}
