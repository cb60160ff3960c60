// The head of a file: the number of variables, their domain sizes, the initial values and the goal.
#![tactic(auto)]

ghost use Rattle.std.specs.Prelude.{◌≡◌};
ghost use Rattle.facts.specs.Answers.{answer};
ghost use Rattle.facts.specs.Fields.{next_of, value_of, read_count, read_values, read_sizes, head_at};

use facts::Refusal;
use facts::number::read_byte;
use partial::{partial_end, value_end};

// The count or domain size at an offset, from low to high.
pub fn read_count(file: &[u8], at: usize, low: u64, high: u64) -> Result<u64, Refusal>
    ensures { answer result ≡ value_of (read_count file.now low high at) }
{
    let n = read_byte(file, at)?;
    if n < low {
        return Err(Refusal::Range(at));
    }
    if high < n {
        return Err(Refusal::Range(at));
    }
    Ok(n)
}

// The head of a file that may have at most so many variables, and at most so many values each: how many variables there are, and where the
// field after the goal starts.
pub fn read_head(file: &[u8], most: u64, largest: u64) -> Result<(usize, usize), Refusal>
    ensures { answer result ≡ head_at file.now most largest }
{
    let count = read_count(file, 0, 1, most)? as usize;
    let at = sizes_end(file, 1, count, largest)?;
    let sizes = &file[1..at];
    let goal = values_end(file, at, sizes)?;
    let end = partial_end(file, goal, sizes)?;
    Ok((count, end))
}

// Past the domain sizes of n variables.
fn sizes_end(file: &[u8], from: usize, n: usize, largest: u64) -> Result<usize, Refusal>
    ensures { answer result ≡ next_of (read_sizes file.now largest n from) }
{
    let mut at = from;
    for _ in 0..n {
        at = size_end(file, at, largest)?;
    }
    Ok(at)
}

// Past a domain size.
fn size_end(file: &[u8], at: usize, largest: u64) -> Result<usize, Refusal>
    ensures { answer result ≡ next_of (read_count file.now 2 largest at) }
{
    read_count(file, at, 2, largest)?;
    Ok(at + 1)
}

// Past a value for each variable.
fn values_end(file: &[u8], from: usize, sizes: &[u8]) -> Result<usize, Refusal>
    ensures { answer result ≡ next_of (read_values file.now sizes.now from) }
{
    let mut at = from;
    for size in sizes {
        at = value_end(file, at, *size)?;
    }
    Ok(at)
}
