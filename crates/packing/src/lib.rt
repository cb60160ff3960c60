// Answers packed into the 64 bits that a C function returns.
#![tactic(auto)]

ghost use Rattle.std.specs.Prelude.{◌≡◌};
ghost use Rattle.facts.specs.Refusal.{number, place};
ghost use Rattle.facts.specs.Read.{with_value};
ghost use Rattle.facts.specs.Answers.{answer};
ghost use Rattle.estimate.specs.Number.{number as estNumber};
ghost use Rattle.taskfile.specs.Answers.{tallied_answer};
ghost use Rattle.packing.specs.Packing.{packed, packed_refusal, packed_check, packed_sum, packed_walk, packed_length, packed_list, packed_number, packed_estimate};

use estimate::Est;
use facts::Refusal;
use taskfile::Walked;

// Three numbers in their bits.
fn pack(number: u8, upper: u64, lower: u64) -> u64
    ensures { result ≡ packed number upper lower }
{
    number as u64 * 72057594037927936 + upper % 16777216 * 4294967296 + lower % 4294967296
}

// A refusal.
fn refusal(why: Refusal) -> u64
    ensures { result ≡ packed_refusal (number why) (place why) }
{
    pack(why.number(), 0, why.place() as u64)
}

// Whether a file is accepted.
pub fn checked(given: Result<(), Refusal>) -> u64
    ensures { result ≡ packed_check (answer given) }
{
    match given {
        Ok(()) => pack(0, 0, 0),
        Err(why) => refusal(why),
    }
}

// A sum: of a probe list, or the relaxed cost of an action.
pub fn sum(given: Result<u32, Refusal>) -> u64
    ensures { result ≡ packed_sum (answer given) }
{
    match given {
        Ok(sum) => pack(0, 0, sum as u64),
        Err(why) => refusal(why),
    }
}

// What an action or a list of them costs, and how many nodes are passed.
pub fn tallied(given: Result<Walked, Refusal>) -> u64
    ensures { result ≡ packed_walk (tallied_answer given) }
{
    match given {
        Ok(walked) => pack(0, walked.passed as u64, walked.cost as u64),
        Err(why) => refusal(why),
    }
}

// The length of what was written: a probe file, or a text.
pub fn length(given: Result<usize, Refusal>) -> u64
    ensures { result ≡ packed_length (answer given) }
{
    match given {
        Ok(length) => pack(0, length as u64, 0),
        Err(why) => refusal(why),
    }
}

// The length of what was written, and a sum: a list or a sheet with its sum, or a state with the cost in it.
pub fn list(given: Result<(usize, u32), Refusal>) -> u64
    ensures { result ≡ packed_list (answer given) }
{
    match given {
        Ok((length, sum)) => pack(0, length as u64, sum as u64),
        Err(why) => refusal(why),
    }
}

// A number of the estimate.
fn number(e: Est) -> u64
    ensures { result ≡ packed_number (estNumber e) }
{
    match e {
        Est::Never => pack(0, 2, 0),
        Est::Over => pack(0, 1, 0),
        Est::Exact(n) => pack(0, 0, n as u64),
    }
}

// An estimate.
pub fn estimated(given: Result<Est, Refusal>) -> u64
    ensures { result ≡ packed_estimate (with_value estNumber (answer given)) }
{
    match given {
        Ok(e) => number(e),
        Err(why) => refusal(why),
    }
}
