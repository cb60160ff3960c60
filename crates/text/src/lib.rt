// Numbers as text: decimal, separated by blanks. Read with a bound, and printed so that they read back as themselves.
#![tactic(auto)]

pub mod append;
pub mod input;

// What is wrong with a text of numbers.
#[derive(Clone, Copy, Debug, PartialEq, Eq)]
pub enum Flaw {
    // a byte that is neither a digit nor a blank, at an offset
    Stray(usize),
    // a number above the bound, which begins at an offset
    Large(usize),
}

// The only number of a text; none, or more than one.
#[derive(Clone, Copy, Debug, PartialEq, Eq)]
pub enum Only {
    One(u32),
    None,
    More,
}

// A place of a text: its line, counted from 1, and its entry, counted from 0.
#[derive(Clone, Copy, Debug, PartialEq, Eq)]
pub struct Place {
    pub line: usize,
    pub entry: usize,
}
