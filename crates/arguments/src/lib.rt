// The arguments of a command: how many there have to be, what each is called, and what is wrong with them in words.
#![tactic(auto)]

pub mod table;
mod words;

ghost use Rattle.std.specs.Prelude.{◌≡◌};
ghost use Rattle.arguments.specs.Arguments.{name_at, fit_of};

pub use crate::words::{put_hint, put_wrong};

// What an argument is called.
#[derive(Clone, Copy, Debug, PartialEq, Eq)]
pub enum Name {
    File,
    Task,
    Probe,
    Action,
    State,
    Sets,
    Plan,
    List,
    Sum,
}

// The arguments of a command: what the first, the second and the third are called, and how many there are at least and at most.
#[derive(Clone, Copy, Debug, PartialEq, Eq)]
pub struct Shape {
    pub first: Name,
    pub second: Name,
    pub third: Name,
    pub least: usize,
    pub most: usize,
}

// What is wrong with a command line: an option that there is not, an argument that is missing, longer than a name can be or one too many, two that are both standard input.
#[derive(Clone, Copy, Debug, PartialEq, Eq)]
pub enum Wrong {
    Option,
    Missing(Name),
    Long(Name),
    Many,
    Twice(Name, Name),
}

// The name of argument number k, from 0 on.
pub fn name_at(shape: Shape, k: usize) -> Name
    ensures { result ≡ name_at shape k }
{
    match k {
        0 => shape.first,
        1 => shape.second,
        _ => shape.third,
    }
}

// Whether so many arguments are as many as there have to be; if not, which is missing, or that there are too many.
pub fn fit_of(shape: Shape, count: usize) -> Result<(), Wrong>
    ensures { result ≡ fit_of shape count }
{
    if count < shape.least {
        return Err(Wrong::Missing(name_at(shape, count)));
    }
    if shape.most < count {
        return Err(Wrong::Many);
    }
    Ok(())
}
