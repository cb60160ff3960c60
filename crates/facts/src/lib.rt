// What task files and probe files share, the lowest layer: refusals, numbers and partial states in place, and states.
#![tactic(auto)]

pub mod number;
pub mod write;

ghost use Rattle.std.specs.Prelude.{◌≡◌};
ghost use Rattle.facts.specs.Refusal.{number, place, refusal_with};

// Why an input is turned down, each with its place (document 01, "Turned down").
#[derive(Clone, Copy, Debug, PartialEq, Eq)]
pub enum Refusal {
    // 1: the file ends before or inside a field
    Ends(usize),
    // 2: bytes after the last field
    Trailing(usize),
    // 3: a count or a domain size outside its range, or too many nodes
    Range(usize),
    // 4: a value outside its domain; a relaxed set that is empty or has a stray bit
    Outside(usize),
    // 5: a map bit for no variable
    Stray(usize),
    // 6: a node's variable or target against the rules
    Diagram(usize),
    // 7: the output buffer is shorter than the result; the place is the length needed
    Short(usize),
    // 8: a list over its limit
    Long(usize),
    // 9: a step does not apply
    Blocked(usize),
    // 10: the goal is not met at the end
    Unmet(usize),
    // 11: no such action or step
    Missing(usize),
    // 12: the state's length is not the variable count
    Width(usize),
    // 17: a relaxed set lacks the value that the precondition has for its variable; the place is the variable
    Lacking(usize),
}

impl Refusal {
    // The number that document 01 gives to a refusal.
    pub fn number(self) -> u8
        ensures { result ≡ number self }
    {
        match self {
            Refusal::Ends(_) => 1,
            Refusal::Trailing(_) => 2,
            Refusal::Range(_) => 3,
            Refusal::Outside(_) => 4,
            Refusal::Stray(_) => 5,
            Refusal::Diagram(_) => 6,
            Refusal::Short(_) => 7,
            Refusal::Long(_) => 8,
            Refusal::Blocked(_) => 9,
            Refusal::Unmet(_) => 10,
            Refusal::Missing(_) => 11,
            Refusal::Width(_) => 12,
            Refusal::Lacking(_) => 17,
        }
    }

    // The place of a refusal.
    pub fn place(self) -> usize
        ensures { result ≡ place self }
    {
        match self {
            Refusal::Ends(p)
            | Refusal::Trailing(p)
            | Refusal::Range(p)
            | Refusal::Outside(p)
            | Refusal::Stray(p)
            | Refusal::Diagram(p)
            | Refusal::Short(p)
            | Refusal::Long(p)
            | Refusal::Blocked(p)
            | Refusal::Unmet(p)
            | Refusal::Missing(p)
            | Refusal::Width(p)
            | Refusal::Lacking(p) => p,
        }
    }

    // The refusal that has a number, at a place, if there is one.
    pub fn with(number: u64, place: usize) -> Option<Refusal>
        ensures { result ≡ refusal_with number place }
    {
        match number {
            1 => Some(Refusal::Ends(place)),
            2 => Some(Refusal::Trailing(place)),
            3 => Some(Refusal::Range(place)),
            4 => Some(Refusal::Outside(place)),
            5 => Some(Refusal::Stray(place)),
            6 => Some(Refusal::Diagram(place)),
            7 => Some(Refusal::Short(place)),
            8 => Some(Refusal::Long(place)),
            9 => Some(Refusal::Blocked(place)),
            10 => Some(Refusal::Unmet(place)),
            11 => Some(Refusal::Missing(place)),
            12 => Some(Refusal::Width(place)),
            17 => Some(Refusal::Lacking(place)),
            _ => None,
        }
    }
}
