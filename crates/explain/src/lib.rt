// A sentence that explains a refusal.
#![tactic(auto)]

ghost use Rattle.text.specs.Writer.{Appends};
ghost use Rattle.report.specs.Report.{explanation, outside_text, value_text, long_text, limit_text, missing_text, entry_text};

use facts::Refusal;
use probefile::Probe;
use report::{Subject, put_around};
use text::append::Writer;

// A sentence that says what a refusal means, and a newline.
pub fn put_explanation(out: &mut Writer, subject: Subject, why: Refusal)
    ensures { Appends (explanation subject why) out.old out.new }
{
    match why {
        Refusal::Ends(p) => put_around(
            out,
            b"The file ends before or inside the field that begins at byte ",
            p,
            b".\n",
        ),
        Refusal::Trailing(p) => put_around(
            out,
            b"The last field ends before byte ",
            p,
            b", and the file goes on.\n",
        ),
        Refusal::Range(p) => put_around(
            out,
            b"The count or domain size at byte ",
            p,
            b" is outside its range, or there are more than 64 nodes with it.\n",
        ),
        Refusal::Outside(p) => put_outside(out, subject, p),
        Refusal::Stray(p) => put_around(
            out,
            b"The map at byte ",
            p,
            b" has a bit for a variable that there is not.\n",
        ),
        Refusal::Diagram(p) => put_around(
            out,
            b"The node variable or target at byte ",
            p,
            b" is against the rules: a node tests a variable of the task, and an edge leads to a later node that tests a later variable, or to the end.\n",
        ),
        Refusal::Short(p) => put_around(out, b"The result needs room for ", p, b".\n"),
        Refusal::Long(p) => put_long(out, subject, p),
        Refusal::Blocked(p) => put_around(
            out,
            b"Entry ",
            p,
            b" of the list, counted from 0, does not apply in the state that the entries before it lead to.\n",
        ),
        Refusal::Unmet(p) => put_around(
            out,
            b"After all ",
            p,
            b" entries of the list the goal does not hold.\n",
        ),
        Refusal::Missing(p) => put_missing(out, subject, p),
        Refusal::Width(_) => out.append(b"There has to be one number for each variable.\n"),
        Refusal::Lacking(p) => put_around(
            out,
            b"The set of variable ",
            p,
            b" lacks the value that the action needs there to apply.\n",
        ),
    }
}

// The same for a value outside its domain.
fn put_outside(out: &mut Writer, subject: Subject, p: usize)
    ensures { Appends (outside_text subject p) out.old out.new }
{
    match subject {
        Subject::Sets => put_around(
            out,
            b"The set of variable ",
            p,
            b" is empty, or has a bit for a value that there is not.\n",
        ),
        Subject::State => put_around(out, b"Variable ", p, b" has a value outside its domain.\n"),
        Subject::File | Subject::List | Subject::Contracted => put_value(out, p),
    }
}

// The same for a value in a file.
fn put_value(out: &mut Writer, p: usize)
    ensures { Appends (value_text p) out.old out.new }
{
    put_around(
        out,
        b"The value at byte ",
        p,
        b" is outside the domain of its variable.\n",
    )
}

// The same for a list over its limit; a probe list within its limit may still come from too many actions.
fn put_long(out: &mut Writer, subject: Subject, p: usize)
    ensures { Appends (long_text subject p) out.old out.new }
{
    match subject {
        Subject::Contracted => {
            if p == Probe::MAX_LIST {
                put_limit(out, p);
            } else {
                put_around(
                    out,
                    b"The list comes from more than 256 actions: entry ",
                    p,
                    b", counted from 0, starts the first that is too many.\n",
                );
            }
        }
        Subject::File | Subject::State | Subject::Sets | Subject::List => put_limit(out, p),
    }
}

// The same for the limit of a list.
fn put_limit(out: &mut Writer, p: usize)
    ensures { Appends (limit_text p) out.old out.new }
{
    put_around(
        out,
        b"The list has more than ",
        p,
        b" entries, its limit.\n",
    )
}

// The same for a number that no action or step has.
fn put_missing(out: &mut Writer, subject: Subject, p: usize)
    ensures { Appends (missing_text subject p) out.old out.new }
{
    match subject {
        Subject::State | Subject::Sets => out.append(b"There is no action of this number.\n"),
        Subject::File | Subject::List | Subject::Contracted => put_entry(out, p),
    }
}

// The same for an entry of a list.
fn put_entry(out: &mut Writer, p: usize)
    ensures { Appends (entry_text p) out.old out.new }
{
    put_around(
        out,
        b"Entry ",
        p,
        b" of the list, counted from 0, is the number of no action or step.\n",
    )
}
