// What is wrong with a command line, in words.
ghost use Rattle.text.specs.Writer.{Appends};
ghost use Rattle.arguments.specs.Arguments.{name_text, what_text, wrong_text, kind_text, advice_text, hint_text};

use crate::{Name, Wrong};
use text::append::Writer;

// The name of an argument.
fn put_name(out: &mut Writer, name: Name)
    ensures { Appends (name_text name) out.old out.new }
{
    match name {
        Name::File => out.append(b"FILE"),
        Name::Task => out.append(b"TASK"),
        Name::Probe => out.append(b"PROBE"),
        Name::Action => out.append(b"ACTION"),
        Name::State => out.append(b"STATE"),
        Name::Sets => out.append(b"SETS"),
        Name::Plan => out.append(b"PLAN"),
        Name::List => out.append(b"LIST"),
        Name::Sum => out.append(b"SUM"),
    }
}

// What is wrong with a command line, with the word that is.
fn put_what(out: &mut Writer, word: &[u8], why: Wrong)
    ensures { Appends (what_text word.now why) out.old out.new }
{
    match why {
        Wrong::Option => {
            out.append(b"there is no option ");
            out.append(word);
        }
        Wrong::Missing(name) => {
            put_name(out, name);
            out.append(b" is missing");
        }
        Wrong::Long(name) => {
            put_name(out, name);
            out.append(b" is too long");
        }
        Wrong::Many => {
            out.append(word);
            out.append(b" is one argument too many");
        }
        Wrong::Twice(name, other) => {
            put_name(out, name);
            out.append(b" and ");
            put_name(out, other);
            out.append(b" are both standard input");
        }
    }
}

// A line that says what is wrong with a command line, and where help is; `command` is the command's word.
pub fn put_wrong(out: &mut Writer, command: &[u8], word: &[u8], why: Wrong)
    ensures { Appends (wrong_text command.now word.now why) out.old out.new }
{
    out.append(b"jafrelin: ");
    put_what(out, word, why);
    out.append(b"; see jafrelin ");
    out.append(command);
    out.append(b" --help\n");
}

// A kind of file: of probe files, or of task files.
fn put_kind(out: &mut Writer, probe: bool)
    ensures { Appends (kind_text probe) out.old out.new }
{
    if probe {
        out.append(b"probe");
    } else {
        out.append(b"task");
    }
}

// What a command can do with a file of the other kind: one that takes either kind can be told.
fn put_advice(out: &mut Writer, either: bool, probe: bool)
    ensures { Appends (advice_text either probe) out.old out.new }
{
    if either {
        out.append(b"; to take it as one, say --kind ");
        put_kind(out, probe);
    } else {
        out.append(b", and what is asked for takes a ");
        put_kind(out, !probe);
        out.append(b" file");
    }
}

// A line about a file that is refused as one kind and accepted as the other: a probe file, or a task file.
pub fn put_hint(out: &mut Writer, name: &[u8], either: bool, probe: bool)
    ensures { Appends (hint_text name.now either probe) out.old out.new }
{
    out.append(name);
    out.append(b" is accepted as a ");
    put_kind(out, probe);
    out.append(b" file");
    put_advice(out, either, probe);
    out.append(b"\n");
}
