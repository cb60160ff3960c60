// A probe file in words.
#![tactic(auto)]

mod step;

ghost use Rattle.std.specs.Prelude.{◌≡◌, ◌+◌, ◌≤◌, length};
ghost use Rattle.facts.specs.Answers.{answer};
ghost use Rattle.facts.specs.Write.{length_in, written_in};
ghost use Rattle.text.specs.Writer.{Appends};
ghost use Rattle.describe_probe.specs.Show.{shown, showing};

use facts::Refusal;
use probefile::Probe;
use text::append::Writer;
use words::parts::put_heading;

// A probe file in words: the file's refusals, then 7 with the length needed; a refusal changes no byte.
pub fn show(file: &[u8], out: &mut [u8]) -> Result<usize, Refusal>
    ensures result_value { answer result ≡ length_in (length out.old) (shown file.now) }
    ensures out_after { out.new ≡ written_in out.old (shown file.now) }
{
    let mut offsets = [0; Probe::MAX_STEPS];
    let (variables, steps) = probefile::step_index::index(file, &mut offsets)?;
    let offsets = &offsets[..steps];
    words::write(out, |text| put_probe(text, file, variables, offsets))
}

// All of the text.
fn put_probe(out: &mut Writer, file: &[u8], variables: usize, offsets: &[usize])
    requires { 1 + variables + variables ≤ length file.now }
    ensures { Appends (showing file.now variables offsets.now) out.old out.new }
{
    put_heading(out, file, variables);
    let last = 1 + variables;
    step::put_steps(out, file, &file[1..last], offsets);
}
