// The sentence for a refusal that is known by its number and place.
#![tactic(auto)]

ghost use Rattle.std.specs.Prelude.{◌≡◌, ◌≤◌, length};
ghost use Rattle.facts.specs.Read.{accepted};
ghost use Rattle.facts.specs.Answers.{answer};
ghost use Rattle.facts.specs.Refusal.{place};
ghost use Rattle.facts.specs.Write.{length_in, written_in};
ghost use Rattle.text.specs.Append.{largest};
ghost use Rattle.report.specs.Report.{explanation};
ghost use Rattle.sentence.specs.Sentence.{subject_of, sentence};

use explain::put_explanation;
use facts::Refusal;
use report::Subject;

// The sentence for the refusal of a number at a place, about what `about` names: nothing where no refusal has the number, 7 with the length needed; a refusal changes no byte.
pub fn explain(number: u64, place: usize, about: u64, out: &mut [u8]) -> Result<usize, Refusal>
    ensures result_value { answer result ≡ length_in (length out.old) (accepted (sentence (subject_of about) number place)) }
    ensures out_after { out.new ≡ written_in out.old (accepted (sentence (subject_of about) number place)) }
{
    match Refusal::with(number, place) {
        None => Ok(0),
        Some(why) => explain_in(subject_of(about), why, out),
    }
}

// What a refusal is about, by number.
fn subject_of(about: u64) -> Subject
    ensures { result ≡ subject_of about }
{
    match about {
        0 => Subject::File,
        1 => Subject::State,
        2 => Subject::Sets,
        3 => Subject::List,
        _ => Subject::Contracted,
    }
}

// The sentence for a refusal, which is counted first.
fn explain_in(subject: Subject, why: Refusal, out: &mut [u8]) -> Result<usize, Refusal>
    requires { place why ≤ largest }
    ensures result_value { answer result ≡ length_in (length out.old) (accepted (explanation subject why)) }
    ensures out_after { out.new ≡ written_in out.old (accepted (explanation subject why)) }
{
    words::write(out, |text| put_explanation(text, subject, why))
}
