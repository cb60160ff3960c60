// Tasks in words: the parts that texts about tasks share, and how a text gets into a buffer.
#![tactic(auto)]

pub mod parts;

ghost use Rattle.std.specs.Prelude.{◌≡◌, ◌≤◌, length};
ghost use Rattle.facts.specs.Answers.{answer};
ghost use Rattle.facts.specs.Read.{accepted};
ghost use Rattle.facts.specs.Write.{length_in, written_in};
ghost use Rattle.words.specs.Puts.{Puts};

use facts::Refusal;
use text::append::Writer;

// A text that `put` writes, in a buffer with room for all of it: else 7 with the length needed, and no byte is changed. It is counted first.
pub fn write<F: Fn(&mut Writer)>(out: &mut [u8], put: F) -> Result<usize, Refusal>
    requires { F.IsAlwaysCallable put }
    ensures answered { (text : _) → Puts text (F.post put) → answer result ≡ length_in (length out.old) (accepted text) }
    ensures written { (text : _) → Puts text (F.post put) → out.new ≡ written_in out.old (accepted text) }
{
    let mut count = Writer::new(&mut []);
    put(&mut count);
    let needed = count.length();
    let short = out.len() < needed;
    if short {
        return Err(Refusal::Short(needed));
    }
    let mut text = Writer::new(out);
    put(&mut text);
    Ok(text.length())
}
