// Steps in words, from the bytes of an accepted file.
ghost use Rattle.std.specs.Prelude.{length, get_or};
ghost use Rattle.probefile.specs.InPlace.{step_at};
ghost use Rattle.text.specs.Writer.{Appends};
ghost use Rattle.words.specs.Rows.{row_from};
ghost use Rattle.describe_probe.specs.Show.{step_text};

use facts::number::word_at;
use text::append::Writer;
use walk::effect_at;
use words::parts::{put_numbered, put_states};

// Step k, at an offset: its number, precondition, effect and cost.
fn put_step(out: &mut Writer, file: &[u8], sizes: &[u8], place: usize, k: usize)
    ensures { Appends (step_text (length sizes.now) k (step_at file.now place)) out.old out.new }
{
    let effect = effect_at(file, place);
    let cost = word_at(file, effect_at(file, effect));
    put_states(out, b"step ", file, sizes, place, effect, k);
    put_numbered(out, b"\n  cost: ", cost as u64);
    out.append_byte(b'\n');
}

// The steps at these offsets.
pub fn put_steps(out: &mut Writer, file: &[u8], sizes: &[u8], offsets: &[usize])
    ensures { Appends (row_from (λ k. step_text (length sizes.now) k (step_at file.now (get_or offsets.now k 0))) 0 (length offsets.now)) out.old out.new }
{
    for (k, place) in offsets.iter().enumerate() {
        put_step(out, file, sizes, *place, k);
    }
}
