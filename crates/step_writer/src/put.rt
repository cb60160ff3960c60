// Bytes, two-byte numbers and partial states at the front of a buffer that has room for them.
ghost use Rattle.std.specs.Prelude.{◌≡◌, [], ◌∷◌, ◌+◌, ◌^◌, ◌≤◌, ◌<◌, length};
ghost use Rattle.facts.specs.Bytes.{bytes_of};
ghost use Rattle.facts.specs.Partial.{write_partial, partial_at, past_partial, empty};
ghost use Rattle.facts.specs.Write.{Wrote};
ghost use Rattle.probefile.specs.Probe.{max_variables};
ghost use Rattle.compilation.specs.Extend.{extend};
ghost use Rattle.step_writer.specs.InPlace.{widened};

use facts::number::read_map;
use facts::write::write_partial;

// The bytes of a partial state with one fact, and with two: lent just these, its writer has nothing to test.
const ONE_FACT: usize = 9;

const TWO_FACTS: usize = 10;

// One byte.
pub fn put_byte(out: &mut [u8], byte: u8) -> usize
    requires { 1 ≤ length out.old }
    ensures { Wrote (byte ∷ []) out.old out.new result }
{
    out[0] = byte;
    1
}

// A number of two bytes, the lower first.
pub fn put_word(out: &mut [u8], number: u32) -> usize
    requires { 2 ≤ length out.old }
    ensures { Wrote (bytes_of 2 number) out.old out.new result }
{
    out[..2].copy_from_slice(&number.to_le_bytes()[..2]);
    2
}

// All bytes of a slice.
pub fn put_bytes(out: &mut [u8], bytes: &[u8]) -> usize
    requires { length bytes.now ≤ length out.old }
    ensures { Wrote bytes.now out.old out.new result }
{
    let n = bytes.len();
    out[..n].copy_from_slice(bytes);
    n
}

// The map with one bit.
pub fn bit(v: usize) -> u64
    requires { v < 64 }
    ensures { result ≡ 2 ^ v }
{
    1 << v
}

// The map with the bits of two variables.
pub fn two_bits(v: usize, w: usize) -> u64
    requires { (v < max_variables) × (w < max_variables) }
    ensures { (result ≡ 2 ^ v + 2 ^ w) × (result < 288230376151711744) }
{
    bit(v) + bit(w)
}

// The partial state at an offset of a file, which ends at `end`, with further facts above its own variables: their bits, and their values.
pub fn put_extended(
    file: &[u8],
    at: usize,
    end: usize,
    bits: u64,
    further: &[u8],
    out: &mut [u8],
) -> usize
    requires end_value { (end ≡ past_partial file.now at) × (end ≤ length file.now) }
    requires bits_bound { (partial_at file.now at).map + bits < 18446744073709551616 }
    requires further_in_bounds { length (write_partial (widened (partial_at file.now at) bits further.now)) ≤ length out.old }
    ensures { Wrote (write_partial (widened (partial_at file.now at) bits further.now)) out.old out.new result }
{
    let map = read_map(file, at).unwrap();
    write_partial(out, map + bits, &file[at + 8..end], further);
    end - at + further.len()
}

// The facts of two variables, the lower one's first.
pub fn put_two(v: usize, x: u8, w: usize, y: u8, out: &mut [u8]) -> usize
    requires { (v < max_variables) × (w < max_variables) × (10 ≤ length out.old) }
    ensures { Wrote (write_partial (extend (extend empty v x) w y)) out.old out.new result }
{
    write_partial(&mut out[..TWO_FACTS], two_bits(v, w), &[x], &[y])
}

// The fact of one variable.
pub fn put_one(v: usize, x: u8, out: &mut [u8]) -> usize
    requires { (v < max_variables) × (9 ≤ length out.old) }
    ensures { Wrote (write_partial (extend empty v x)) out.old out.new result }
{
    write_partial(&mut out[..ONE_FACT], bit(v), &[], &[x])
}
