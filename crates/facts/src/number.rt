// Little-endian numbers at an offset of a file.
ghost use Rattle.std.specs.Prelude.{◌≡◌, ◌+◌, ◌≤◌, ◌<◌, min, ltb, length, get_or};
ghost use Rattle.facts.specs.Answers.{answer};
ghost use Rattle.facts.specs.Bytes.{number_at};
ghost use Rattle.facts.specs.Fields.{read_number, word_at};

use crate::Refusal;

// The one-byte number at an offset.
pub fn read_byte(file: &[u8], at: usize) -> Result<u64, Refusal>
    ensures { answer result ≡ read_number file.now 1 at }
{
    match file.get(at) {
        Some(byte) => Ok(u64::from(*byte)),
        None => Err(Refusal::Ends(at)),
    }
}

// The two-byte number at an offset.
pub fn read_word(file: &[u8], at: usize) -> Result<u64, Refusal>
    ensures { answer result ≡ read_number file.now 2 at }
{
    if lacks(file, at, 2) {
        return Err(Refusal::Ends(at));
    }
    Ok(u64::from(u16::from_le_bytes([file[at], file[at + 1]])))
}

// The map at an offset, a number of eight bytes.
pub fn read_map(file: &[u8], at: usize) -> Result<u64, Refusal>
    ensures { answer result ≡ read_number file.now 8 at }
{
    if lacks(file, at, 8) {
        return Err(Refusal::Ends(at));
    }
    Ok(u64::from_le_bytes([
        file[at],
        file[at + 1],
        file[at + 2],
        file[at + 3],
        file[at + 4],
        file[at + 5],
        file[at + 6],
        file[at + 7],
    ]))
}

// The two-byte number at an offset, 0 where the file ends before.
pub fn word_at(file: &[u8], at: usize) -> u32
    ensures { (result ≡ word_at file.now at) × (result ≤ 65535) }
{
    match read_word(file, at) {
        Ok(word) => word as u32,
        Err(_) => 0,
    }
}

// The byte at an index, 0 past the last.
pub fn byte_at(bytes: &[u8], i: usize) -> u8
    ensures { result ≡ get_or bytes.now i 0 }
{
    bytes.get(i).copied().unwrap_or(0)
}

// The offset at an index of a list of offsets, 0 past the last.
pub fn offset_at(offsets: &[usize], i: usize) -> usize
    ensures { result ≡ get_or offsets.now i 0 }
{
    offsets.get(i).copied().unwrap_or(0)
}

// The offset at an index of a list of offsets, and at most `most`.
pub fn offset_within(offsets: &[usize], i: usize, most: usize) -> usize
    ensures { result ≡ min (get_or offsets.now i 0) most }
{
    offset_at(offsets, i).min(most)
}

// Whether a file ends before or inside the k bytes at an offset.
fn lacks(file: &[u8], at: usize, k: usize) -> bool
    ensures { result ≡ ltb (length file.now) (at + k) }
{
    if file.len() < k {
        return true;
    }
    file.len() - k < at
}
