// Writing at the front of a buffer.
ghost use Rattle.std.specs.Prelude.{◌++◌, ◌≤◌, length};
ghost use Rattle.facts.specs.Bytes.{bytes_of};
ghost use Rattle.facts.specs.Partial.{write_partial};
ghost use Rattle.facts.specs.Write.{fitting, Wrote};

// A partial state at the front of a buffer: the map, the values, and further values for variables above those. Its length, or 0 and the
// buffer as it was where it does not fit.
pub fn write_partial(out: &mut [u8], map: u64, values: &[u8], further: &[u8]) -> usize
    ensures { Wrote (fitting (write_partial (record { map = map; values = values.now ++ further.now })) out.old) out.old out.new result }
{
    if out.len() < 8 {
        return 0;
    }
    if out.len() - 8 < values.len() {
        return 0;
    }
    if out.len() - 8 - values.len() < further.len() {
        return 0;
    }
    put_partial(out, map, values, further)
}

fn put_partial(out: &mut [u8], map: u64, values: &[u8], further: &[u8]) -> usize
    requires { length (write_partial (record { map = map; values = values.now ++ further.now })) ≤ length out.old }
    ensures { Wrote (write_partial (record { map = map; values = values.now ++ further.now })) out.old out.new result }
{
    let a = put_map(out, map);
    let at = a + put_bytes(&mut out[a..], values);
    at + put_bytes(&mut out[at..], further)
}

// All bytes of a slice.
fn put_bytes(out: &mut [u8], bytes: &[u8]) -> usize
    requires { length bytes.now ≤ length out.old }
    ensures { Wrote bytes.now out.old out.new result }
{
    let n = bytes.len();
    out[..n].copy_from_slice(bytes);
    n
}

// A map: eight bytes, the lowest first.
fn put_map(out: &mut [u8], map: u64) -> usize
    requires { 8 ≤ length out.old }
    ensures { Wrote (bytes_of 8 map) out.old out.new result }
{
    out[..8].copy_from_slice(&map.to_le_bytes());
    8
}
