// Bytes read into a lent buffer.
ghost use Rattle.text.specs.Append.{Counts};

use std::io::Read;

// Fills a buffer from the front, as far as there is input; how many bytes that are. A read that fails ends it.
// The loop is written out: nothing of the library's says how many bytes were read before a read that fails.
pub fn read_full<R: Read>(input: &mut R, buf: &mut [u8]) -> usize
    ensures { Counts result buf.new }
{
    let mut done: usize = 0;
    while done < buf.len() {
        match input.read(&mut buf[done..]) {
            Ok(0) => break,
            Ok(n) => done += n,
            Err(_) => break,
        }
    }
    done
}
