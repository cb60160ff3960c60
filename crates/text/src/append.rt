// Text written into a lent buffer: bytes, numbers and lists of them. A byte is written where there is room for it and counted in any case, so a writer tells how long its text is in a buffer of any length.
ghost use Rattle.std.specs.Prelude.{◌≡◌, min, [], ◌∷◌, length, take};
ghost use Rattle.text.specs.Text.{decimal, list_text};
ghost use Rattle.text.specs.Append.{Counts};
ghost use Rattle.text.specs.Writer.{Starts, StartsAt, Appends};

// A buffer, and how many bytes of a text have been written to it or counted. No `fmt::Write`: what `write!` says of a text is only of an `Ok`, and nothing says that one comes.
#[derive(Drop)]
pub struct Writer<'a> {
    out: &'a mut [u8],
    at: usize,
}

impl<'a> Writer<'a> {
    // At the front of a buffer.
    pub fn new(out: &'a mut [u8]) -> Writer<'a>
        ensures { Starts out.entry result }
    {
        Writer { out, at: 0 }
    }

    // At an index of a buffer, in it or past its end.
    pub fn from_index(out: &'a mut [u8], at: usize) -> Writer<'a>
        ensures { StartsAt at out.entry result }
    {
        Writer { out, at }
    }

    // How long the text is.
    pub fn length(&self) -> usize
        ensures { result ≡ self.now.at }
    {
        self.at
    }

    // As much of the text as stands in the buffer.
    pub fn written(&self) -> &[u8]
        ensures { result.now ≡ take self.now.at self.now.out.now }
    {
        let end = within(self.at, self.out);
        &self.out[..end]
    }

    // A byte.
    pub fn append_byte(&mut self, byte: u8)
        ensures { Appends (byte ∷ []) self.old self.new }
    {
        let room = self.at < self.out.len();
        if room {
            self.out[self.at] = byte;
        }
        self.at = self.at.saturating_add(1);
    }

    // All bytes of a slice. Where all fit they are copied at their own length, which the compiler mostly knows.
    pub fn append(&mut self, bytes: &[u8])
        ensures { Appends bytes.now self.old self.new }
    {
        let start = self.at.min(self.out.len());
        let room = self.out.len() - start;
        let whole = bytes.len() <= room;
        let some = 0 < room;
        if whole {
            self.out[start..start + bytes.len()].copy_from_slice(bytes);
        } else if some {
            self.out[start..].copy_from_slice(&bytes[..room]);
        }
        self.at = self.at.saturating_add(bytes.len());
    }

    // The digits of a number.
    pub fn append_number(&mut self, n: u64)
        ensures { Appends (decimal n) self.old self.new }
    {
        if n < 10 {
            self.append_byte(b'0' + n as u8);
            return;
        }
        self.append_number(n / 10);
        self.append_byte(b'0' + (n % 10) as u8);
    }

    // The numbers of a list with one space between them, and a newline.
    pub fn append_list(&mut self, list: &[u16])
        ensures { Appends (list_text list.now) self.old self.new }
    {
        for i in 0..list.len() {
            let more = 0 < i;
            if more {
                self.append_byte(b' ');
            }
            self.append_number(list[i] as u64);
        }
        self.append_byte(b'\n');
    }
}

// As much of a text as stands in its buffer, where a writer's length is `end`.
pub fn within(end: usize, text: &[u8]) -> usize
    ensures value { result ≡ min end (length text.now) }
    ensures counts { Counts result text.now }
{
    end.min(text.len())
}
