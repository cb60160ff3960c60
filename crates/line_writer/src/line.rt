// The lines of a sheet: numbers right-aligned in fields.
ghost use Rattle.std.specs.Prelude.{◌≡◌, ◌≤◌, length};
ghost use Rattle.facts.specs.Write.{Wrote};
ghost use Rattle.text.specs.Text.{decimal};
ghost use Rattle.line_writer.specs.Lines.{line_text, last_text};
ghost use Rattle.line_writer.specs.Columns.{line_bytes, most_sum, Narrow, two_digits, ending_at};

// The columns at which the fields end: index, action, cost and running sum, and the sum of the last line.
const INDEX: usize = 3;

const ACTION: usize = 6;

const COST: usize = 14;

const SUM: usize = 24;

const LAST: usize = 24;

// The numbers below 100 in two digits each, as digits are put two at a time: made once, and handed on.
#[derive(Clone, Copy)]
pub struct Pairs<'a> {
    digits: &'a [u8],

    ghost two: { digits.now ≡ two_digits },
}

impl<'a> Pairs<'a> {
    pub fn new() -> Pairs<'static> {
        Pairs {
            digits: b"00010203040506070809101112131415161718192021222324252627282930313233343536373839404142434445464748495051525354555657585960616263646566676869707172737475767778798081828384858687888990919293949596979899",
        }
    }

    // Puts an action's line at the front: its index in the plan, its number, its cost, and the sum up to it and with it.
    pub fn put_line(self, index: u32, action: u32, cost: u32, sum: u32, out: &mut [u8]) -> usize
        requires { Narrow (record { index = index; action = action; cost = cost; sum = sum }) × (line_bytes ≤ length out.old) }
        ensures { Wrote (line_text (record { index = index; action = action; cost = cost; sum = sum })) out.old out.new result }
    {
        let blank: &[u8] = b"                        \n";
        let end = blank.len();
        out[..end].copy_from_slice(blank);
        self.put_number(out, INDEX, index);
        self.put_number(out, ACTION, action);
        self.put_number(out, COST, cost);
        self.put_number(out, SUM, sum);
        end
    }

    // Puts the last line at the front: the word, and the sum.
    pub fn put_last(self, sum: u32, out: &mut [u8]) -> usize
        requires { (sum ≤ most_sum) × (line_bytes ≤ length out.old) }
        ensures { Wrote (last_text sum) out.old out.new result }
    {
        let blank: &[u8] = b"sum                     \n";
        let end = blank.len();
        out[..end].copy_from_slice(blank);
        self.put_number(out, LAST, sum);
        end
    }

    // Puts the digits of a number into a line, two at a time, the last one in the column before `end`.
    fn put_number(self, line: &mut [u8], end: usize, n: u32)
        requires { (length (decimal n) ≤ end) × (end ≤ length line.old) }
        ensures { line.new ≡ ending_at end (decimal n) line.old }
    {
        let mut at = end;
        let mut rest = n;
        // nothing is counted: what is left is a hundredth
        while 100 <= rest {
            let two = 2 * (rest % 100) as usize;
            let last = at - 1;
            at -= 2;
            line[last] = self.digits[two + 1];
            line[at] = self.digits[two];
            rest /= 100;
        }
        let last = at - 1;
        if rest < 10 {
            line[last] = b'0' + rest as u8;
            return;
        }
        let two = 2 * rest as usize;
        let first = at - 2;
        line[last] = self.digits[two + 1];
        line[first] = self.digits[two];
    }
}
