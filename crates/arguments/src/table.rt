// Words by number.
ghost use Rattle.std.specs.Prelude.{◌≡◌};
ghost use Rattle.arguments.specs.Table.{number_in};

// The number of a word in a table, a text of words that a blank ends each, from 0 on; how many there are where it is none of them.
// No option: callers match the number, and take each that they do not name alike.
pub fn number_in(table: &[u8], word: &[u8]) -> usize
    ensures { result ≡ number_in table.now word.now }
{
    let mut count: usize = 0;
    let mut from: usize = 0;
    for at in 0..table.len() {
        if table[at] != b' ' {
            continue;
        }
        if &table[from..at] == word {
            return count;
        }
        count += 1;
        from = at + 1;
    }
    count
}
