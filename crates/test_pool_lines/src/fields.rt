// Reads the fields behind a line's word as numbers.
ghost use Rattle.std.specs.Prelude.{◌≤◌, length};

use event_text::number_at;
use test_common::part_end;

// The most numbers behind a word: a put has a store, an index and fourteen values.
pub const MOST_FIELDS: usize = 16;

// The numbers of the first fields, and how many there are; `formed` if they are all the fields. The array has room for the most, since there is no heap, and
// the numbers count without `formed` too: those of a list's first line stand before its name.
#[derive(Clone, Copy)]
pub struct LineNumbers {
    pub formed: bool,
    pub values: [u64; MOST_FIELDS],
    pub count: usize,
}

// Returns where a line's word ends: at the first comma, or at the line's end.
pub fn word_end(line: &[u8]) -> usize
    ensures { result ≤ length line.now }
{
    part_end(line, 0, b',')
}

// Reads the fields after the one that ends at `at`, up to the first that is no number.
pub fn read_numbers(line: &[u8], at: usize) -> LineNumbers
    requires { at ≤ length line.now }
{
    let mut values = [0u64; MOST_FIELDS];
    let mut end = at;
    for count in 0..MOST_FIELDS {
        if line.len() <= end {
            return LineNumbers {
                formed: true,
                values,
                count,
            };
        }
        let Some(read) = number_at(line, end + 1) else {
            return LineNumbers {
                formed: false,
                values,
                count,
            };
        };
        values[count] = read.value;
        end = read.end;
    }
    LineNumbers {
        formed: line.len() <= end,
        values,
        count: MOST_FIELDS,
    }
}
