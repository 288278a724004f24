// Reads the fields after a line's word as numbers, in one pass. What a word asks of them is tested afterwards.
ghost use Rattle.std.specs.Prelude.{◌≡◌, false, ◌+◌, ◌≤◌, ◌<◌, IfSome, eqb, length, drop, get_or, replicate};
ghost use Rattle.event_text.specs.Searches.{index_of};
ghost use Rattle.event_lines.specs.Reading.{scanned_of, scan};

use event_text::digits_at;

// The numbers of all the fields, how many there are, whether "-" is one of them, and where the line ends.
#[derive(Clone, Copy)]
pub struct Fields {
    pub values: [u64; 9],
    pub count: usize,
    pub dash: bool,
    pub end: usize,
}

// Returns whether this byte stands at `at`.
fn stands(text: &[u8], at: usize, byte: u8) -> bool
    requires { 0 < byte }
    ensures { result ≡ eqb (get_or text.now at 0) byte }
{
    at < text.len() && text[at] == byte
}

// Returns whether the line ends at `at`: with its line feed, or with the text.
fn is_end(text: &[u8], at: usize) -> bool
    ensures { result ≡ eqb (get_or text.now at 10) 10 }
{
    text.len() <= at || text[at] == b'\n'
}

// Reads the fields after the one that ends at `at`: at most nine, since no word has more. With another field, or with more, nothing is read.
pub fn read_fields(text: &[u8], at: usize) -> Option<Fields>
    requires { at ≤ length text.now }
    ensures { (scanned_of result ≡ scan 0 (replicate 9 0) false (drop at text.now))
        × IfSome result (λ r. r.end ≡ at + index_of 10 (drop at text.now)) }
{
    let mut values = [0u64; 9];
    let mut dash = false;
    let mut end = at;
    let mut count = 0;
    // The place where a field ends says where the next begins, and whether there is one, so there is no range to go over.
    while stands(text, end, b',') {
        if 9 <= count {
            return None;
        }
        let start = end + 1;
        let Some(read) = digits_at(text, start) else {
            if (count != 1) | !stands(text, start, b'-') {
                return None;
            }
            values[count] = 0;
            dash = true;
            end = start + 1;
            count += 1;
            continue;
        };
        values[count] = read.value;
        end = read.end;
        count += 1;
    }
    if is_end(text, end) {
        return Some(Fields {
            values,
            count,
            dash,
            end,
        });
    }
    None
}
