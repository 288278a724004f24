// Numbers read from a line.
ghost use Rattle.std.specs.Prelude.{◌≡◌, [], ◌+◌, ◌-◌, ◌^◌, ◌≤◌, ◌<◌, length, drop};
ghost use Rattle.event_text.specs.Numbers.{read_on, leading_digits, digits_at, number_of, number_at, StartsDigits};

use crate::eight::{eight_digits, wide};

// The bytes of the first digit and the last.
const ZERO: u64 = 48;

const NINE: u64 = 57;

// A number that stands in a text, and where it ends.
#[derive(Clone, Copy)]
pub struct NumberEnd {
    pub value: u64,
    pub end: usize,
}

// Returns the number `value` of the digits from `at` to `end`; with no digit there is no number.
fn ended(value: u64, at: usize, end: usize) -> Option<NumberEnd>
    requires { (at ≤ end) × (end ≤ at + 19) × (value < 2 ^ 64) }
    ensures { result ≡ read_on value at end [] }
{
    if at < end {
        return Some(NumberEnd { value, end });
    }
    None
}

// Reads on after nineteen digits: there may be a twentieth, with which the number may be too large.
fn last_digit(text: &[u8], value: u64, i: usize) -> Option<NumberEnd>
    requires { (19 ≤ i) × (i < length text.now) × (value < 2 ^ 64) }
    ensures { result ≡ read_on value (i - 19) i (leading_digits (drop i text.now)) }
{
    let byte = wide(text[i]);
    if (byte < ZERO) | (NINE < byte) {
        return Some(NumberEnd { value, end: i });
    }
    let value = value.checked_mul(10)?.checked_add(byte - ZERO)?;
    let end = i + 1;
    if text.len() <= end {
        return Some(NumberEnd { value, end });
    }
    let after = wide(text[end]);
    if (after < ZERO) | (NINE < after) {
        return Some(NumberEnd { value, end });
    }
    None
}

// Returns the number that the digits from `at` on are, of which those before `from` are `start`. Nineteen of
// them are never too large, so they need no other test.
fn rest_digits(text: &[u8], at: usize, from: usize, start: u64) -> Option<NumberEnd>
    requires { (at ≤ from) × (from ≤ length text.now) × (from ≤ at + 19) × (start < 10 ^ (from - at)) }
    ensures { result ≡ read_on start at from (leading_digits (drop from text.now)) }
{
    let stop = at + (text.len() - at).min(19);
    let mut value = start;
    for i in from..stop {
        let byte = wide(text[i]);
        if (byte < ZERO) | (NINE < byte) {
            return ended(value, at, i);
        }
        value = value * 10 + (byte - ZERO);
    }
    if stop == text.len() {
        return ended(value, at, stop);
    }
    last_digit(text, value, stop)
}

// Returns the number that the first sixteen digits from `at` on are, and where they end; 0 and `at` where there are fewer.
fn sixteen_digits(text: &[u8], at: usize) -> NumberEnd
    requires { at ≤ length text.now }
    ensures { StartsDigits text.now at result.value result.end }
{
    if text.len() - at >= 16 {
        let high = eight_digits(text, at);
        let low = eight_digits(text, at + 8);
        if (high.count == 8) & (low.count == 8) {
            return NumberEnd {
                value: high.value * 100000000 + low.value,
                end: at + 16,
            };
        }
    }
    NumberEnd { value: 0, end: at }
}

// Returns the number that the digits from `at` on are. The first sixteen of many are read at once.
fn many_digits(text: &[u8], at: usize) -> Option<NumberEnd>
    requires { at ≤ length text.now }
    ensures { result ≡ digits_at text.now at }
{
    let start = sixteen_digits(text, at);
    rest_digits(text, at, start.end, start.value)
}

// Returns the number that the digits from `at` on are. Most numbers have one digit, so a second one is looked for first; up to seven are read at once.
pub fn digits_at(text: &[u8], at: usize) -> Option<NumberEnd>
    requires { at ≤ length text.now }
    ensures { result ≡ digits_at text.now at }
{
    if text.len() - at >= 8 {
        let first = wide(text[at]);
        if (first < ZERO) | (NINE < first) {
            return ended(0, at, at);
        }
        let next = at + 1;
        let second = wide(text[next]);
        if (second < ZERO) | (NINE < second) {
            return ended(first - ZERO, at, next);
        }
        let read = eight_digits(text, at);
        let count = read.count;
        if count < 8 {
            return ended(read.value, at, at + count);
        }
    }
    many_digits(text, at)
}

// Returns the number that the field from `at` on is.
pub fn number_at(line: &[u8], at: usize) -> Option<NumberEnd>
    requires { at ≤ length line.now }
    ensures { result ≡ number_at line.now at }
{
    let read = digits_at(line, at)?;
    if line.len() <= read.end {
        return Some(read);
    }
    if line[read.end] == b',' {
        return Some(read);
    }
    None
}

// Returns the number that all of s is.
pub fn number_of(s: &[u8]) -> Option<u64>
    ensures { result ≡ number_of s.now }
{
    let read = number_at(s, 0)?;
    if read.end == s.len() {
        return Some(read.value);
    }
    None
}
