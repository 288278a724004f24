// An answer, and its text in a buffer.
ghost use Rattle.std.specs.Prelude.{◌+◌, ◌≤◌, length};

use base_digits::put_text;
use grid_rects::TexelRect;
use grid_shapes::Refusal;
use test_common::{put_after, put_digits};

// What follows an answer's first number.
#[derive(Clone, Copy)]
pub enum Rest {
    End,
    Number(u64),
    Pair(u64, u64),
    // Left, top, width and height.
    Box(TexelRect),
    // A dash for no box.
    NoBox,
}

// The numbers of an answer. A question that is malformed has none.
#[derive(Clone, Copy)]
pub struct Answer {
    pub first: u64,
    pub rest: Rest,
}

// Returns the answer of one number.
pub fn number(first: u64) -> Answer {
    Answer {
        first,
        rest: Rest::End,
    }
}

// Returns the answer of an accepted question: 0, and what follows it.
pub fn accepted(rest: Rest) -> Answer {
    Answer { first: 0, rest }
}

// Returns the answer of a question that is refused.
pub fn refused(refusal: Refusal) -> Answer {
    number(refusal.number())
}

// Returns the answer of a question that is accepted or refused.
pub fn told(said: Result<Rest, Refusal>) -> Answer {
    match said {
        Ok(rest) => accepted(rest),
        Err(refusal) => refused(refusal),
    }
}

// Puts two fields, and returns where they end.
fn put_pair(out: &mut [u8], at: usize, first: u64, second: u64) -> usize
    requires { at + 42 ≤ length out.old }
    ensures { result ≤ at + 42 }
{
    let next = put_after(out, at, b",", first);
    put_after(out, next, b",", second)
}

// Puts the four fields of a rectangle, and returns where they end.
fn put_rect(out: &mut [u8], at: usize, rect: TexelRect) -> usize
    requires { at + 84 ≤ length out.old }
    ensures { result ≤ at + 84 }
{
    let size = put_pair(out, at, rect.x, rect.y);
    put_pair(out, size, rect.width, rect.height)
}

// Puts what follows an answer's first number, and returns where it ends.
fn put_rest(out: &mut [u8], at: usize, rest: Rest) -> usize
    requires { at + 84 ≤ length out.old }
    ensures { result ≤ at + 84 }
{
    match rest {
        Rest::End => at,
        Rest::Number(n) => put_after(out, at, b",", n),
        Rest::Pair(n, m) => put_pair(out, at, n, m),
        Rest::Box(rect) => put_rect(out, at, rect),
        Rest::NoBox => put_text(out, at, b",-"),
    }
}

// Puts an answer without its line feed, or `?` for none, and returns where it ends.
fn put_answer(out: &mut [u8], at: usize, answer: Option<Answer>) -> usize
    requires { at + 104 ≤ length out.old }
    ensures { result ≤ at + 104 }
{
    match answer {
        None => put_text(out, at, b"?"),
        Some(answer) => {
            let next = put_digits(out, at, answer.first);
            put_rest(out, next, answer.rest)
        }
    }
}

// Puts an answer and its line feed, at most 105 bytes, and returns where the next line starts.
pub fn put_line(out: &mut [u8], at: usize, answer: Option<Answer>) -> usize
    requires { at + 105 ≤ length out.old }
    ensures { result ≤ at + 105 }
{
    let end = put_answer(out, at, answer);
    put_text(out, end, b"\n")
}
