// What a line is answered with, and its lines of output.
ghost use Rattle.std.specs.Prelude.{◌+◌, ◌≤◌, length};
ghost use Rattle.event_answers.specs.Printed.{most_row};

use base_digits::put_text;
use event_answers::{Answer, put_answer};
use grid_shapes::Refusal;
use grid_stamps::Tile;
use pool_memory::COPY_STRIDE;
use test_common::{STDOUT_FILENO, put_after, put_digits};
use test_pool_calls::{Queried, Told};

// The most bytes of a line of output, as `most_row` of crates/event_answers/specs/Printed.antt.
const MOST_ROW: usize = 147;

#[derive(Clone, Copy)]
pub enum Reply {
    Event(Answer),
    Query(Queried),
}

// Puts an answer of n views, if they are there and have room, and returns where it ends.
fn put_views(out: &mut [u8], number: u64, n: usize, copies: &[u64], views: &[u64]) -> usize {
    if views.len() < n || out.len() / MOST_ROW <= n {
        return 0;
    }
    put_answer(out, 0, number, Answer::Views(n), copies, views)
}

// Puts an answer of n copies, if they are there and have room, and returns where it ends.
fn put_copies(out: &mut [u8], number: u64, n: usize, copies: &[u64], views: &[u64]) -> usize {
    if copies.len() / COPY_STRIDE < n || out.len() / MOST_ROW <= n {
        return 0;
    }
    put_answer(out, 0, number, Answer::Copies(n), copies, views)
}

// Puts an event's answer and returns where it ends.
fn put_event(out: &mut [u8], number: u64, answer: Answer, copies: &[u64], views: &[u64]) -> usize
    requires { most_row ≤ length out.old }
{
    match answer {
        Answer::Views(n) => put_views(out, number, n, copies, views),
        Answer::Copies(n) => put_copies(out, number, n, copies, views),
        _ => put_answer(out, 0, number, answer, copies, views),
    }
}

// Puts an accepted query's line of two numbers.
fn put_tile(out: &mut [u8], at: usize, tile: Tile) -> usize
    requires { at + 45 ≤ length out.old }
{
    let first = put_text(out, at, b",0");
    let second = put_after(out, first, b",", tile.column);
    let third = put_after(out, second, b",", tile.row);
    put_text(out, third, b"\n")
}

// Puts an accepted query's line of a number.
fn put_told(out: &mut [u8], at: usize, told: u64) -> usize
    requires { at + 24 ≤ length out.old }
{
    let first = put_text(out, at, b",0");
    let second = put_after(out, first, b",", told);
    put_text(out, second, b"\n")
}

// Puts the number of a query's refusal.
fn put_refusal(out: &mut [u8], at: usize, refusal: Refusal) -> usize
    requires { at + 22 ≤ length out.old }
{
    let end = put_after(out, at, b",", refusal.number());
    put_text(out, end, b"\n")
}

// Puts a query's answer and returns where it ends.
fn put_query(out: &mut [u8], number: u64, answer: Option<Result<Told, Refusal>>) -> usize
    requires { most_row ≤ length out.old }
{
    let at = put_digits(out, 0, number);
    match answer {
        None => put_text(out, at, b",?\n"),
        Some(Err(refusal)) => put_refusal(out, at, refusal),
        Some(Ok(Told::Formed)) => put_text(out, at, b",0\n"),
        Some(Ok(Told::Number(told))) => put_told(out, at, told),
        Some(Ok(Told::Tile(Some(tile)))) => put_tile(out, at, tile),
        Some(Ok(Told::Tile(None))) => put_text(out, at, b",0,-,-\n"),
    }
}

// Prints the first `filled` bytes.
fn print(out: &[u8], filled: usize) {
    io::write_all(STDOUT_FILENO, &out[..filled.min(out.len())]);
}

// Prints whether everything lent is as it was before the call.
fn print_same(out: &mut [u8], number: u64, same: bool)
    requires { most_row ≤ length out.old }
{
    let at = put_digits(out, 0, number);
    let end = if same {
        put_text(out, at, b",same\n")
    } else {
        put_text(out, at, b",changed\n")
    };
    print(out, end);
}

// Returns whether the line about everything lent follows: behind refusals and queries.
fn is_followed(reply: Reply) -> bool {
    match reply {
        Reply::Event(answer) => matches!(answer, Answer::Refused(_)),
        Reply::Query(_) => true,
    }
}

// Returns whether a buffer of bytes, if the line was lent one, is as it was.
fn is_buffer_kept(reply: Reply) -> bool {
    match reply {
        Reply::Query(queried) => queried.kept,
        _ => true,
    }
}

// Puts a reply and returns where it ends.
fn put_reply(out: &mut [u8], number: u64, reply: Reply, copies: &[u64], views: &[u64]) -> usize
    requires { most_row ≤ length out.old }
{
    match reply {
        Reply::Event(answer) => put_event(out, number, answer, copies, views),
        Reply::Query(queried) => {
            let answer = queried.answer;
            put_query(out, number, answer)
        }
    }
}

// Prints a line's reply, if it has one.
pub fn print_reply(
    out: &mut [u8],
    number: u64,
    reply: Option<Reply>,
    same: bool,
    copies: &[u64],
    views: &[u64],
)
    requires { most_row ≤ length out.old }
{
    let Some(reply) = reply else {
        return;
    };
    let end = put_reply(out, number, reply, copies, views);
    print(out, end);
    if is_followed(reply) {
        print_same(out, number, same & is_buffer_kept(reply));
    }
}
