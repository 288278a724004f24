// Answers standard input on standard output, line by line. Answers go out after each block that was read, so a program may ask
// line by line and wait. A read or a write that fails ends it.
//
// The buffer of input holds lines of up to 65,535 bytes. A longer one is answered as a malformed one, which is the one
// difference from the Rust's program: that takes lines of any length.
ghost use Rattle.std.specs.Prelude.{◌+◌, ◌≤◌, ◌<◌, length, IfSome};

use crate::answer::put_line;
use crate::question::answer_of;
use std::io::Read;
use test_common::{STDOUT_FILENO, part_end};

// What answering a block of input left: the line that starts at `from` is not whole yet, and `filled` bytes of answers
// are not written yet.
#[derive(Clone, Copy)]
struct Left {
    from: usize,
    filled: usize,
}

// Returns where the next answer goes: after those that are there, or at the front once they are written. There is no such place
// if they could not be written.
fn room(out: &[u8], filled: usize) -> Option<usize>
    requires { filled ≤ length out.now }
    ensures { IfSome result (λ at. at + 105 ≤ length out.now) }
{
    if 105 <= out.len() - filled {
        return Some(filled);
    }
    if io::write_all(STDOUT_FILENO, &out[0..filled]) & (105 <= out.len()) {
        Some(0)
    } else {
        None
    }
}

// Answers every whole line of `input`, as long as answers can be written.
fn answer_lines(input: &[u8], out: &mut [u8]) -> Option<Left>
    requires { length input.now ≤ 65536 }
    ensures { IfSome result (λ left. (left.from ≤ length input.now) × (left.filled ≤ length out.old)) }
{
    let mut from = 0;
    let mut filled = 0;
    let mut end = part_end(input, 0, b'\n');
    // Lines have no fixed length, so no range says where the next one begins.
    while end < input.len() {
        let at = room(out, filled)?;
        filled = put_line(out, at, answer_of(&input[from..end]));
        from = end + 1;
        end = part_end(input, from, b'\n');
    }
    Some(Left { from, filled })
}

// Answers every whole line of `input`, and writes every answer. Returns where the line starts that is not whole yet, as long as
// answers can be written.
fn answer_block(input: &[u8], out: &mut [u8]) -> Option<usize>
    requires { length input.now ≤ 65536 }
    ensures { IfSome result (λ from. from ≤ length input.now) }
{
    let left = answer_lines(input, out)?;
    if io::write_all(STDOUT_FILENO, &out[0..left.filled]) {
        Some(left.from)
    } else {
        None
    }
}

// Answers the last line, which may lack its line feed.
fn answer_last(line: &[u8], out: &mut [u8])
    requires { (length line.now ≤ 65536) × (105 ≤ length out.old) }
{
    if line.is_empty() {
        return;
    }
    let filled = put_line(out, 0, answer_of(line));
    io::write_all(STDOUT_FILENO, &out[0..filled]);
}

// Reads once, after the `held` bytes that are there. Nothing more comes if that does not make them more.
fn read_more(input: &mut impl Read, buf: &mut [u8], held: usize) -> usize
    requires { held ≤ length buf.old }
    ensures { (held ≤ result) × (result ≤ length buf.old) }
{
    let got = input.read(&mut buf[held..]).unwrap_or(0);
    held + got
}

// Moves the bytes from `from` up to `to`, a line that is not whole yet, to the front. Answers how many they are.
fn keep(buf: &mut [u8], from: usize, to: usize) -> usize
    requires { (from ≤ to) × (to ≤ length buf.old) × (1 < length buf.old) }
    ensures { result < length buf.old }
{
    buf.copy_within(from..to, 0);
    // A line that leaves no room for more becomes one that begins as no question does, whatever else comes of it.
    if to - from == buf.len() {
        buf[0] = b'?';
        return 1;
    }
    to - from
}

// Answers all of standard input.
pub fn answer_all(input: &mut impl Read, buf: &mut [u8], out: &mut [u8])
    requires { (1 < length buf.old) × (length buf.old ≤ 65536) × (105 ≤ length out.old) }
{
    let mut held = 0;
    // A proved loop has to end, and nothing says that the input does, so its turns are counted.
    for _ in 0..u64::MAX {
        let end = read_more(input, buf, held);
        if end == held {
            answer_last(&buf[0..held], out);
            return;
        }
        let Some(from) = answer_block(&buf[0..end], out) else {
            return;
        };
        held = keep(buf, from, end);
    }
}
