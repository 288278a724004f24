// The lines of output of an answer.
ghost use Rattle.std.specs.Prelude.{◌≡◌, ◌+◌, ◌≤◌, [], ◌∷◌, length};
ghost use Rattle.std.proofs.lemmas.List.Edits.{sets};
ghost use Rattle.base_digits.specs.Digits.{digits_of};
ghost use Rattle.event_answers.specs.Answers.{reply_told, entries, InBuffers};
ghost use Rattle.event_answers.specs.Printed.{accepted_row, held_field, printed, most_bytes};
ghost use Rattle.base_digits.specs.Put.{Put};

use crate::answer::Answer;
use crate::entry::{put_copies, put_views};
use crate::row::{put_accepted, put_count, put_field, put_pair, put_row, put_words};
use base_digits::put_text;
use pool_rules::Held;

// Puts the line of a spare from `at` on, and returns where it ends.
fn put_spare(out: &mut [u8], at: usize, number: u64, view: u64, held: Held) -> usize
    requires { at + 65 ≤ length out.old }
    ensures { Put out.old at (accepted_row number (digits_of view ∷ held_field held ∷ [])) result out.new }
{
    if let Held::Known(writes) = held {
        return put_pair(out, at, number, view, writes);
    }
    let start = put_accepted(out, at, number);
    let second = put_field(out, start, view);
    put_text(out, second, b",-\n")
}

// Puts the lines of an answer from `at` on, and returns where they end.
pub fn put_answer(
    out: &mut [u8],
    at: usize,
    number: u64,
    answer: Answer,
    copies: &[u64],
    views: &[u64],
) -> usize
    requires { (at + most_bytes (entries answer) ≤ length out.old) × InBuffers answer copies.now views.now }
    ensures { (result ≡ at + length (printed number (reply_told answer copies.now views.now)))
        × (out.new ≡ sets out.old at (printed number (reply_told answer copies.now views.now))) }
{
    match answer {
        Answer::Question => put_words(out, at, number, b",?\n"),
        Answer::Refused(refusal) => put_row(out, at, number, refusal),
        Answer::Done => put_words(out, at, number, b",0\n"),
        Answer::Spare(view, held) => put_spare(out, at, number, view, held),
        Answer::NoSpare => put_words(out, at, number, b",0,-,-\n"),
        Answer::Version(id, view) => put_pair(out, at, number, id, view),
        Answer::NothingSettled => put_words(out, at, number, b",0,-,-\n"),
        Answer::Views(n) => {
            let start = put_count(out, at, number, n as u64);
            put_views(out, start, number, views, n)
        }
        Answer::Copies(n) => {
            let start = put_count(out, at, number, n as u64);
            put_copies(out, start, number, copies, n)
        }
    }
}
