// Turns one line into its event: the word, the numbers after it, and the event made of them if they are what the word asks for.
ghost use Rattle.std.specs.Prelude.{◌≡◌, cond, eqb, get_or, length};
ghost use Rattle.event_text.specs.Fields.{first_line};
ghost use Rattle.event_text.specs.Searches.{index_of};
ghost use Rattle.event_lines.specs.Grammar.{shape_of, rect_of, take_event, plan_event, retire_event, write_event, event_of};
ghost use Rattle.event_lines.specs.Reading.{fits, dash_made, numbers_made};
ghost use Rattle.event_lines.specs.declared.event.Word.{Word as WORD};
ghost use Rattle.event_lines.specs.declared.event.Event.{Event as EVENT};

use crate::event::{Event, Word};
use crate::fields::read_fields;
use crate::words::start_of;
use event_text::find_byte;
use grid_rects::TexelRect;
use grid_shapes::VersionShape;
use pool_rules::Held;

// The largest number of a field where the Rust has u32, and of one that is 0 or 1.
const SMALL: u64 = 4294967295;

const FLAG: u64 = 1;

// The event of a text's first line, and where that line ends.
#[derive(Clone, Copy)]
pub struct Parsed {
    pub event: Event,
    pub end: usize,
}

// Returns the shape of a take line. Format, width, height, depth, levels and kind are the fields after the id; the rest of the shape is 0.
fn shape_of(n: &[u64]) -> VersionShape
    requires { length n.now ≡ 9 }
    ensures { result ≡ shape_of (λ k. get_or n.now k 0) }
{
    VersionShape {
        format: n[1],
        width: n[2],
        height: n[3],
        depth: n[4],
        levels: n[5],
        kind: n[6],
        storage: 0,
        usage: 0,
        red: 0,
        green: 0,
        blue: 0,
        alpha: 0,
    }
}

// Returns the rectangle of a write line: left, top, width and height are its last fields.
fn rect_of(n: &[u64]) -> TexelRect
    requires { length n.now ≡ 9 }
    ensures { result ≡ rect_of (λ k. get_or n.now k 0) }
{
    TexelRect {
        x: n[3],
        y: n[4],
        width: n[5],
        height: n[6],
    }
}

// Returns the event of a take line. Fields that are 32-bit numbers in the Rust are tested here, since the call takes larger ones.
fn take_event(n: &[u64], count: usize) -> Event
    requires { length n.now ≡ 9 }
    ensures { result ≡ cond (fits WORD.Take count (λ k. get_or n.now k 0)) (take_event (λ k. get_or n.now k 0)) EVENT.Unread }
{
    if (count == 9)
        & (n[2] <= SMALL)
        & (n[3] <= SMALL)
        & (n[4] <= SMALL)
        & (n[5] <= SMALL)
        & (n[7] <= FLAG)
    {
        return Event::Take {
            id: n[0],
            shape: shape_of(n),
            records: n[7] == 1,
            seq: n[8],
        };
    }
    Event::Unread
}

// Returns the event of a plan line.
fn plan_event(n: &[u64], count: usize, held: Held) -> Event
    requires { length n.now ≡ 9 }
    ensures { result ≡ cond (fits WORD.Plan count (λ k. get_or n.now k 0)) (plan_event (λ k. get_or n.now k 0) held) EVENT.Unread }
{
    if (count == 5) & (n[2] <= SMALL) & (n[3] <= SMALL) & (n[4] <= FLAG) {
        return Event::Plan {
            id: n[0],
            held,
            slice: n[2],
            level: n[3],
            cover: n[4] == 1,
        };
    }
    Event::Unread
}

// Returns the event of a retire line.
fn retire_event(n: &[u64], count: usize) -> Event
    requires { length n.now ≡ 9 }
    ensures { result ≡ cond (eqb count 3) (retire_event (λ k. get_or n.now k 0)) EVENT.Unread }
{
    if count == 3 {
        return Event::Retire {
            id: n[0],
            view: n[1],
            seq: n[2],
        };
    }
    Event::Unread
}

// Returns the event of a write line.
fn write_event(n: &[u64], count: usize) -> Event
    requires { length n.now ≡ 9 }
    ensures { result ≡ cond (fits WORD.Write count (λ k. get_or n.now k 0)) (write_event (λ k. get_or n.now k 0)) EVENT.Unread }
{
    if (count == 7)
        & (n[1] <= SMALL)
        & (n[2] <= SMALL)
        & (n[3] <= SMALL)
        & (n[4] <= SMALL)
        & (n[5] <= SMALL)
        & (n[6] <= SMALL)
    {
        return Event::Write {
            id: n[0],
            slice: n[1],
            level: n[2],
            rect: rect_of(n),
        };
    }
    Event::Unread
}

// Returns the event if its line has `wanted` fields, all of them numbers.
fn of_count(event: Event, count: usize, wanted: usize) -> Event
    ensures { result ≡ cond (eqb count wanted) event EVENT.Unread }
{
    if count == wanted {
        return event;
    }
    Event::Unread
}

// Returns the event of a word whose fields are these numbers.
fn numbers_event(word: Word, n: &[u64], count: usize) -> Event
    requires { length n.now ≡ 9 }
    ensures { result ≡ numbers_made word count (λ k. get_or n.now k 0) }
{
    let first = n[0];
    let second = n[1];
    match word {
        Word::Open => of_count(Event::Open(first), count, 1),
        Word::Take => take_event(n, count),
        Word::Plan => plan_event(n, count, Held::Known(second)),
        Word::Retire => retire_event(n, count),
        Word::Write => write_event(n, count),
        Word::Regen => of_count(Event::Regen(first), count, 1),
        Word::Pop => of_count(Event::Pop(first), count, 1),
        Word::Park => of_count(
            Event::Park {
                failed: first,
                now: second,
            },
            count,
            2,
        ),
        Word::Note => of_count(Event::Note(first), count, 1),
        Word::Doomed => of_count(Event::Doomed, count, 0),
        Word::Drain => of_count(Event::Drain, count, 0),
        Word::Trim => of_count(Event::Trim(first), count, 1),
        Word::Forget => of_count(Event::Forget(first), count, 1),
        Word::Other => Event::Unread,
    }
}

// Returns the event of a word whose second field is "-", which only a plan's may be.
fn dash_event(word: Word, n: &[u64], count: usize) -> Event
    requires { length n.now ≡ 9 }
    ensures { result ≡ dash_made word count (λ k. get_or n.now k 0) }
{
    match word {
        Word::Plan => plan_event(n, count, Held::Unknown),
        _ => Event::Unread,
    }
}

// Returns the event of a text's first line. The word comes first, because it says what the fields after it are.
pub fn parse_first(text: &[u8]) -> Parsed
    ensures { (result.event ≡ event_of (first_line text.now)) × (result.end ≡ index_of 10 text.now) }
{
    let start = start_of(text);
    let Some(read) = read_fields(text, start.end) else {
        return Parsed {
            event: Event::Unread,
            end: find_byte(text, 0, b'\n'),
        };
    };
    if read.dash {
        return Parsed {
            event: dash_event(start.word, &read.values, read.count),
            end: read.end,
        };
    }
    Parsed {
        event: numbers_event(start.word, &read.values, read.count),
        end: read.end,
    }
}
