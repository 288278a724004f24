// The word that the first line of a text starts with.
ghost use Rattle.std.specs.Prelude.{◌≡◌, ◌≤◌, length, get_or, drop};
ghost use Rattle.event_text.specs.Fields.{comma};
ghost use Rattle.event_lines.specs.Words.{word_of, later_word, four_of, Starts};

use crate::event::Word;
use event_text::{first_end, four_bytes, is_word};

// The first four bytes of texts, the first as the lowest: "take", "plan", "park", "trim", "note", "pop,", "reti", "doom", "rege" and "writ".
const TAKE: u64 = 1701536116;

const PLAN: u64 = 1851878512;

const PARK: u64 = 1802658160;

const TRIM: u64 = 1835627124;

const NOTE: u64 = 1702129518;

const POP: u64 = 745566064;

const RETIRE: u64 = 1769235826;

const DOOMED: u64 = 1836019556;

const REGEN: u64 = 1701274994;

const WRITE: u64 = 1953067639;

// The word that a line starts with, and where it ends.
#[derive(Clone, Copy)]
pub struct Start {
    pub word: Word,
    pub end: usize,
}

// Returns the word that a field is. The words of the calls that a program makes most come first. With a `match` on byte strings the check asks for some fifty
// goals, one for each leaf of its tree of lengths and bytes, and closes none of them alone.
fn word_of(field: &[u8]) -> Word
    ensures { result ≡ word_of field.now }
{
    if is_word(field, b"take") {
        return Word::Take;
    }
    if is_word(field, b"plan") {
        return Word::Plan;
    }
    if is_word(field, b"retire") {
        return Word::Retire;
    }
    if is_word(field, b"write") {
        return Word::Write;
    }
    if is_word(field, b"pop") {
        return Word::Pop;
    }
    if is_word(field, b"park") {
        return Word::Park;
    }
    if is_word(field, b"regen") {
        return Word::Regen;
    }
    later_word(field)
}

// Returns the word that a field is, of the words that a program has less often.
fn later_word(field: &[u8]) -> Word
    ensures { result ≡ later_word field.now }
{
    if is_word(field, b"note") {
        return Word::Note;
    }
    if is_word(field, b"doomed") {
        return Word::Doomed;
    }
    if is_word(field, b"drain") {
        return Word::Drain;
    }
    if is_word(field, b"trim") {
        return Word::Trim;
    }
    if is_word(field, b"forget") {
        return Word::Forget;
    }
    if is_word(field, b"open") {
        return Word::Open;
    }
    Word::Other
}

// Returns the word that a text starts with, whatever it is, and where it ends.
fn any_start(text: &[u8]) -> Start
    ensures { Starts text.now result.end result.word }
{
    let end = first_end(text);
    let word = word_of(&text[..end]);
    Start { word, end }
}

// Returns the word, if it is one of those of four letters and a comma that a program has most, by one comparison each.
fn four_start(text: &[u8], code: u64) -> Start
    requires { (5 ≤ length text.now) × (text.now ≡ four_of code (drop 4 text.now)) × (get_or text.now 4 0 ≡ comma) }
    ensures { Starts text.now result.end result.word }
{
    if code == TAKE {
        return Start {
            word: Word::Take,
            end: 4,
        };
    }
    if code == PLAN {
        return Start {
            word: Word::Plan,
            end: 4,
        };
    }
    if code == PARK {
        return Start {
            word: Word::Park,
            end: 4,
        };
    }
    if code == TRIM {
        return Start {
            word: Word::Trim,
            end: 4,
        };
    }
    if code == NOTE {
        return Start {
            word: Word::Note,
            end: 4,
        };
    }
    any_start(text)
}

// Returns the word, if it is one of those of five or six letters that a program has most. No field stands after `doomed`, so that a line feed ends it.
fn long_start(text: &[u8], code: u64) -> Start
    requires { (7 ≤ length text.now) × (text.now ≡ four_of code (drop 4 text.now)) }
    ensures { Starts text.now result.end result.word }
{
    if (code == RETIRE) & (text[4] == b'r') & (text[5] == b'e') & (text[6] == b',') {
        return Start {
            word: Word::Retire,
            end: 6,
        };
    }
    if (code == DOOMED) & (text[4] == b'e') & (text[5] == b'd') & (text[6] == b'\n') {
        return Start {
            word: Word::Doomed,
            end: 6,
        };
    }
    if (code == REGEN) & (text[4] == b'n') & (text[5] == b',') {
        return Start {
            word: Word::Regen,
            end: 5,
        };
    }
    if (code == WRITE) & (text[4] == b'e') & (text[5] == b',') {
        return Start {
            word: Word::Write,
            end: 5,
        };
    }
    any_start(text)
}

// Returns the word where the fifth byte is no comma.
fn other_start(text: &[u8], code: u64) -> Start
    requires { (5 ≤ length text.now) × (text.now ≡ four_of code (drop 4 text.now)) }
    ensures { Starts text.now result.end result.word }
{
    if code == POP {
        return Start {
            word: Word::Pop,
            end: 3,
        };
    }
    if text.len() < 7 {
        return any_start(text);
    }
    long_start(text, code)
}

// Returns the word that a line starts with. The ones that a program has most are told by four bytes at once.
pub fn start_of(text: &[u8]) -> Start
    ensures { Starts text.now result.end result.word }
{
    if text.len() < 5 {
        return any_start(text);
    }
    let code = four_bytes(text, 0);
    if text[4] == b',' {
        return four_start(text, code);
    }
    other_start(text, code)
}
