// What a line that the event grammar lacks asks for.
use crate::fields::{MOST_FIELDS, read_numbers, word_end};
use crate::shape::{behind_id, is_whole_shape, whole_shape};
use grid_shapes::VersionShape;

// The lines. What is put stands beside, for it is many numbers.
#[derive(Clone, Copy)]
pub enum OwnLine {
    Put,
    // A take with all twelve numbers of a shape.
    Take {
        id: u64,
        shape: VersionShape,
        records: bool,
        seq: u64,
    },
    // The shape that plans go by from here on.
    Shape(VersionShape),
    // The pacing book is lent from here on.
    Lend,
    // The id.
    Records(u64),
    Parked,
    Pending,
    Formed,
    Dirty {
        id: u64,
        slice: u64,
        level: u64,
        held: u64,
    },
    // The bytes of the sheet's buffer.
    Sheet(u64),
    Dump,
}

// A line with the numbers behind its word, in an array with room for the most, since there is no heap. An event is no line of ours, nor is anything else.
#[derive(Clone, Copy)]
pub struct OwnRead {
    pub line: Option<OwnLine>,
    pub values: [u64; MOST_FIELDS],
    pub count: usize,
}

// Returns the line of words that have no number behind them.
fn bare_line(word: &[u8]) -> Option<OwnLine> {
    match word {
        b"parked" => Some(OwnLine::Parked),
        b"pending" => Some(OwnLine::Pending),
        b"formed" => Some(OwnLine::Formed),
        b"dump" => Some(OwnLine::Dump),
        b"lend" => Some(OwnLine::Lend),
        _ => None,
    }
}

// Returns the line of a take with all twelve numbers of a shape.
fn take_line(n: [u64; MOST_FIELDS]) -> Option<OwnLine> {
    let shape = behind_id(n);
    if is_whole_shape(shape) & (n[13] <= 1) {
        Some(OwnLine::Take {
            id: n[0],
            shape: whole_shape(shape),
            records: n[13] == 1,
            seq: n[14],
        })
    } else {
        None
    }
}

// Returns the line of a shape.
fn shape_line(n: [u64; MOST_FIELDS]) -> Option<OwnLine> {
    if is_whole_shape(n) {
        Some(OwnLine::Shape(whole_shape(n)))
    } else {
        None
    }
}

// Returns the line of words that have `count` numbers behind them.
fn numbers_line(word: &[u8], n: [u64; MOST_FIELDS], count: usize) -> Option<OwnLine> {
    match (word, count) {
        (b"put", 3..) => Some(OwnLine::Put),
        (b"take", 15) => take_line(n),
        (b"shape", 12) => shape_line(n),
        (b"records", 1) => Some(OwnLine::Records(n[0])),
        (b"dirty", 4) => Some(OwnLine::Dirty {
            id: n[0],
            slice: n[1],
            level: n[2],
            held: n[3],
        }),
        (b"sheet", 1) => Some(OwnLine::Sheet(n[0])),
        _ => None,
    }
}

// Returns what a line asks for, with the numbers behind its word.
pub fn read_own(line: &[u8]) -> OwnRead {
    let end = word_end(line);
    let word = &line[0..end];
    let read = read_numbers(line, end);
    let values = read.values;
    let count = read.count;
    let own = match (read.formed, count) {
        (false, _) => None,
        (true, 0) => bare_line(word),
        (true, _) => numbers_line(word, values, count),
    };
    OwnRead {
        line: own,
        values,
        count,
    }
}
