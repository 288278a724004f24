// The line that a list begins with: =,TEXTURES,VERSIONS,PAGES,ANSWERS,NAME, or how many numbers each slice and each buffer has.
ghost use Rattle.std.specs.Prelude.{◌≤◌};

use crate::fields::{read_numbers, word_end};
use grid_stamps::PAGE_STAMPS;
use pool_memory::COPY_STRIDE;
use pool_records::{DOOMED_STRIDE, RETIRING_STRIDE, SPARE_STRIDE, TEXTURE_STRIDE};
use pool_rules::{MOST_PLACES, newest_length};

// As many numbers as any slice of a list has.
const MOST_NUMBERS: usize = 65536;

// How many numbers are lent in each slice, and in the two answer buffers.
#[derive(Clone, Copy)]
pub struct Lengths {
    pub textures: usize,
    pub retiring: usize,
    pub doomed: usize,
    pub spares: usize,
    pub newest: usize,
    pub stamps: usize,
    pub copies: usize,
    pub views: usize,
}

// Returns a number of the line, or 0 if it is past what any list has.
fn small(number: u64, most: usize) -> usize
    ensures { result ≤ most }
{
    if number <= most as u64 {
        number as usize
    } else {
        0
    }
}

// Returns the lengths that a list's first line gives.
pub fn lengths_of(line: &[u8]) -> Lengths {
    let read = read_numbers(line, word_end(line));
    let n = read.values;
    if read.count == 8 {
        return Lengths {
            textures: small(n[0], MOST_NUMBERS),
            retiring: small(n[1], MOST_NUMBERS),
            doomed: small(n[2], MOST_NUMBERS),
            spares: small(n[3], MOST_NUMBERS),
            newest: small(n[4], MOST_NUMBERS),
            stamps: small(n[5], MOST_NUMBERS),
            copies: small(n[6], MOST_NUMBERS),
            views: small(n[7], MOST_NUMBERS),
        };
    }
    let textures = small(n[0], MOST_PLACES);
    let versions = small(n[1], MOST_PLACES);
    let stamps = PAGE_STAMPS * small(n[2], MOST_PLACES);
    let answers = small(n[3], MOST_PLACES);
    Lengths {
        textures: TEXTURE_STRIDE * textures,
        retiring: RETIRING_STRIDE * versions,
        doomed: DOOMED_STRIDE * versions,
        spares: SPARE_STRIDE * versions,
        newest: newest_length(textures, stamps),
        stamps,
        copies: COPY_STRIDE * answers,
        views: answers,
    }
}
