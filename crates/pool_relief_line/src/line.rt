// The parking line: all spares parked before it go, and none parked after it. It is found by halving, so that nothing is sorted and
// no memory is needed.
ghost use Rattle.std.specs.Prelude.{◌≡◌, ◌+◌, ◌*◌, ◌≤◌, ◌<◌, length};
ghost use Rattle.grid_shapes.specs.Shapes.{bytes_of};
ghost use Rattle.pool_records.specs.Texture.{texture_in, textures_in};
ghost use Rattle.pool_relief_line.specs.Line.{count_before, IsLine};
ghost use Rattle.pool_relief_line.specs.Parked.{parkings, bytes_from, HasBytes, most_version_bytes, Countable};
ghost use Rattle.pool_records.specs.RecordConstants.{spare_stride, texture_stride};

use crate::gives::count_before;
use pool_access::spares_before;
use pool_records::{
    SPARE_PARKED_AT, SPARE_STRIDE, TEXTURE_BYTES_AT, TEXTURE_SPARES_AT, TEXTURE_STRIDE,
};
use pool_rules::LIMIT;

// Returns the bytes of one version of texture i, which its record has, so that they are not worked out again from the shape.
pub fn version_bytes(textures: &[u64], i: usize) -> u64
    requires { (texture_stride * i + texture_stride ≤ length textures.now) × HasBytes (texture_in textures.now i) }
    ensures { result ≡ bytes_of (texture_in textures.now i).shape }
{
    textures[TEXTURE_STRIDE * i + TEXTURE_BYTES_AT]
}

// Adds up the bytes of the spares of texture i that were parked before the line. They are the n from place `from` on.
fn run_bytes(textures: &[u64], i: usize, spares: &[u64], from: usize, n: usize, line: u64) -> u64
    requires { (texture_stride * i + texture_stride ≤ length textures.now) × HasBytes (texture_in textures.now i)
        × (spare_stride * (from + n) ≤ length spares.now)
        × (bytes_of (texture_in textures.now i).shape * n ≤ most_version_bytes) }
    ensures { result ≡ bytes_of (texture_in textures.now i).shape * count_before line (parkings spares.now from n) }
{
    let count = count_before(spares, from, n, line);
    let bytes = version_bytes(textures, i);
    bytes * count as u64
}

// Adds up the bytes of the spares of the first n textures that were parked before the line.
pub fn bytes_before(textures: &[u64], n: usize, spares: &[u64], line: u64) -> u64
    requires { Countable textures.now n spares.now }
    ensures { (result ≤ most_version_bytes) × (result ≡ bytes_from spares.now line 0 (textures_in n textures.now)) }
{
    let mut sum = 0;
    let mut from = 0;
    for i in 0..n {
        let kept = textures[TEXTURE_STRIDE * i + TEXTURE_SPARES_AT] as usize;
        sum += run_bytes(textures, i, spares, from, kept, line);
        from += kept;
    }
    sum
}

// The least and the largest parking number. They only choose which lines are tried first, so nothing is claimed of them.
#[derive(Clone, Copy)]
pub struct Ends {
    pub least: u64,
    pub largest: u64,
}

// Finds the least and the largest parking number of the first `count` spares.
fn parked_ends(spares: &[u64], count: usize) -> Ends
    requires { spare_stride * count ≤ length spares.now }
{
    let mut least = LIMIT;
    let mut largest = 0;
    for j in 0..count {
        let parked = spares[SPARE_STRIDE * j + SPARE_PARKED_AT];
        least = parked.min(least);
        largest = parked.max(largest);
    }
    Ends { least, largest }
}

// Returns the line to try after this one. The first is past all spares; then comes one past the largest number, then the least:
// mostly the line is one of these, and halving is spared.
fn next_guess(ends: Ends, guess: u64) -> u64 {
    if guess != LIMIT + 1 {
        return ends.least;
    }
    if LIMIT < ends.largest {
        return ends.least;
    }
    ends.largest + 1
}

// Returns a line between two: the guess, where it lies between them, or their middle.
fn line_between(lo: u64, hi: u64, guess: u64) -> u64
    requires { lo + 1 < hi }
    ensures { (lo < result) × (result < hi) }
{
    if (lo < guess) & (guess < hi) {
        return guess;
    }
    lo + (hi - lo) / 2
}

// Finds the last line such that what is parked before it, and what is queued for destruction already, do not cover the excess.
pub fn parking_line(textures: &[u64], n: usize, spares: &[u64], dooming: u64, excess: u64) -> u64
    requires { Countable textures.now n spares.now × (dooming ≤ most_version_bytes) × (dooming < excess) }
    ensures { IsLine dooming excess (λ k. bytes_from spares.now k 0 (textures_in n textures.now)) result }
{
    let ends = parked_ends(spares, spares_before(textures, n));
    let mut lo = 0;
    let mut hi = LIMIT + 2;
    let mut guess = LIMIT + 1;
    // Loops on a condition, since halving counts no index: each turn moves one end to the middle.
    while lo + 1 < hi {
        let mid = line_between(lo, hi, guess);
        guess = next_guess(ends, guess);
        let sum = dooming + bytes_before(textures, n, spares, mid);
        if sum < excess {
            lo = mid;
        } else {
            hi = mid;
        }
    }
    lo
}
