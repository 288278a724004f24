// A shape of twelve numbers, as the Rust has them: some of 32 bits, the last six of 8.
use crate::fields::MOST_FIELDS;
use grid_shapes::VersionShape;

const MOST_OF_32: u64 = u32::MAX as u64;

const MOST_OF_8: u64 = u8::MAX as u64;

// Returns whether the twelve numbers from the first on are as small as the Rust's.
pub fn is_whole_shape(n: [u64; MOST_FIELDS]) -> bool {
    n[1..5].iter().all(|number| *number <= MOST_OF_32)
        & n[6..12].iter().all(|number| *number <= MOST_OF_8)
}

// Returns the shape of twelve numbers.
pub fn whole_shape(n: [u64; MOST_FIELDS]) -> VersionShape {
    VersionShape {
        format: n[0],
        width: n[1],
        height: n[2],
        depth: n[3],
        levels: n[4],
        kind: n[5],
        storage: n[6],
        usage: n[7],
        red: n[8],
        green: n[9],
        blue: n[10],
        alpha: n[11],
    }
}

// Returns the numbers behind the first, which is a take's id.
pub fn behind_id(n: [u64; MOST_FIELDS]) -> [u64; MOST_FIELDS] {
    let mut behind = [0; MOST_FIELDS];
    behind[..MOST_FIELDS - 1].copy_from_slice(&n[1..]);
    behind
}
