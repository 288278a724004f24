// The textures of a sheet: numbers of many lengths, all kinds, one to thirteen levels, none to three spares.
use bench_common::{plain_shape, random_from};
use grid_shapes::VersionShape;

// Returns the id of the i-th texture: up to 20 digits. Its lowest twelve bits are those of i, so that no two are equal.
pub fn id_of(i: u64) -> u64 {
    let drawn = random_from(i);
    let high = drawn >> (12 + 6 * (drawn % 8));
    (high << 12) ^ (i % 4096)
}

// Returns the submission of its last rename: below 2^48, so up to 15 digits, in no order that goes with the ids.
pub fn submission_of(i: u64) -> u64 {
    let drawn = random_from(i ^ 65536);
    drawn >> (16 + 4 * (drawn % 8))
}

// Returns its shape, by its submission.
pub fn shape_of(seq: u64) -> VersionShape {
    let kind = seq % 3;
    let extent = 16 << (seq % 4);
    let depth = if kind == 2 { 4 } else { 1 };
    plain_shape(2, extent, extent, depth, 1 + seq % 13, kind)
}

// Returns how many spares it has: one in the mean, since no more versions than textures can be lent.
pub fn spares_of(i: u64) -> u64 {
    match i % 8 {
        1 | 5 | 7 => 1,
        3 => 3,
        6 => 2,
        _ => 0,
    }
}
