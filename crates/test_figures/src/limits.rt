// The limits of outcome 2, on both sides, and the bytes that they leave.
use crate::print::{figure, outcome_of};
use grid_shapes::{MOST_SHAPE_BYTES, VersionShape};
use test_common::plain_shape;

// Returns 0, or the outcome of a shape that is refused.
fn outcome(s: VersionShape) -> u64 {
    outcome_of(&grid_shapes::bytes(s))
}

// Prints it for a width.
fn print_width(width: u64) {
    figure(
        b"outcome_of_width",
        &[width, outcome(plain_shape(2, width, 1, 1, 1, 0))],
    );
}

// Prints it for a height.
fn print_height(height: u64) {
    figure(
        b"outcome_of_height",
        &[height, outcome(plain_shape(2, 1, height, 1, 1, 0))],
    );
}

// Prints it for a depth.
fn print_depth(depth: u64) {
    figure(
        b"outcome_of_depth",
        &[depth, outcome(plain_shape(2, 1, 1, depth, 1, 2))],
    );
}

// Prints it for a number of levels.
fn print_levels(levels: u64) {
    figure(
        b"outcome_of_levels",
        &[levels, outcome(plain_shape(2, 1, 1, 1, levels, 0))],
    );
}

// Prints it for a kind.
fn print_kind(kind: u64) {
    figure(
        b"outcome_of_kind",
        &[kind, outcome(plain_shape(2, 1, 1, 1, 1, kind))],
    );
}

// Prints it for a format.
fn print_format(format: u64) {
    figure(
        b"outcome_of_format",
        &[format, outcome(plain_shape(format, 1, 1, 1, 1, 0))],
    );
}

// Returns the bytes of a shape that no limit lets grow, 0 if it is refused.
fn largest_of(format: u64, kind: u64) -> u64 {
    grid_shapes::bytes(plain_shape(format, 16384, 16384, 2048, 15, kind)).unwrap_or(0)
}

// Prints the most bytes of a version, and whether that passes 2^44. A cube has more slices than a volume, and fewer bytes.
fn print_largest() {
    figure(b"largest_cube", &[largest_of(4, 1)]);
    let largest = largest_of(4, 2);
    figure(b"largest_volume", &[largest]);
    figure(
        b"largest_volume_passes_2_44",
        &[(MOST_SHAPE_BYTES < largest) as u64],
    );
}

// Prints the outcomes on both sides of each limit.
pub fn print_limits() {
    print_width(16384);
    print_width(16385);
    print_height(16384);
    print_height(16385);
    print_depth(2048);
    print_depth(2049);
    print_levels(0);
    print_levels(1);
    print_levels(15);
    print_levels(16);
    print_kind(2);
    print_kind(3);
    print_format(8);
    print_format(9);
    print_largest();
}
