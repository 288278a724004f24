// Formats, kinds and usage bits.
use crate::print::figure;
use grid_shapes::VersionShape;
use test_common::plain_shape;

// Prints every format's block.
fn print_blocks() {
    for format in 0..9 {
        figure(b"block_edge", &[format, grid_shapes::block_edge(format)]);
        figure(b"block_bytes", &[format, grid_shapes::block_bytes(format)]);
    }
}

// Prints how many slices a kind has.
fn print_slices(kind: u64) {
    figure(
        b"slices",
        &[
            kind,
            grid_shapes::slices(plain_shape(2, 64, 64, 1, 1, kind)),
        ],
    );
}

// Tells whether every write is recorded, or returns the outcome of a shape that is refused.
fn records(s: VersionShape, usage: u64) -> u64 {
    match grid_shapes::records_every_write(s, usage) {
        Ok(records) => records as u64,
        Err(refusal) => refusal.number(),
    }
}

// Prints it for usage bits.
fn print_usage(usage: u64) {
    figure(
        b"records_with_usage",
        &[usage, records(plain_shape(2, 64, 64, 1, 1, 0), usage)],
    );
}

// Prints it for a format.
fn print_format(format: u64) {
    figure(
        b"records_with_format",
        &[format, records(plain_shape(format, 64, 64, 1, 1, 0), 0)],
    );
}

// Prints it for a kind.
fn print_kind(kind: u64) {
    figure(
        b"records_with_kind",
        &[kind, records(plain_shape(2, 64, 64, 1, 1, kind), 0)],
    );
}

// Prints the figures of formats, kinds and usage bits.
pub fn print_formats() {
    print_blocks();
    print_slices(0);
    print_slices(1);
    print_slices(2);
    print_usage(0);
    print_usage(1);
    print_usage(2);
    print_usage(3);
    print_usage(4);
    print_format(6);
    print_format(7);
    print_format(8);
    print_format(9);
    print_kind(0);
    print_kind(1);
    print_kind(2);
}
