// Bytes of a copy, in a shape of 5 by 5 by 3 texels and two levels.
ghost use Rattle.std.specs.Prelude.{◌≤◌, length};

use crate::print::figure;
use grid_rects::{Region, TexelRect, copy_bytes};
use test_common::plain_shape;

// Prints the outcome of a copy, and its bytes if that is 0.
fn print_copy(name: &[u8], format: u64, kind: u64, level: u64, region: Region)
    requires { length name.now ≤ 64 }
{
    match copy_bytes(plain_shape(format, 5, 5, 3, 2, kind), level, region) {
        Ok(bytes) => figure(name, &[0, bytes]),
        Err(refusal) => figure(name, &[refusal.number()]),
    }
}

// Returns a square of `size` texels both ways, from texel `start` on both ways.
fn square(start: u64, size: u64) -> Region {
    Region::Part(TexelRect {
        x: start,
        y: start,
        width: size,
        height: size,
    })
}

// Prints the bytes of copies.
pub fn print_copies() {
    // Blocks of 4 by 4 texels and 8 bytes: two by two of them, of which the last of each row and column have one texel in the level.
    print_copy(b"copy_25_texels", 5, 0, 0, Region::Whole);
    print_copy(b"copy_1_texel", 5, 0, 0, square(0, 1));
    print_copy(b"copy_9_texels", 5, 0, 0, square(0, 3));
    print_copy(b"copy_cut_to_4_texels", 5, 0, 0, square(3, 9));
    print_copy(b"copy_cut_to_1_texel", 5, 0, 0, square(4, 9));
    print_copy(b"copy_past_the_level", 5, 0, 0, square(5, 9));
    print_copy(b"copy_level_1", 5, 0, 1, Region::Whole);
    print_copy(b"copy_level_2_of_2", 5, 0, 2, Region::Whole);
    print_copy(b"copy_25_texels_of_format_6", 6, 0, 0, Region::Whole);
    print_copy(b"copy_volume_of_format_6", 6, 2, 0, square(0, 1));
    // Four bytes a texel; the depth is a volume's.
    print_copy(b"copy_flat", 2, 0, 0, Region::Whole);
    print_copy(b"copy_cube", 2, 1, 0, Region::Whole);
    print_copy(b"copy_volume", 2, 2, 0, Region::Whole);
    print_copy(b"copy_volume_level_1", 2, 2, 1, Region::Whole);
    print_copy(b"copy_bad_shape", 9, 0, 2, Region::Whole);
}
