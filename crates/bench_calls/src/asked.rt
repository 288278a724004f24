// What the calls are asked: flat textures that record their writes.
ghost use Rattle.std.specs.Prelude.{◌*◌, ◌≤◌};

use bench_common::plain_shape;
use grid_rects::TexelRect;
use grid_shapes::VersionShape;

// Returns the shape of a flat square texture.
fn square(format: u64, extent: u64, levels: u64) -> VersionShape {
    plain_shape(format, extent, extent, 1, levels, 0)
}

// Returns the shape of n textures: 64 by 64 texels of four bytes, sixteen tiles; where n is odd, 512 by 512 of one byte, with as many
// tiles as a page has stamps.
pub fn bench_shape(n: usize, levels: u64) -> VersionShape {
    if n % 2 == 1 {
        return square(0, 512, levels);
    }
    square(2, 64, levels)
}

// Returns the stamps that n textures take. The tiles of levels 1 to 3 are 4, 1 and 1, or 256, 64 and 16.
pub fn bench_stamps(n: usize, levels: u64) -> usize
    ensures { result ≤ 1360 * 65536 }
{
    let textures = n % 65536;
    if n % 2 == 1 {
        return if levels == 1 {
            1024 * textures
        } else {
            1360 * textures
        };
    }
    if levels == 1 {
        16 * textures
    } else {
        22 * textures
    }
}

// Returns ten by ten texels, at another place for each texture and in each round.
pub fn rect_of(i: usize, seq: u64) -> TexelRect {
    let a = (i % 65536) as u64;
    let b = seq % 65536;
    TexelRect {
        x: (13 * a + 7 * b) % 54,
        y: (5 * a + 11 * b) % 54,
        width: 10,
        height: 10,
    }
}
