// What a copy of a region moves: whole blocks.
ghost use Rattle.std.specs.Prelude.{◌≡◌, true, ◌+◌, ◌^◌, ◌≤◌, ◌<◌};
ghost use Rattle.grid_shapes.specs.Outcomes.{of_bytes};
ghost use Rattle.grid_rects.specs.Copies.{cut_size, touched_blocks, cut_blocks, region_blocks, copy_outcome, copy_bytes};
ghost use Rattle.grid_shapes.specs.Shapes.{is_shape};

use crate::rect::Region;
use grid_shapes::{
    Refusal, VersionShape, block_bytes, block_edge, is_shape, level_depth, level_extent,
};

// Returns how many of `size` texels from `start` on lie within `extent`.
pub fn cut_size(extent: u64, start: u64, size: u64) -> u64
    ensures { result ≡ cut_size extent start size }
{
    if extent <= start {
        return 0;
    }
    let room = extent - start;
    size.min(room)
}

// Returns how many blocks of `edge` texels, from texel 0 on, `texels` texels from `start` on touch.
fn touched_blocks(edge: u64, start: u64, texels: u64) -> u64
    requires { (0 < edge) × (start + texels < 2 ^ 64) }
    ensures { result ≡ touched_blocks edge start texels }
{
    if texels == 0 {
        return 0;
    }
    let first = start / edge;
    let last = (start + texels - 1) / edge;
    last - first + 1
}

// Returns how many blocks those of `size` texels from `start` on touch that lie within `extent`.
fn cut_blocks(edge: u64, extent: u64, start: u64, size: u64) -> u64
    requires { 0 < edge }
    ensures { result ≡ cut_blocks edge extent start size }
{
    let texels = cut_size(extent, start, size);
    touched_blocks(edge, start, texels)
}

// Returns how many blocks the region's texels touch in a level of `width` by `height`, at one depth.
fn region_blocks(edge: u64, width: u64, height: u64, region: Region) -> u64
    requires { (0 < edge) × (width ≤ 16384) × (height ≤ 16384) }
    ensures { result ≡ region_blocks edge width height region }
{
    match region {
        Region::Whole => touched_blocks(edge, 0, width) * touched_blocks(edge, 0, height),
        Region::Part(r) => {
            cut_blocks(edge, width, r.x, r.width) * cut_blocks(edge, height, r.y, r.height)
        }
    }
}

// Returns the bytes of a copy of the region, in a level that the shape has.
fn level_copy_bytes(s: VersionShape, level: u64, region: Region) -> u64
    requires { is_shape s ≡ true }
    ensures { result ≡ copy_bytes s level region }
{
    let blocks = region_blocks(
        block_edge(s.format),
        level_extent(s.width, level),
        level_extent(s.height, level),
        region,
    );
    blocks * level_depth(s, level) * block_bytes(s.format)
}

// Returns the bytes of a copy of the region: 0 in a level that the shape lacks, a refusal for what is no shape.
pub fn copy_bytes(s: VersionShape, level: u64, region: Region) -> Result<u64, Refusal>
    ensures { of_bytes result ≡ copy_outcome s level region }
{
    if !is_shape(s) {
        return Err(Refusal::BadShape);
    }
    if s.levels <= level {
        return Ok(0);
    }
    Ok(level_copy_bytes(s, level, region))
}
