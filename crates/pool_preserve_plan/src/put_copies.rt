// The copies written to the answer buffer, seven numbers each.
ghost use Rattle.std.specs.Prelude.{◌≡◌, true, ◌+◌, ◌*◌, ◌≤◌, length};
ghost use Rattle.grid_shapes.specs.Shapes.{is_shape};
ghost use Rattle.pool_preserve_plan.specs.Copies.{SinceFits, footprint, copy_list, lent_copies, with_copies};
ghost use Rattle.pool_memory.specs.MemoryConstants.{copy_stride};

use crate::copy::{copy_at, copy_numbers};
use crate::since::{After, Upload};
use crate::subresource::{Subresource, next_subresource};
use base_tables::put_record;
use grid_rects::Region;
use grid_shapes::VersionShape;
use pool_access::shape_grids;
use pool_memory::COPY_STRIDE;

// Stores a subresource's copy, if there is one, after the `at` copies of the buffer. Returns how many there are then.
fn put_copy(buffer: &mut [u64], at: usize, planned: Option<Region>, slice: u64, level: u64) -> usize
    requires { copy_stride * (at + length (copy_list planned slice level)) ≤ length buffer.old }
    ensures { (result ≡ at + length (copy_list planned slice level))
        × (buffer.new ≡ with_copies at (copy_list planned slice level) buffer.old) }
{
    let Some(region) = planned else {
        return at;
    };
    let numbers = copy_numbers(slice, level, region);
    put_record(buffer, COPY_STRIDE, at, &numbers);
    at + 1
}

// Stores the copies of every slice and level from the front of the buffer on. Returns how many there are.
pub fn put_copies(
    buffer: &mut [u64],
    newest: &[u64],
    stamps: &[u64],
    shape: VersionShape,
    since: Option<After>,
    upload: Upload,
) -> usize
    requires { (is_shape shape ≡ true) × SinceFits since shape newest.now stamps.now
        × (copy_stride * length (lent_copies newest.now stamps.now shape since (footprint upload)) ≤ length buffer.old) }
    ensures { (result ≡ length (lent_copies newest.now stamps.now shape since (footprint upload)))
        × (buffer.new
        ≡ with_copies 0 (lent_copies newest.now stamps.now shape since (footprint upload)) buffer.old) }
{
    let all = shape_grids(shape);
    let levels = shape.levels;
    let mut at = Subresource { slice: 0, level: 0 };
    let mut count = 0;
    for k in 0..all {
        let planned = copy_at(newest, stamps, shape, since, upload, at.slice, at.level, k);
        count = put_copy(buffer, count, planned, at.slice, at.level);
        at = next_subresource(at, levels);
    }
    count
}
