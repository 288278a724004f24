// One subresource's copy.
ghost use Rattle.std.specs.Prelude.{◌≡◌, true, ◌<◌};
ghost use Rattle.grid_shapes.specs.Shapes.{is_shape};
ghost use Rattle.pool_rules.specs.Histories.{grid_place};
ghost use Rattle.pool_rules.specs.Model.{grid_count};
ghost use Rattle.pool_preserve_plan.specs.Copies.{box_planned, SinceFits, footprint, planned_at, copy_numbers_of};

use crate::since::{After, Upload};
use grid_rects::{Region, TexelRect, level_rect};
use grid_shapes::{VersionShape, level_extent};
use grid_stamps::stamp_count;
use grid_views::written_since;
use pool_access::{start_at, tiling_at};
use pool_memory::COPY_STRIDE;
use pool_rules::GRID_STRIDE;

// Plans the copy of a box, or none where there is no box. One that is the whole level is reported as whole.
fn box_planned(shape: VersionShape, level: u64, dirty: Option<TexelRect>) -> Option<Region>
    ensures { result ≡ box_planned shape level dirty }
{
    let part = dirty?;
    let width = level_extent(shape.width, level);
    let height = level_extent(shape.height, level);
    if part == level_rect(width, height) {
        return Some(Region::Whole);
    }
    Some(Region::Part(part))
}

// Plans the copy of a slice's level, the k-th of the plan: none where the upload rewrites it entirely, whole where nothing is known,
// otherwise the box of what was written after the new version retired. A box that the upload's rectangle covers is copied still: the
// upload can decline after the rename, and the version must be whole without it. A level whose newest stamp is at most `held` is left
// out at once; of any other, where its stamps begin and its tiles' edges stand beside that stamp.
// Asks to be part of its callers: as a call, which is handed the whole shape for each copy, it takes some 60 instructions more a copy.
#[inline(always)]
pub fn copy_at(
    newest: &[u64],
    stamps: &[u64],
    shape: VersionShape,
    since: Option<After>,
    upload: Upload,
    slice: u64,
    level: u64,
    k: usize,
) -> Option<Region>
    requires { (is_shape shape ≡ true) × SinceFits since shape newest.now stamps.now × (k < grid_count shape) × (level < shape.levels)
        × (k ≡ grid_place shape slice level) }
    ensures { result ≡ planned_at newest.now stamps.now shape since (footprint upload) slice level }
{
    let covered = upload.cover & ((slice == upload.slice) & (level == upload.level));
    if covered {
        return None;
    }
    let Some(after) = since else {
        return Some(Region::Whole);
    };
    let p = after.grid + GRID_STRIDE * k;
    if newest[p] <= after.held {
        return None;
    }
    let start = after.stamp + start_at(newest, p);
    let tiling = tiling_at(newest, p, shape, level);
    let end = start + stamp_count(tiling) as usize;
    let dirty = written_since(&stamps[start..end], tiling, newest[p], after.held);
    box_planned(shape, level, dirty)
}

// Returns the seven numbers of a copy: slice, level, whole or not, left, top, width, height.
pub fn copy_numbers(slice: u64, level: u64, region: Region) -> [u64; COPY_STRIDE]
    ensures { result ≡ copy_numbers_of slice level region }
{
    match region {
        Region::Whole => [slice, level, 1, 0, 0, 0, 0],
        Region::Part(r) => [slice, level, 0, r.x, r.y, r.width, r.height],
    }
}
