// How many copies a plan has, counted before any is written: a refusal leaves the buffer as it was.
ghost use Rattle.std.specs.Prelude.{◌≡◌, true, ◌≤◌, length};
ghost use Rattle.grid_shapes.specs.Shapes.{is_shape};
ghost use Rattle.pool_preserve_plan.specs.Copies.{SinceFits, footprint, copy_list, lent_copies};

use crate::copy::copy_at;
use crate::since::{After, Upload};
use crate::subresource::{Subresource, next_subresource};
use grid_rects::Region;
use grid_shapes::VersionShape;
use pool_access::shape_grids;

// Counts a subresource's copy: 1, or 0 if it is left out.
fn copy_count(planned: Option<Region>) -> usize
    ensures { (result ≤ 1) × (result ≡ length (copy_list planned 0 0)) }
{
    usize::from(planned.is_some())
}

// Counts the copies of every slice and level.
pub fn count_copies(
    newest: &[u64],
    stamps: &[u64],
    shape: VersionShape,
    since: Option<After>,
    upload: Upload,
) -> usize
    requires { (is_shape shape ≡ true) × SinceFits since shape newest.now stamps.now }
    ensures { result ≡ length (lent_copies newest.now stamps.now shape since (footprint upload)) }
{
    let all = shape_grids(shape);
    let levels = shape.levels;
    let mut at = Subresource { slice: 0, level: 0 };
    let mut count = 0;
    for k in 0..all {
        let planned = copy_at(newest, stamps, shape, since, upload, at.slice, at.level, k);
        count += copy_count(planned);
        at = next_subresource(at, levels);
    }
    count
}
