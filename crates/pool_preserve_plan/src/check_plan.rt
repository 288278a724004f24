// What a plan is refused by.
ghost use Rattle.std.specs.Prelude.{◌≡◌, true, ltb, length};
ghost use Rattle.grid_shapes.specs.Outcomes.{outcome_number};
ghost use Rattle.grid_shapes.specs.Shapes.{is_shape};
ghost use Rattle.pool_preserve_plan.specs.Copies.{SinceFits, footprint, lent_copies};
ghost use Rattle.pool_preserve_plan.specs.PlanRefusal.{skips_spent, plan_refusal};

use crate::count_copies::count_copies;
use crate::history::{Found, is_other, is_spent};
use crate::since::{After, Upload};
use grid_shapes::{Refusal, VersionShape, is_shape, slices};
use pool_access::shape_grids;

// Tells whether there are more copies than the buffer has room for. They are counted only where that could be: a plan has at most
// one for each slice and level.
fn is_short(
    newest: &[u64],
    stamps: &[u64],
    shape: VersionShape,
    since: Option<After>,
    upload: Upload,
    room: usize,
) -> bool
    requires { (is_shape shape ≡ true) × SinceFits since shape newest.now stamps.now }
    ensures { result ≡ ltb room (length (lent_copies newest.now stamps.now shape since (footprint upload))) }
{
    if shape_grids(shape) <= room {
        return false;
    }
    room < count_copies(newest, stamps, shape, since, upload)
}

// Tells whether the plan would leave out a covered level of a history whose write count is spent: the write that covers it could
// not be counted, so that the version would lack its texels.
fn skips_spent(shape: VersionShape, found: Found, upload: Upload) -> bool
    ensures { result ≡ skips_spent shape found (footprint upload) }
{
    let inside = (upload.slice < slices(shape)) & (upload.level < shape.levels);
    upload.cover & inside & is_spent(found)
}

// Refuses what is no shape, a texture tracked with another shape, more copies than there is room for, and a plan that leaves out a level
// whose write could not be counted; the lowest number first.
pub fn check_plan(
    newest: &[u64],
    stamps: &[u64],
    shape: VersionShape,
    found: Found,
    since: Option<After>,
    upload: Upload,
    room: usize,
) -> Result<(), Refusal>
    requires { SinceFits since shape newest.now stamps.now }
    ensures { outcome_number result ≡ plan_refusal shape found (footprint upload)
        (length (lent_copies newest.now stamps.now shape since (footprint upload))) room }
{
    if !is_shape(shape) {
        return Err(Refusal::BadShape);
    }
    if is_other(found) {
        return Err(Refusal::OtherShape);
    }
    let short = is_short(newest, stamps, shape, since, upload, room);
    let spent = skips_spent(shape, found, upload);
    if short {
        return Err(Refusal::ShortAnswer);
    }
    if spent {
        return Err(Refusal::CounterSpent);
    }
    Ok(())
}
