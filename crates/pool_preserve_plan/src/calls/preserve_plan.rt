// preserve_plan: the copies that bring a rename's new version up to the live one.
ghost use Rattle.std.specs.Prelude.{◌≡◌, true};
ghost use Rattle.pool_memory.specs.Lent.{lent_by, at_entry};
ghost use Rattle.pool_memory.specs.IsPool.{is_pool};
ghost use Rattle.pool_memory.specs.Calls.{preserve_plan_on};
ghost use Rattle.pool_preserve_plan.specs.PreservePlan.{planned_told};

use crate::check_plan::check_plan;
use crate::history::{find_history, since_of};
use crate::put_copies::put_copies;
use crate::since::Upload;
use grid_shapes::{Refusal, VersionShape};
use pool_memory::{COPY_STRIDE, PacingBook, Pool};
use pool_rules::Held;

// Plans the copies that bring a version with these held writes up to the live one, before an upload to a slice's level that covers
// it or not. A fresh allocation holds nothing known, so that every level is copied whole. It alters nothing but the buffer. Returns how
// many copies stand in the buffer, each seven numbers: slice, level, whole or not, left, top, width, height.
pub fn preserve_plan(
    pool: Pool,
    book: PacingBook,
    textures: &[u64],
    retiring: &[u64],
    doomed: &[u64],
    spares: &[u64],
    newest: &[u64],
    stamps: &[u64],
    buffer: &mut [u64],
    id: u64,
    shape: VersionShape,
    held: Held,
    slice: u64,
    level: u64,
    cover: bool,
) -> Result<usize, Refusal>
    requires { is_pool (lent_by pool book textures.now retiring.now doomed.now spares.now newest.now stamps.now) ≡ true }
    ensures { (planned_told result, (buffer.new, at_entry pool book textures.now retiring.now doomed.now spares.now newest.now stamps.now))
        ≡ preserve_plan_on (at_entry pool book textures.now retiring.now doomed.now spares.now newest.now stamps.now)
        buffer.old id shape held (record { slice = slice; level = level; cover = cover }) }
{
    let tracked = pool.tracked;
    let found = find_history(textures, tracked, id, shape);
    let since = since_of(found, held);
    let upload = Upload {
        slice,
        level,
        cover,
    };
    let room = buffer.len() / COPY_STRIDE;
    check_plan(newest, stamps, shape, found, since, upload, room)?;
    let count = put_copies(buffer, newest, stamps, shape, since, upload);
    Ok(count)
}
