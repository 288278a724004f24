// preserve_plan, on any memory: the copies that bring a rename's new version up to the live one.
ghost use Rattle.std.specs.Prelude.{◌≡◌};
ghost use Rattle.pool_memory.specs.Lent.{at_entry};
ghost use Rattle.pool_memory.specs.Calls.{preserve_plan_on};
ghost use Rattle.pool_preserve_plan.specs.PreservePlan.{planned_told};

use grid_shapes::{Refusal, VersionShape};
use pool_formed::is_pool;
use pool_memory::{PacingBook, Pool};
use pool_rules::Held;

// The copies that bring a rename's new version up to the live one, written to the buffer.
pub fn preserve_plan(
    pool: Pool,
    book: PacingBook,
    textures: &[u64],
    retiring: &[u64],
    doomed: &[u64],
    spares: &[u64],
    newest: &[u64],
    stamps: &[u64],
    buffer: &mut [u64],
    id: u64,
    shape: VersionShape,
    held: Held,
    slice: u64,
    level: u64,
    cover: bool,
) -> Result<usize, Refusal>
    ensures { (planned_told result, (buffer.new, at_entry pool book textures.now retiring.now doomed.now spares.now newest.now stamps.now))
        ≡ preserve_plan_on (at_entry pool book textures.now retiring.now doomed.now spares.now newest.now stamps.now) buffer.old id shape held
        (record { slice = slice; level = level; cover = cover }) }
{
    if !is_pool(
        pool, book, textures, retiring, doomed, spares, newest, stamps,
    ) {
        return Err(Refusal::NoPool);
    }
    pool_preserve_plan::preserve_plan(
        pool, book, textures, retiring, doomed, spares, newest, stamps, buffer, id, shape, held,
        slice, level, cover,
    )
}
