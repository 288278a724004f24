// preserve_plan, the call of a `plan` line.
ghost use Rattle.std.specs.Prelude.{◌≡◌, true};
ghost use Rattle.pool_memory.specs.Lent.{lent_by, at_entry, at_exit};
ghost use Rattle.pool_memory.specs.IsPool.{is_pool};
ghost use Rattle.event_calls.specs.Calls.{MadeCopies, blank};
ghost use Rattle.pool_books.specs.Lists.{plan_call};

use crate::answers::answer_planned;
use crate::called::Called;
use grid_shapes::VersionShape;
use pool_memory::{PacingBook, Pool};
use pool_rules::Held;

// Plans the copies of a rename.
pub fn call_preserve_plan(
    pool: Pool,
    book: PacingBook,
    textures: &[u64],
    retiring: &[u64],
    doomed: &[u64],
    spares: &[u64],
    newest: &[u64],
    stamps: &[u64],
    copies: &mut [u64],
    id: u64,
    shape: VersionShape,
    held: Held,
    slice: u64,
    level: u64,
    cover: bool,
) -> Called
    requires { is_pool (lent_by pool book textures.now retiring.now doomed.now spares.now newest.now stamps.now) ≡ true }
    ensures { MadeCopies (at_entry pool book textures.now retiring.now doomed.now spares.now newest.now stamps.now)
        (plan_call id shape held (record { slice = slice; level = level; cover = cover }) (blank copies.old)) result.answer copies.new
        (at_exit result.pool result.book textures.now retiring.now doomed.now spares.now newest.now stamps.now) }
{
    let said = pool_preserve_plan::preserve_plan(
        pool, book, textures, retiring, doomed, spares, newest, stamps, copies, id, shape, held,
        slice, level, cover,
    );
    Called {
        pool,
        book,
        answer: answer_planned(said),
    }
}
