// The pool to begin with.
ghost use Rattle.std.specs.Prelude.{◌≡◌, true};
ghost use Rattle.grid_shapes.specs.Outcomes.{outcome_number};
ghost use Rattle.pool_memory.specs.Lent.{at_exit};
ghost use Rattle.pool_memory.specs.IsPool.{is_pool};

use pool_open::{OpenAnswer, open};

// Opens a pool with a working set of 16 GiB, so that nothing is pressed.
pub fn open_work(
    textures: &[u64],
    retiring: &[u64],
    doomed: &[u64],
    spares: &[u64],
    newest: &[u64],
    stamps: &[u64],
) -> OpenAnswer
    ensures { outcome_number result.outcome ≡ 0 → is_pool (at_exit result.pool result.book textures.now retiring.now doomed.now spares.now newest.now stamps.now) ≡ true }
{
    open(
        17179869184,
        textures,
        retiring,
        doomed,
        spares,
        newest,
        stamps,
    )
}
