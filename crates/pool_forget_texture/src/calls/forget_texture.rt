// forget_texture: a released texture is tracked no longer, and its spares are queued for destruction.
ghost use Rattle.std.specs.Prelude.{◌≡◌, true};
ghost use Rattle.pool_memory.specs.Lent.{lent, lent_by};
ghost use Rattle.pool_memory.specs.IsPool.{is_pool};
ghost use Rattle.grid_shapes.specs.Outcomes.{outcome_number};
ghost use Rattle.pool_memory.specs.Calls.{told_number, forget_texture_on};

use crate::moves::move_down;
use crate::owned::{counts_without, owned_at, remove_record};
use base_tables::remove_records;
use pool_access::has_id;
use pool_memory::{DoneAnswer, PacingBook, Pool};
use pool_records::{RETIRING_STRIDE, SPARE_STRIDE, find_texture};
use pool_take_doomed::push_spares;

// Stops tracking the texture. Its versions that are still retiring stay queued and are destroyed when they are parked: a texture
// that comes back under the same id begins another tracking, which they do not match. An untracked id changes nothing.
pub fn forget_texture(
    pool: Pool,
    book: PacingBook,
    textures: &mut [u64],
    retiring: &[u64],
    doomed: &mut [u64],
    spares: &mut [u64],
    newest: &mut [u64],
    stamps: &mut [u64],
    id: u64,
) -> DoneAnswer
    requires { is_pool (lent_by pool book textures.old retiring.now doomed.old spares.old newest.old stamps.old) ≡ true }
    ensures { (
      told_number (outcome_number result.outcome),
      lent result.pool book textures.new retiring.now doomed.new spares.new
          newest.new stamps.new,
    )
        ≡ forget_texture_on (lent pool book textures.old retiring.now doomed.old spares.old
        newest.old stamps.old) id }
{
    let tracked = pool.tracked;
    let i = find_texture(textures, tracked, id);
    if !has_id(textures, tracked, i, id) {
        return DoneAnswer {
            pool,
            outcome: Ok(()),
        };
    }
    let own = owned_at(pool, textures, i);
    let places = retiring.len() / RETIRING_STRIDE;
    push_spares(
        doomed,
        places,
        pool.first,
        pool.doomed,
        spares,
        own.first,
        own.spares,
        own.bytes,
    );
    remove_records(spares, SPARE_STRIDE, pool.kept, own.first, own.spares);
    let grid_end = own.grid + own.grids;
    move_down(newest, own.grid, grid_end, pool.grids - grid_end);
    let stamp_end = own.stamp + own.stamps;
    move_down(stamps, own.stamp, stamp_end, pool.stamps - stamp_end);
    remove_record(textures, tracked, i, own);
    DoneAnswer {
        pool: counts_without(pool, own),
        outcome: Ok(()),
    }
}
