// park: the version in the hand becomes its texture's newest spare, or is queued for destruction.
ghost use Rattle.std.specs.Prelude.{◌≡◌, true};
ghost use Rattle.grid_shapes.specs.Outcomes.{outcome_number};
ghost use Rattle.pool_memory.specs.Lent.{lent_by, at_entry, at_exit};
ghost use Rattle.pool_memory.specs.IsPool.{is_pool};
ghost use Rattle.pool_memory.specs.Calls.{told_number, park_on};

use crate::counts::{hand_doomed, hand_kept};
use crate::keep_version::{keep_version, spare_parked};
use crate::park_or_destroy::{Parking, check_park, park_or_destroy};
use base_tables::ring_drop;
use pool_access::{push_doomed, retiring_at};
use pool_memory::{DoneAnswer, PacingBook, Pool};
use pool_records::{RETIRING_STRIDE, find_texture};

// Parks the version in the hand. `failed` is the latest submission that failed, 0 if none did; `current` is the submission that the
// version is parked in.
pub fn park(
    pool: Pool,
    book: PacingBook,
    textures: &mut [u64],
    retiring: &[u64],
    doomed: &mut [u64],
    spares: &mut [u64],
    newest: &[u64],
    stamps: &[u64],
    failed: u64,
    current: u64,
) -> DoneAnswer
    requires { is_pool (lent_by pool book textures.old retiring.now doomed.old spares.old newest.now stamps.now) ≡ true }
    ensures { (told_number (outcome_number result.outcome), at_exit result.pool book textures.new retiring.now doomed.new spares.new newest.now stamps.now)
        ≡ park_on (at_entry pool book textures.old retiring.now doomed.old spares.old newest.now stamps.now) failed current }
{
    if let Err(refusal) = check_park(pool, failed, current) {
        return DoneAnswer {
            pool,
            outcome: Err(refusal),
        };
    }
    let places = retiring.len() / RETIRING_STRIDE;
    let v = retiring_at(retiring, places, pool.head, 0);
    let head = ring_drop(places, pool.head, 1);
    let i = find_texture(textures, pool.tracked, v.id);
    let decided = park_or_destroy(pool, book.pressed == 1, textures, i, v);
    match decided {
        Parking::Destroyed(bytes) => {
            push_doomed(doomed, places, pool.first, pool.doomed, v.view, bytes);
            DoneAnswer {
                pool: hand_doomed(pool, head, bytes),
                outcome: Ok(()),
            }
        }
        Parking::Kept(bytes) => {
            let spare = spare_parked(v, failed, current);
            keep_version(textures, spares, pool.tracked, pool.kept, i, spare);
            DoneAnswer {
                pool: hand_kept(pool, head, bytes),
                outcome: Ok(()),
            }
        }
    }
}
