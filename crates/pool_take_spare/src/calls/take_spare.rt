// take_spare: a rename starts, with the texture's newest spare if it has one.
ghost use Rattle.std.specs.Prelude.{◌≡◌, true};
ghost use Rattle.pool_memory.specs.Lent.{lent_by, at_entry, at_exit};
ghost use Rattle.pool_memory.specs.IsPool.{is_pool};
ghost use Rattle.pool_memory.specs.Calls.{take_spare_on};
ghost use Rattle.pool_take_spare.specs.Answer.{taken_told};

use crate::answer::TakeAnswer;
use crate::look_up::{Before, Look, look_up};
use crate::take_newest::take_newest;
use grid_shapes::VersionShape;
use pool_memory::{PacingBook, Pool, same_counts};
use pool_tracking::{NewTracking, renew_tracking, start_tracking};

// Returns the tracking that begins, at the place and with the stamps that were looked up.
fn begun(look: Look, id: u64, shape: VersionShape, records: bool, seq: u64) -> NewTracking
    ensures { result ≡ record { place = look.place; id = id; shape = shape; records = records; seq = seq; stamps = look.stamps } }
{
    NewTracking {
        place: look.place,
        id,
        shape,
        records,
        seq,
        stamps: look.stamps,
    }
}

// Starts a rename of the texture and hands back its newest spare, if it has one. For a texture that is not tracked, or is tracked
// with another shape, a tracking begins: it has no spare yet. `seq` is the submission that the rename belongs to.
pub fn take_spare(
    pool: Pool,
    book: PacingBook,
    textures: &mut [u64],
    retiring: &[u64],
    doomed: &mut [u64],
    spares: &mut [u64],
    newest: &mut [u64],
    stamps: &mut [u64],
    id: u64,
    shape: VersionShape,
    records: bool,
    seq: u64,
) -> TakeAnswer
    requires { is_pool (lent_by pool book textures.old retiring.now doomed.old spares.old newest.old stamps.old) ≡ true }
    ensures { (taken_told result.taken, at_exit result.pool book textures.new retiring.now doomed.new spares.new newest.new stamps.new)
        ≡ take_spare_on (at_entry pool book textures.old retiring.now doomed.old spares.old newest.old stamps.old) id shape records seq }
{
    let look = match look_up(pool, textures, stamps.len(), id, shape, records, seq) {
        Ok(look) => look,
        Err(refusal) => {
            return TakeAnswer {
                pool: same_counts(pool),
                taken: Err(refusal),
            };
        }
    };
    match look.before {
        Before::SameShape => take_newest(pool, textures, spares, look.place, seq),
        Before::Untracked => {
            let new = begun(look, id, shape, records, seq);
            TakeAnswer {
                pool: start_tracking(pool, textures, newest, stamps, new),
                taken: Ok(None),
            }
        }
        Before::OtherShape => {
            let renewed = begun(look, id, shape, records, seq);
            TakeAnswer {
                pool: renew_tracking(
                    pool, book, textures, retiring, doomed, spares, newest, stamps, renewed,
                ),
                taken: Ok(None),
            }
        }
    }
}
