// pop_retired: the queue's front goes to the hand if its submission is settled.
ghost use Rattle.std.specs.Prelude.{◌≡◌, true};
ghost use Rattle.pool_memory.specs.Lent.{lent_by, at_entry, at_exit};
ghost use Rattle.pool_memory.specs.IsPool.{is_pool};
ghost use Rattle.pool_memory.specs.Calls.{pop_retired_on};
ghost use Rattle.pool_retire.specs.Answers.{popped_told};

use crate::counts::front_popped;
use grid_shapes::Refusal;
use pool_access::retiring_at;
use pool_memory::{PacingBook, Pool, PoppedVersion};
use pool_records::RETIRING_STRIDE;
use pool_rules::LIMIT;

// The pool after the call, with the version that is in the hand then, or none, since no queued submission is settled.
#[derive(Clone, Copy)]
pub struct PopAnswer {
    pub pool: Pool,
    pub popped: Result<Option<PoppedVersion>, Refusal>,
}

// Takes the queue's front into the hand if `settled` has passed its submission, so that no command that named the version still
// runs. Nothing moves: the hand is the ring's front.
pub fn pop_retired(
    pool: Pool,
    book: PacingBook,
    textures: &[u64],
    retiring: &[u64],
    doomed: &[u64],
    spares: &[u64],
    newest: &[u64],
    stamps: &[u64],
    settled: u64,
) -> PopAnswer
    requires { is_pool (lent_by pool book textures.now retiring.now doomed.now spares.now newest.now stamps.now) ≡ true }
    ensures { (popped_told result.popped, at_exit result.pool book textures.now retiring.now doomed.now spares.now newest.now stamps.now)
        ≡ pop_retired_on (at_entry pool book textures.now retiring.now doomed.now spares.now newest.now stamps.now) settled }
{
    if settled > LIMIT {
        return PopAnswer {
            pool,
            popped: Err(Refusal::BadSubmission),
        };
    }
    if pool.popped != 0 {
        return PopAnswer {
            pool,
            popped: Err(Refusal::HandFull),
        };
    }
    if pool.queued == 0 {
        return PopAnswer {
            pool,
            popped: Ok(None),
        };
    }
    let places = retiring.len() / RETIRING_STRIDE;
    let front = retiring_at(retiring, places, pool.head, 0);
    if front.seq > settled {
        return PopAnswer {
            pool,
            popped: Ok(None),
        };
    }
    PopAnswer {
        pool: front_popped(pool),
        popped: Ok(Some(PoppedVersion {
            id: front.id,
            view: front.view,
        })),
    }
}
