// note_mip_regeneration: one more write, which stamps every level but the first whole.
ghost use Rattle.std.specs.Prelude.{◌≡◌, true};
ghost use Rattle.pool_memory.specs.Lent.{lent_by, at_entry, at_exit};
ghost use Rattle.pool_memory.specs.IsPool.{is_pool};
ghost use Rattle.grid_shapes.specs.Outcomes.{outcome_number};
ghost use Rattle.pool_memory.specs.Calls.{told_number, note_mip_regeneration_on};

use crate::history::{history_at, regenerate_history, set_history};
use grid_shapes::Refusal;
use pool_memory::{DoneAnswer, PacingBook, Pool, same_counts};
use pool_records::find_texture;
use pool_rules::LIMIT;

// Notes that every level but the first was made again from it, on every slice. A texture without a history needs no note.
pub fn note_mip_regeneration(
    pool: Pool,
    book: PacingBook,
    textures: &mut [u64],
    retiring: &[u64],
    doomed: &[u64],
    spares: &[u64],
    newest: &mut [u64],
    stamps: &mut [u64],
    id: u64,
) -> DoneAnswer
    requires { is_pool (lent_by pool book textures.old retiring.now doomed.now spares.now newest.old stamps.old) ≡ true }
    ensures { (told_number (outcome_number result.outcome), at_exit result.pool book textures.new retiring.now doomed.now spares.now newest.new stamps.new)
        ≡ note_mip_regeneration_on (at_entry pool book textures.old retiring.now doomed.now spares.now newest.old stamps.old) id }
{
    let tracked = pool.tracked;
    let i = find_texture(textures, tracked, id);
    let history = history_at(textures, tracked, i, id);
    let Some(n) = history else {
        return DoneAnswer {
            pool: same_counts(pool),
            outcome: Ok(()),
        };
    };
    if LIMIT <= n {
        return DoneAnswer {
            pool: same_counts(pool),
            outcome: Err(Refusal::CounterSpent),
        };
    }
    regenerate_history(textures, newest, stamps, i, n + 1);
    set_history(textures, i, Some(n + 1));
    DoneAnswer {
        pool,
        outcome: Ok(()),
    }
}
