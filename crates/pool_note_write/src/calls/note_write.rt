// note_write: a reported write is counted, and the tiles that it touches are stamped.
ghost use Rattle.std.specs.Prelude.{◌≡◌, true};
ghost use Rattle.pool_memory.specs.Lent.{lent_by, at_entry, at_exit};
ghost use Rattle.pool_memory.specs.IsPool.{is_pool};
ghost use Rattle.grid_shapes.specs.Outcomes.{outcome_number};
ghost use Rattle.pool_memory.specs.Calls.{told_number, note_write_on};

use crate::dropping::drop_history;
use crate::history::{history_at, in_shape, set_history, stamp_subresource};
use grid_rects::TexelRect;
use grid_shapes::Refusal;
use pool_access::texture_at;
use pool_history::Used;
use pool_memory::{DoneAnswer, PacingBook, Pool, same_counts};
use pool_records::find_texture;
use pool_rules::LIMIT;

// Notes a write of the rectangle to a slice's level. A write outside the texture's slices or levels means that the history no
// longer describes the texture: it is dropped, even where the count is spent, so that every later copy is whole.
pub fn note_write(
    pool: Pool,
    book: PacingBook,
    textures: &mut [u64],
    retiring: &[u64],
    doomed: &[u64],
    spares: &[u64],
    newest: &mut [u64],
    stamps: &mut [u64],
    id: u64,
    slice: u64,
    level: u64,
    rect: TexelRect,
) -> DoneAnswer
    requires { is_pool (lent_by pool book textures.old retiring.now doomed.now spares.now newest.old stamps.old) ≡ true }
    ensures { (told_number (outcome_number result.outcome), at_exit result.pool book textures.new retiring.now doomed.now spares.now newest.new stamps.new)
        ≡ note_write_on (at_entry pool book textures.old retiring.now doomed.now spares.now newest.old stamps.old) id slice level rect }
{
    let tracked = pool.tracked;
    let i = find_texture(textures, tracked, id);
    let history = history_at(textures, tracked, i, id);
    let Some(n) = history else {
        return DoneAnswer {
            pool: same_counts(pool),
            outcome: Ok(()),
        };
    };
    let t = texture_at(textures, i);
    if !in_shape(t.shape, slice, level) {
        let used = Used {
            grids: pool.grids,
            stamps: pool.stamps,
        };
        let still = drop_history(textures, newest, stamps, tracked, used, i);
        return DoneAnswer {
            pool: Pool {
                grids: still.grids,
                stamps: still.stamps,
                ..pool
            },
            outcome: Ok(()),
        };
    }
    if LIMIT <= n {
        return DoneAnswer {
            pool: same_counts(pool),
            outcome: Err(Refusal::CounterSpent),
        };
    }
    stamp_subresource(textures, newest, stamps, i, slice, level, rect, n + 1);
    set_history(textures, i, Some(n + 1));
    DoneAnswer {
        pool,
        outcome: Ok(()),
    }
}
