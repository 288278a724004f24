// records_writes: whether a texture keeps a history.
ghost use Rattle.std.specs.Prelude.{◌≡◌, true};
ghost use Rattle.pool_rules.specs.NoteWrite.{records_writes};
ghost use Rattle.pool_memory.specs.Lent.{lent_by, at_entry};
ghost use Rattle.pool_memory.specs.Reading.{model_of};
ghost use Rattle.pool_memory.specs.IsPool.{is_pool};

use crate::history::history_at;
use pool_memory::{PacingBook, Pool};
use pool_records::find_texture;

// Tells whether the texture keeps a write history, so that its writes are to be reported.
pub fn records_writes(
    pool: Pool,
    book: PacingBook,
    textures: &[u64],
    retiring: &[u64],
    doomed: &[u64],
    spares: &[u64],
    newest: &[u64],
    stamps: &[u64],
    id: u64,
) -> bool
    requires { is_pool (lent_by pool book textures.now retiring.now doomed.now spares.now newest.now stamps.now) ≡ true }
    ensures { result ≡ records_writes (model_of (at_entry pool book textures.now retiring.now doomed.now spares.now newest.now stamps.now)) id }
{
    let tracked = pool.tracked;
    let i = find_texture(textures, tracked, id);
    history_at(textures, tracked, i, id).is_some()
}
