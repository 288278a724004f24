// The sizes of the lent slices.
ghost use Rattle.std.specs.Prelude.{◌≡◌};
ghost use Rattle.pool_memory.specs.declared.pool.Pool.{Pool};
ghost use Rattle.pool_memory.specs.declared.book.PacingBook.{PacingBook};
ghost use Rattle.pool_memory.specs.Lent.{at_entry};
ghost use Rattle.pool_memory.specs.IsPool.{sizes_fit};
ghost use Rattle.pool_open.specs.Lengths.{lengths_fit};

use grid_stamps::PAGE_STAMPS;
use pool_records::{DOOMED_STRIDE, RETIRING_STRIDE, SPARE_STRIDE, TEXTURE_STRIDE};
use pool_rules::{MOST_PLACES, newest_length};

// Tests that slices of these lengths are of whole places, as many as may be lent, and fit together: `newest` has two numbers for each
// grid that can be in use. The textures are tested first, so that their grids cannot pass a word.
pub fn lengths_fit(
    textures: usize,
    retiring: usize,
    doomed: usize,
    spares: usize,
    newest: usize,
    stamps: usize,
) -> bool
    ensures { result ≡ lengths_fit textures retiring doomed spares newest stamps }
{
    let places = textures / TEXTURE_STRIDE;
    if places > MOST_PLACES {
        return false;
    }
    let versions = retiring / RETIRING_STRIDE;
    let pages = stamps / PAGE_STAMPS;
    let numbers = newest_length(places, stamps);
    (1 <= places)
        & (places <= MOST_PLACES)
        & (1 <= versions)
        & (versions <= MOST_PLACES)
        & (pages <= MOST_PLACES)
        & (textures == TEXTURE_STRIDE * places)
        & (retiring == RETIRING_STRIDE * versions)
        & (doomed == DOOMED_STRIDE * versions)
        & (spares == SPARE_STRIDE * versions)
        & (stamps == PAGE_STAMPS * pages)
        & (newest == numbers)
}

// Tests that the lent slices have the sizes that a pool needs, whatever its counts are.
pub fn sizes_fit(
    textures: &[u64],
    retiring: &[u64],
    doomed: &[u64],
    spares: &[u64],
    newest: &[u64],
    stamps: &[u64],
) -> bool
    ensures { (pool : Pool) (book : PacingBook)
        → result ≡ sizes_fit (at_entry pool book textures.now retiring.now doomed.now spares.now newest.now stamps.now) }
{
    lengths_fit(
        textures.len(),
        retiring.len(),
        doomed.len(),
        spares.len(),
        newest.len(),
        stamps.len(),
    )
}
