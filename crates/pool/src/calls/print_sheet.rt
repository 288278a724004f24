// print_sheet, on any memory: the pool as a page of text.
ghost use Rattle.std.specs.Prelude.{◌≡◌};
ghost use Rattle.pool_memory.specs.Lent.{at_entry};
ghost use Rattle.pool_sheet.specs.PrintSheet.{sheet_told, print_sheet_on};

use grid_shapes::Refusal;
use pool_formed::is_pool;
use pool_memory::{PacingBook, Pool};

// Prints the sheet at the front of the buffer.
pub fn print_sheet(
    pool: Pool,
    book: PacingBook,
    textures: &[u64],
    retiring: &[u64],
    doomed: &[u64],
    spares: &[u64],
    newest: &[u64],
    stamps: &[u64],
    buffer: &mut [u8],
) -> Result<usize, Refusal>
    ensures { (sheet_told result, buffer.new)
        ≡ print_sheet_on (at_entry pool book textures.now retiring.now doomed.now spares.now newest.now stamps.now) buffer.old }
{
    if !is_pool(
        pool, book, textures, retiring, doomed, spares, newest, stamps,
    ) {
        return Err(Refusal::NoPool);
    }
    pool_sheet::print_sheet(
        pool, book, textures, retiring, doomed, spares, newest, stamps, buffer,
    )
}
