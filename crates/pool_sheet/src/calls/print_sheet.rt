// print_sheet: the pool as a page of text.
ghost use Rattle.std.specs.Prelude.{◌≡◌, true};
ghost use Rattle.pool_memory.specs.Lent.{lent_by, at_entry};
ghost use Rattle.pool_memory.specs.IsPool.{is_pool};
ghost use Rattle.pool_sheet.specs.PrintSheet.{sheet_told, print_sheet_on};

use crate::lines::{LINE_BYTES, put_head, put_textures, put_totals};
use grid_shapes::Refusal;
use pool_memory::{PacingBook, Pool};

// Prints the sheet at the front of the buffer: a line for each texture between a head line and one of totals. The totals are the pool's own
// counts, so that nothing is added up. Answers how many bytes the sheet has, or that the buffer is shorter.
pub fn print_sheet(
    pool: Pool,
    book: PacingBook,
    textures: &[u64],
    retiring: &[u64],
    doomed: &[u64],
    spares: &[u64],
    newest: &[u64],
    stamps: &[u64],
    buffer: &mut [u8],
) -> Result<usize, Refusal>
    requires { is_pool (lent_by pool book textures.now retiring.now doomed.now spares.now newest.now stamps.now) ≡ true }
    ensures { (sheet_told result, buffer.new)
        ≡ print_sheet_on (at_entry pool book textures.now retiring.now doomed.now spares.now newest.now stamps.now) buffer.old }
{
    let tracked = pool.tracked;
    let size = LINE_BYTES * (tracked + 2);
    if buffer.len() < size {
        return Err(Refusal::ShortAnswer);
    }
    put_head(buffer);
    put_textures(buffer, LINE_BYTES, textures, tracked);
    put_totals(
        buffer,
        LINE_BYTES * (tracked + 1),
        pool.kept as u64,
        pool.parked,
    );
    Ok(size)
}
