// The sheet of a pool, printed over and over.
ghost use Rattle.std.specs.Prelude.{◌≡◌, true};
ghost use Rattle.pool_memory.specs.Lent.{lent_by};
ghost use Rattle.pool_memory.specs.IsPool.{is_pool};

use grid_shapes::Refusal;
use pool_memory::{PacingBook, Pool};

// Returns how many bytes a sheet has, or 0.
fn sheet_number(answer: Result<usize, Refusal>) -> u64 {
    answer.unwrap_or(0) as u64
}

// Prints the sheet k times, and adds up the bytes.
pub fn print_known(
    pool: Pool,
    book: PacingBook,
    textures: &[u64],
    retiring: &[u64],
    doomed: &[u64],
    spares: &[u64],
    newest: &[u64],
    stamps: &[u64],
    page: &mut [u8],
    k: u64,
) -> u64
    requires { is_pool (lent_by pool book textures.now retiring.now doomed.now spares.now newest.now stamps.now) ≡ true }
{
    let mut sum = 0u64;
    for _ in 0..k {
        let printed = pool_sheet::print_sheet(
            pool, book, textures, retiring, doomed, spares, newest, stamps, page,
        );
        sum = sum.wrapping_add(sheet_number(printed));
    }
    sum
}

// Prints it k times by the call that first tests whether the memory forms a pool.
pub fn print_tested(
    pool: Pool,
    book: PacingBook,
    textures: &[u64],
    retiring: &[u64],
    doomed: &[u64],
    spares: &[u64],
    newest: &[u64],
    stamps: &[u64],
    page: &mut [u8],
    k: u64,
) -> u64 {
    let mut sum = 0u64;
    for _ in 0..k {
        let printed = pool::print_sheet(
            pool, book, textures, retiring, doomed, spares, newest, stamps, page,
        );
        sum = sum.wrapping_add(sheet_number(printed));
    }
    sum
}
