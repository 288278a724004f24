// The pool is filled, and its sheet printed.
ghost use Rattle.std.specs.Prelude.{◌≡◌, true};
ghost use Rattle.pool_memory.specs.Lent.{lent_by};
ghost use Rattle.pool_memory.specs.IsPool.{is_pool};

use crate::fill::fill;
use crate::sheets::{print_known, print_tested};
use bench_common::{STDOUT_FILENO, elapsed, line, reading};
use pool_formed::is_pool;
use pool_memory::{PacingBook, Pool};
use pool_open::{opened_book, opened_pool};
use std::time::CpuClock;

// Writes the sheet of n textures from the front of a page, a line of 73 bytes for each and two more.
fn write_sheet(page: &[u8], n: usize) {
    let size = 73 * (n % 65536 + 2);
    if size <= page.len() {
        io::write_all(STDOUT_FILENO, &page[..size]);
    }
}

// Prints what `known` sheets took, what `tested` took of memory that is tested before each, the bytes of both, and the sheet.
fn time_sheets(
    clock: &impl CpuClock,
    pool: Pool,
    book: PacingBook,
    textures: &[u64],
    retiring: &[u64],
    doomed: &[u64],
    spares: &[u64],
    newest: &[u64],
    stamps: &[u64],
    page: &mut [u8],
    known: u64,
    tested: u64,
)
    requires { is_pool (lent_by pool book textures.now retiring.now doomed.now spares.now newest.now stamps.now) ≡ true }
{
    let start = reading(clock);
    let known_bytes = print_known(
        pool, book, textures, retiring, doomed, spares, newest, stamps, page, known,
    );
    line(b"known ", elapsed(clock, start));
    let again = reading(clock);
    let tested_bytes = print_tested(
        pool, book, textures, retiring, doomed, spares, newest, stamps, page, tested,
    );
    line(b"tested ", elapsed(clock, again));
    line(b"known_bytes ", known_bytes);
    line(b"tested_bytes ", tested_bytes);
    write_sheet(page, pool.tracked);
}

// Fills a pool with n textures and has its sheets timed. The working set is 16 GiB, so that nothing is pressed. Nothing is printed where the
// memory forms no pool.
pub fn run(
    clock: &impl CpuClock,
    textures: &mut [u64],
    retiring: &mut [u64],
    doomed: &mut [u64],
    spares: &mut [u64],
    newest: &mut [u64],
    stamps: &mut [u64],
    page: &mut [u8],
    n: u64,
    known: u64,
    tested: u64,
) {
    let book = opened_book();
    let counts = fill(
        opened_pool(17179869184),
        book,
        textures,
        retiring,
        doomed,
        spares,
        newest,
        stamps,
        n,
    );
    if !is_pool(
        counts, book, textures, retiring, doomed, spares, newest, stamps,
    ) {
        return;
    }
    time_sheets(
        clock, counts, book, textures, retiring, doomed, spares, newest, stamps, page, known,
        tested,
    );
}
