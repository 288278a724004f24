// All that is lent: the counts, the pacing book, six slices and two answer buffers.
ghost use Rattle.std.specs.Prelude.{◌≤◌, length};

use crate::counts::{book_numbers, counts_of};
use crate::dump::dump_store;
use crate::kept::{keep, kept_end};
use crate::put::put_numbers;
use pool_memory::{PacingBook, Pool};
use test_pool_lines::MOST_FIELDS;

// Copies the first stores, one behind the other, and returns where they end.
fn keep_first(
    copy: &mut [u64],
    pool: Pool,
    book: PacingBook,
    textures: &[u64],
    retiring: &[u64],
    doomed: &[u64],
) -> usize
    ensures { result ≤ length copy.old }
{
    let counts = counts_of(pool);
    let numbers = book_numbers(book);
    let one = keep(copy, 0, &counts);
    let two = keep(copy, one, &numbers);
    let three = keep(copy, two, textures);
    let four = keep(copy, three, retiring);
    keep(copy, four, doomed)
}

// Copies all of it.
pub fn keep_all(
    copy: &mut [u64],
    pool: Pool,
    book: PacingBook,
    textures: &[u64],
    retiring: &[u64],
    doomed: &[u64],
    spares: &[u64],
    newest: &[u64],
    stamps: &[u64],
    copies: &[u64],
    views: &[u64],
) {
    let one = keep_first(copy, pool, book, textures, retiring, doomed);
    let two = keep(copy, one, spares);
    let three = keep(copy, two, newest);
    let four = keep(copy, three, stamps);
    let five = keep(copy, four, copies);
    keep(copy, five, views);
}

// Returns where the copy of all of it ends if all is as it was copied.
fn all_kept_end(
    copy: &[u64],
    pool: Pool,
    book: PacingBook,
    textures: &[u64],
    retiring: &[u64],
    doomed: &[u64],
    spares: &[u64],
    newest: &[u64],
    stamps: &[u64],
    copies: &[u64],
    views: &[u64],
) -> Option<usize> {
    let counts = counts_of(pool);
    let numbers = book_numbers(book);
    let one = kept_end(copy, 0, &counts)?;
    let two = kept_end(copy, one, &numbers)?;
    let three = kept_end(copy, two, textures)?;
    let four = kept_end(copy, three, retiring)?;
    let five = kept_end(copy, four, doomed)?;
    let six = kept_end(copy, five, spares)?;
    let seven = kept_end(copy, six, newest)?;
    let eight = kept_end(copy, seven, stamps)?;
    let nine = kept_end(copy, eight, copies)?;
    kept_end(copy, nine, views)
}

// Returns whether all of it is as it was copied.
pub fn is_all_kept(
    copy: &[u64],
    pool: Pool,
    book: PacingBook,
    textures: &[u64],
    retiring: &[u64],
    doomed: &[u64],
    spares: &[u64],
    newest: &[u64],
    stamps: &[u64],
    copies: &[u64],
    views: &[u64],
) -> bool {
    all_kept_end(
        copy, pool, book, textures, retiring, doomed, spares, newest, stamps, copies, views,
    )
    .is_some()
}

// Puts the values of a line put,STORE,INDEX,VALUE .. into the slice or the buffer of that number.
pub fn put_slices(
    textures: &mut [u64],
    retiring: &mut [u64],
    doomed: &mut [u64],
    spares: &mut [u64],
    newest: &mut [u64],
    stamps: &mut [u64],
    copies: &mut [u64],
    views: &mut [u64],
    values: [u64; MOST_FIELDS],
    count: usize,
) {
    put_numbers(textures, 2, values, count);
    put_numbers(retiring, 3, values, count);
    put_numbers(doomed, 4, values, count);
    put_numbers(spares, 5, values, count);
    put_numbers(newest, 6, values, count);
    put_numbers(stamps, 7, values, count);
    put_numbers(copies, 8, values, count);
    put_numbers(views, 9, values, count);
}

// Prints the lines that put every number of the counts and of the pacing book that is not 0.
fn dump_counts(out: &mut [u8], pool: Pool, book: PacingBook)
    requires { 68 ≤ length out.old }
{
    let counts = counts_of(pool);
    let numbers = book_numbers(book);
    dump_store(out, 0, &counts);
    dump_store(out, 1, &numbers);
}

// Prints the lines that put every number that is not 0, those of the answer buffers left out.
pub fn dump_all(
    out: &mut [u8],
    pool: Pool,
    book: PacingBook,
    textures: &[u64],
    retiring: &[u64],
    doomed: &[u64],
    spares: &[u64],
    newest: &[u64],
    stamps: &[u64],
)
    requires { 68 ≤ length out.old }
{
    dump_counts(out, pool, book);
    dump_store(out, 2, textures);
    dump_store(out, 3, retiring);
    dump_store(out, 4, doomed);
    dump_store(out, 5, spares);
    dump_store(out, 6, newest);
    dump_store(out, 7, stamps);
}
