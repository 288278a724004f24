// Numbers put into a store.
use crate::counts::{book_numbers, book_of, counts_of, pool_of};
use pool_memory::{PacingBook, Pool};
use test_pool_lines::MOST_FIELDS;

// Puts the values of a line put,STORE,INDEX,VALUE .. into the store if it is that one. Values past the store's end are left out.
pub fn put_numbers(store: &mut [u64], number: u64, values: [u64; MOST_FIELDS], count: usize) {
    if (values[0] != number) | (store.len() as u64 <= values[1]) {
        return;
    }
    let index = values[1] as usize;
    let end = count.min(MOST_FIELDS).min(2 + (store.len() - index)).max(2);
    store[index..index + (end - 2)].copy_from_slice(&values[2..end]);
}

// Returns the counts with the values of a line put,0,INDEX,VALUE .. in their places.
pub fn put_counts(pool: Pool, values: [u64; MOST_FIELDS], count: usize) -> Pool {
    let mut counts = counts_of(pool);
    put_numbers(&mut counts, 0, values, count);
    pool_of(counts)
}

// Returns the pacing book with the values of a line put,1,INDEX,VALUE .. in their places.
pub fn put_book(book: PacingBook, values: [u64; MOST_FIELDS], count: usize) -> PacingBook {
    let mut numbers = book_numbers(book);
    put_numbers(&mut numbers, 1, values, count);
    book_of(numbers)
}
