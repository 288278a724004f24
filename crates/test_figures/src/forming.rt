// The limits of the numbers that a pool may hold, on both sides.
use crate::print::{figure, pool_outcome};
use grid_shapes::MOST_SHAPE_BYTES;
use grid_stamps::PAGE_STAMPS;
use pool_formed::is_pool;
use pool_memory::{PacingBook, Pool};
use pool_records::{RETIRING_STRIDE, SPARE_STRIDE, TEXTURE_STRIDE};
use pool_rules::{GRID_STRIDE, LIMIT, MOST_GRIDS};

// Returns a pool of one texture place, one version place and one page. Nothing is tracked, and one version of `bytes` bytes is in
// the destroy queue.
fn pool_with(bytes: u64, since: u64, trackings: u64) -> Pool {
    Pool {
        tracked: 0,
        kept: 0,
        grids: 0,
        stamps: 0,
        head: 0,
        popped: 0,
        queued: 0,
        first: 0,
        doomed: 1,
        since,
        trackings,
        parked: 0,
        dooming: bytes,
        cap: 0,
        line: 0,
    }
}

// Returns a pacing book.
fn book_with(arrivals: u64, slot: usize) -> PacingBook {
    PacingBook {
        arrivals: [arrivals; 8],
        slot,
        pressed: 0,
        excess: 0,
    }
}

// Returns the outcome of every call on the memory: 1 if it forms no pool.
fn outcome(pool: Pool, book: PacingBook) -> u64 {
    let textures = [0u64; TEXTURE_STRIDE];
    let retiring = [0u64; RETIRING_STRIDE];
    let doomed = [0, pool.dooming];
    let spares = [0u64; SPARE_STRIDE];
    let newest = [0u64; MOST_GRIDS * GRID_STRIDE];
    let stamps = [0u64; PAGE_STAMPS];
    let formed = is_pool(
        pool, book, &textures, &retiring, &doomed, &spares, &newest, &stamps,
    );
    pool_outcome(formed)
}

// Prints it for a count of trackings.
fn print_trackings(trackings: u64) {
    let pool = pool_with(0, 0, trackings);
    figure(
        b"formed_with_trackings",
        &[trackings, outcome(pool, book_with(0, 0))],
    );
}

// Prints it for a version's bytes.
fn print_bytes(bytes: u64) {
    let pool = pool_with(bytes, 0, 0);
    figure(
        b"formed_with_version_bytes",
        &[bytes, outcome(pool, book_with(0, 0))],
    );
}

// Prints it for a slot of the book.
fn print_slot(slot: usize) {
    let pool = pool_with(0, 0, 0);
    figure(
        b"formed_with_slot",
        &[slot as u64, outcome(pool, book_with(0, slot))],
    );
}

// Prints it for arrivals in the book.
fn print_arrivals(arrivals: u64) {
    let pool = pool_with(0, 0, 0);
    figure(
        b"formed_with_arrivals",
        &[arrivals, outcome(pool, book_with(arrivals, 0))],
    );
}

// Prints it for arrivals since the last take.
fn print_since(since: u64) {
    let pool = pool_with(0, since, 0);
    figure(
        b"formed_with_1_queued_and_since",
        &[since, outcome(pool, book_with(0, 0))],
    );
}

// Prints the outcomes on both sides of each limit.
pub fn print_numbers() {
    print_trackings(LIMIT);
    print_trackings(281474976710657);
    print_bytes(MOST_SHAPE_BYTES);
    print_bytes(17592186044417);
    print_slot(7);
    print_slot(8);
    print_arrivals(4096);
    print_arrivals(4097);
    print_since(1);
    print_since(2);
}
