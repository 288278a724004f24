// The counts and the pacing book as numbers: stores 0 and 1 of a put line.
use pool_memory::{PacingBook, Pool};

// Returns the counts in the order of `Pool`.
pub fn counts_of(pool: Pool) -> [u64; 15] {
    [
        pool.tracked as u64,
        pool.kept as u64,
        pool.grids as u64,
        pool.stamps as u64,
        pool.head as u64,
        pool.popped as u64,
        pool.queued as u64,
        pool.first as u64,
        pool.doomed as u64,
        pool.since,
        pool.trackings,
        pool.parked,
        pool.dooming,
        pool.cap,
        pool.line,
    ]
}

// Returns the counts that are these numbers.
pub fn pool_of(n: [u64; 15]) -> Pool {
    Pool {
        tracked: n[0] as usize,
        kept: n[1] as usize,
        grids: n[2] as usize,
        stamps: n[3] as usize,
        head: n[4] as usize,
        popped: n[5] as usize,
        queued: n[6] as usize,
        first: n[7] as usize,
        doomed: n[8] as usize,
        since: n[9],
        trackings: n[10],
        parked: n[11],
        dooming: n[12],
        cap: n[13],
        line: n[14],
    }
}

// Returns the pacing book's numbers: the eight arrivals first.
pub fn book_numbers(book: PacingBook) -> [u64; 11] {
    let [a, b, c, d, e, f, g, h] = book.arrivals;
    let slot = book.slot as u64;
    [a, b, c, d, e, f, g, h, slot, book.pressed, book.excess]
}

// Returns the pacing book that is these numbers.
pub fn book_of(n: [u64; 11]) -> PacingBook {
    let [a, b, c, d, e, f, g, h, slot, pressed, excess] = n;
    PacingBook {
        arrivals: [a, b, c, d, e, f, g, h],
        slot: slot as usize,
        pressed,
        excess,
    }
}
