// The test that memory forms a pool, and a plain read of the same memory.
use bench_common::{elapsed, line, reading};
use pool_formed::is_pool;
use pool_memory::{PacingBook, Pool};
use std::time::CpuClock;

// What was timed, and a number that depends on everything read.
#[derive(Clone, Copy)]
struct Timed {
    time: u64,
    sum: u64,
}

// Tests k times that the memory forms a pool, and counts the tests that passed.
fn test_all(
    clock: &impl CpuClock,
    pool: Pool,
    book: PacingBook,
    textures: &[u64],
    retiring: &[u64],
    doomed: &[u64],
    spares: &[u64],
    newest: &[u64],
    stamps: &[u64],
    k: u64,
) -> Timed {
    // Tests once before the clock starts, so that the first pass is no slower than the others. With a single call of `is_pool` in the program
    // the compiler would inline it, and with it this function into `main`, whose stack would then hold the memory of all sizes at once.
    if !is_pool(
        pool, book, textures, retiring, doomed, spares, newest, stamps,
    ) {
        return Timed { time: 0, sum: 0 };
    }
    let start = reading(clock);
    let mut sum = 0u64;
    for _ in 0..k {
        if is_pool(
            pool, book, textures, retiring, doomed, spares, newest, stamps,
        ) {
            sum = sum.wrapping_add(1);
        }
    }
    Timed {
        time: elapsed(clock, start),
        sum,
    }
}

// Adds up the first n numbers of a slice, or all where it has fewer.
fn sum_of(s: &[u64], n: usize, from: u64) -> u64 {
    let mut sum = from;
    for number in &s[..n.min(s.len())] {
        sum = sum.wrapping_add(*number);
    }
    sum
}

// Adds up the memory that the test reads k times: of the newest stamps and the stamps, those in use.
fn read_all(
    clock: &impl CpuClock,
    pool: Pool,
    textures: &[u64],
    spares: &[u64],
    newest: &[u64],
    stamps: &[u64],
    k: u64,
) -> Timed {
    let start = reading(clock);
    let mut sum = 0;
    for _ in 0..k {
        sum = sum_of(textures, textures.len(), sum);
        sum = sum_of(spares, spares.len(), sum);
        sum = sum_of(newest, pool.grids, sum);
        sum = sum_of(stamps, pool.stamps, sum);
    }
    Timed {
        time: elapsed(clock, start),
        sum,
    }
}

// Prints what k tests and k sums took.
pub fn test_lines(
    clock: &impl CpuClock,
    pool: Pool,
    book: PacingBook,
    textures: &[u64],
    retiring: &[u64],
    doomed: &[u64],
    spares: &[u64],
    newest: &[u64],
    stamps: &[u64],
    k: u64,
) {
    let tested = test_all(
        clock, pool, book, textures, retiring, doomed, spares, newest, stamps, k,
    );
    let read = read_all(clock, pool, textures, spares, newest, stamps, k);
    line(b"passed ", tested.sum);
    line(b"is_pool ", tested.time);
    line(b"read ", read.time);
    line(b"sum ", read.sum);
}
