// What is printed.
use crate::totals::{Totals, total_lines};
use bench_common::{idle_time, line};
use pool_memory::Pool;
use pool_rules::GRID_STRIDE;
use std::time::CpuClock;

// Prints the microseconds of every phase, and numbers that the Rust must have too: `id` is the first of the last round.
pub fn report(clock: &impl CpuClock, t: Totals, pool: Pool, id: u64) {
    line(b"clock ", idle_time(clock, 100000));
    total_lines(t);
    line(b"versions ", pool.kept as u64);
    line(b"grids ", (pool.grids / GRID_STRIDE) as u64);
    line(b"stamps ", pool.stamps as u64);
    line(b"tracked ", pool.tracked as u64);
    line(b"trackings ", pool.trackings);
    line(b"id ", id);
}
