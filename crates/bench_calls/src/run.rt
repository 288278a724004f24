// The rounds on a pool just opened.
ghost use Rattle.std.specs.Prelude.{◌≤◌, length};

use crate::call_all::call_all;
use crate::notes::{id_at, number_textures, shuffle_ids};
use crate::opening::open_work;
use crate::phases::{Task, counted, number_of, phase_at, round_of, shuffled_in, steps_of};
use crate::report::report;
use crate::testing::test_lines;
use crate::totals::{added, no_totals};
use bench_common::{elapsed, reading};
use grid_stamps::PAGE_STAMPS;
use pool_records::{DOOMED_STRIDE, RETIRING_STRIDE, SPARE_STRIDE, TEXTURE_STRIDE};
use pool_rules::newest_length;
use std::time::CpuClock;

// Runs the rounds, phase after phase. Nothing is done where the memory is not enough for a pool.
fn run(
    clock: &impl CpuClock,
    textures: &mut [u64],
    retiring: &mut [u64],
    doomed: &mut [u64],
    spares: &mut [u64],
    newest: &mut [u64],
    stamps: &mut [u64],
    notes: &mut [u64],
    task: Task,
) {
    let opened = open_work(textures, retiring, doomed, spares, newest, stamps);
    let Ok(()) = opened.outcome else {
        return;
    };
    number_textures(notes, task.textures, task.order);
    let mut totals = no_totals();
    let mut counts = opened.pool;
    let mut paces = opened.book;
    for k in 0..steps_of(task.rounds) {
        let seq = round_of(k);
        let Some(phase) = phase_at(task.workload, k % 8) else {
            continue;
        };
        let moved = shuffled_in(task.order, task.textures, k % 8);
        shuffle_ids(notes, moved, seq);
        let start = reading(clock);
        let done = call_all(
            counts, paces, textures, retiring, doomed, spares, newest, stamps, notes, task, phase,
            seq,
        );
        let time = counted(task.workload, phase, seq, elapsed(clock, start));
        totals = added(totals, number_of(phase), time, done.number);
        counts = done.pool;
        paces = done.book;
    }
    report(clock, totals, counts, id_at(notes, 0));
    test_lines(
        clock, counts, paces, textures, retiring, doomed, spares, newest, stamps, 64,
    );
}

// Lends the parts of the memory that t textures, v versions and p pages take.
pub fn run_part(
    clock: &impl CpuClock,
    textures: &mut [u64],
    retiring: &mut [u64],
    doomed: &mut [u64],
    spares: &mut [u64],
    newest: &mut [u64],
    stamps: &mut [u64],
    notes: &mut [u64],
    t: usize,
    v: usize,
    p: usize,
    task: Task,
)
    requires { (t ≤ 4096) × (v ≤ 4096) × (p ≤ 4096) × (90112 ≤ length textures.old) × (28672 ≤ length retiring.old) × (8192 ≤ length doomed.old)
        × (12288 ≤ length spares.old) × (737280 ≤ length newest.old) × (4194304 ≤ length stamps.old) }
{
    let a = TEXTURE_STRIDE * t;
    let b = RETIRING_STRIDE * v;
    let c = DOOMED_STRIDE * v;
    let d = SPARE_STRIDE * v;
    let e = PAGE_STAMPS * p;
    let g = newest_length(t, e);
    run(
        clock,
        &mut textures[..a],
        &mut retiring[..b],
        &mut doomed[..c],
        &mut spares[..d],
        &mut newest[..g],
        &mut stamps[..e],
        notes,
        task,
    );
}
