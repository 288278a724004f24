// Times the calls of the pool, on memory that forms one: WORKLOAD ORDER TEXTURES ROUNDS [VERSIONS PAGES]. bench/README.md says how it is used.
#![tactic(auto)]

mod answered;
mod asked;
mod call_all;
mod call_one;
mod notes;
mod opening;
mod phases;
mod printing;
mod report;
mod room;
mod run;
mod testing;
mod totals;

use asked::bench_stamps;
use bench_common::{
    argument, doomed_places, is_given, retiring_places, spare_places, texture_places,
};
use grid_stamps::PAGE_STAMPS;
use phases::{Task, Workload, order_of, workload_of};
use std::time::CpuClock;

// Runs the rounds on memory for as many places as may be lent.
fn bench(clock: &impl CpuClock, t: usize, v: usize, p: usize, task: Task) {
    if t.max(v).max(p) > 4096 {
        return;
    }
    let mut textures = texture_places();
    let mut retiring = retiring_places();
    let mut doomed = doomed_places();
    let mut spares = spare_places();
    let mut newest = room::newest_places();
    let mut stamps = room::stamp_places();
    let mut notes = room::note_places();
    run::run_part(
        clock,
        &mut textures,
        &mut retiring,
        &mut doomed,
        &mut spares,
        &mut newest,
        &mut stamps,
        &mut notes,
        t,
        v,
        p,
        task,
    );
}

// Returns the levels of a texture: four in lifetimes of few textures, as bench/src/bin/calls.rs has it, else one.
fn levels_of(workload: Workload, t: usize) -> u64 {
    if (workload == Workload::Lifetimes) & (t <= 1024) {
        4
    } else {
        1
    }
}

// Returns as many pages as the stamps of all textures need.
fn pages_of(levels: u64, t: usize) -> usize {
    (bench_stamps(t, levels) + (PAGE_STAMPS - 1)) / PAGE_STAMPS
}

// Takes four arguments, for as many versions as textures and the pages that they need, or six.
fn main(rt: HostRuntime) {
    if !is_given(&rt, 4) {
        return;
    }
    let workload = workload_of(argument(&rt, 1));
    let t = argument(&rt, 3) as usize;
    let levels = levels_of(workload, t);
    let task = Task {
        workload,
        order: order_of(argument(&rt, 2)),
        textures: t,
        levels,
        rounds: argument(&rt, 4),
    };
    if !is_given(&rt, 6) {
        bench(&rt, t, t, pages_of(levels, t), task);
        return;
    }
    bench(
        &rt,
        t,
        argument(&rt, 5) as usize,
        argument(&rt, 6) as usize,
        task,
    );
}
