// Figures of calls, each made of a pool of one texture place, one version place and one page, just opened.
use crate::print::{figure, outcome_of};
use grid_shapes::Refusal;
use grid_stamps::PAGE_STAMPS;
use pool_memory::COPY_STRIDE;
use pool_open::{opened_book, opened_pool};
use pool_records::{DOOMED_STRIDE, RETIRING_STRIDE, SPARE_STRIDE, TEXTURE_STRIDE};
use pool_rules::{GRID_STRIDE, Held, LIMIT, MOST_GRIDS};
use test_common::plain_shape;

// What a take and a trim said, and how many textures are tracked afterwards.
#[derive(Clone, Copy)]
struct AfterTrim {
    taken: u64,
    trimmed: u64,
    tracked: usize,
}

// Begins a tracking in submission `seq`, then trims.
fn trimmed(seq: u64, current: u64) -> AfterTrim {
    let mut textures = [0u64; TEXTURE_STRIDE];
    let retiring = [0u64; RETIRING_STRIDE];
    let mut doomed = [0u64; DOOMED_STRIDE];
    let mut spares = [0u64; SPARE_STRIDE];
    let mut newest = [0u64; MOST_GRIDS * GRID_STRIDE];
    let mut stamps = [0u64; PAGE_STAMPS];
    let book = opened_book();
    let begun = pool::take_spare(
        opened_pool(0),
        book,
        &mut textures,
        &retiring,
        &mut doomed,
        &mut spares,
        &mut newest,
        &mut stamps,
        7,
        plain_shape(2, 64, 64, 1, 1, 0),
        true,
        seq,
    );
    let done = pool::trim(
        begun.pool,
        book,
        &mut textures,
        &retiring,
        &mut doomed,
        &mut spares,
        &mut newest,
        &mut stamps,
        current,
    );
    let pool = done.pool;
    AfterTrim {
        taken: outcome_of(&begun.taken),
        trimmed: outcome_of(&done.outcome),
        tracked: pool.tracked,
    }
}

// Prints the outcome of a take and of a trim in that submission.
fn print_submission(seq: u64) {
    let taking = trimmed(seq, 0);
    figure(b"take_in_submission", &[seq, taking.taken]);
    let trimming = trimmed(0, seq);
    figure(b"trim_in_submission", &[seq, trimming.trimmed]);
}

// Prints how many of one texture, whose tracking began in submission 10, are tracked after a trim.
fn print_tracked(current: u64) {
    let left = trimmed(10, current);
    figure(
        b"tracked_from_10_after_trim_in",
        &[current, left.tracked as u64],
    );
}

// Prints the outcome of a pop of what is settled.
fn print_settled(settled: u64) {
    let textures = [0u64; TEXTURE_STRIDE];
    let retiring = [0u64; RETIRING_STRIDE];
    let doomed = [0u64; DOOMED_STRIDE];
    let spares = [0u64; SPARE_STRIDE];
    let newest = [0u64; MOST_GRIDS * GRID_STRIDE];
    let stamps = [0u64; PAGE_STAMPS];
    let answer = pool::pop_retired(
        opened_pool(0),
        opened_book(),
        &textures,
        &retiring,
        &doomed,
        &spares,
        &newest,
        &stamps,
        settled,
    );
    figure(b"pop_settled", &[settled, outcome_of(&answer.popped)]);
}

// Returns the plan of a fresh version of a cube of fifteen levels, whose copies are as many as a shape can have.
fn plan(answers: &mut [u64]) -> Result<usize, Refusal> {
    let textures = [0u64; TEXTURE_STRIDE];
    let retiring = [0u64; RETIRING_STRIDE];
    let doomed = [0u64; DOOMED_STRIDE];
    let spares = [0u64; SPARE_STRIDE];
    let newest = [0u64; MOST_GRIDS * GRID_STRIDE];
    let stamps = [0u64; PAGE_STAMPS];
    pool::preserve_plan(
        opened_pool(0),
        opened_book(),
        &textures,
        &retiring,
        &doomed,
        &spares,
        &newest,
        &stamps,
        answers,
        7,
        plain_shape(2, 16384, 16384, 1, 15, 1),
        Held::Unknown,
        0,
        0,
        false,
    )
}

// Prints how many copies that plan has, or the number of its refusal.
fn print_plan(answer: Result<usize, Refusal>) {
    match answer {
        Ok(n) => figure(b"copies_of_the_longest_plan", &[n as u64]),
        Err(refusal) => figure(b"longest_plan_refused", &[refusal.number()]),
    }
}

// Prints what it says with room for ninety copies, and with room for one fewer.
fn print_plans() {
    let mut ninety = [0u64; 90 * COPY_STRIDE];
    print_plan(plan(&mut ninety));
    let mut fewer = [0u64; 89 * COPY_STRIDE];
    print_plan(plan(&mut fewer));
}

// Prints the figures of calls, on both sides of each limit.
pub fn print_calls() {
    print_submission(LIMIT);
    print_submission(281474976710657);
    print_settled(LIMIT);
    print_settled(281474976710657);
    print_tracked(130);
    print_tracked(131);
    print_plans();
}
