// Figures of histories (02, W-201), on one page of 1,024 stamps.
use crate::print::{figure, outcome_of};
use grid_shapes::VersionShape;
use grid_stamps::PAGE_STAMPS;
use pool_memory::Pool;
use pool_open::{opened_book, opened_pool};
use pool_records::{DOOMED_STRIDE, RETIRING_STRIDE, SPARE_STRIDE, TEXTURE_STRIDE};
use pool_rules::{GRID_STRIDE, MOST_GRIDS};
use pool_take_spare::TakeAnswer;
use test_common::plain_shape;

// Takes a version of a texture that is to have a history. There is one place for a version, and none is ever made.
fn begin(
    pool: Pool,
    textures: &mut [u64],
    newest: &mut [u64],
    stamps: &mut [u64],
    id: u64,
    shape: VersionShape,
) -> TakeAnswer {
    let retiring = [0u64; RETIRING_STRIDE];
    let mut doomed = [0u64; DOOMED_STRIDE];
    let mut spares = [0u64; SPARE_STRIDE];
    pool::take_spare(
        pool,
        opened_book(),
        textures,
        &retiring,
        &mut doomed,
        &mut spares,
        newest,
        stamps,
        id,
        shape,
        true,
        0,
    )
}

// Prints the outcome of a take whose history needs so many stamps, where another texture's 31 by 32 tiles leave 32.
fn print_last(needed: u64, last: VersionShape) {
    let mut textures = [0u64; 2 * TEXTURE_STRIDE];
    let mut newest = [0u64; 2 * MOST_GRIDS * GRID_STRIDE];
    let mut stamps = [0u64; PAGE_STAMPS];
    let first = begin(
        opened_pool(0),
        &mut textures,
        &mut newest,
        &mut stamps,
        7,
        plain_shape(2, 496, 512, 1, 1, 0),
    );
    let pool = first.pool;
    let begun = begin(pool, &mut textures, &mut newest, &mut stamps, 8, last);
    figure(
        b"take_with_32_stamps_free",
        &[needed, outcome_of(&begun.taken)],
    );
}

// Prints the outcome of a take with another shape, whose history needs so many stamps, where the texture's own history has all of them.
fn print_renewal(needed: u64, next: VersionShape) {
    let mut textures = [0u64; TEXTURE_STRIDE];
    let mut newest = [0u64; MOST_GRIDS * GRID_STRIDE];
    let mut stamps = [0u64; PAGE_STAMPS];
    let first = begin(
        opened_pool(0),
        &mut textures,
        &mut newest,
        &mut stamps,
        7,
        plain_shape(0, 512, 512, 1, 1, 0),
    );
    let pool = first.pool;
    let renewed = begin(pool, &mut textures, &mut newest, &mut stamps, 7, next);
    figure(
        b"renewal_on_a_full_page",
        &[needed, outcome_of(&renewed.taken)],
    );
}

// Prints the figures of histories, on both sides of each limit.
pub fn print_histories() {
    print_last(32, plain_shape(2, 512, 16, 1, 1, 0));
    print_last(33, plain_shape(2, 176, 48, 1, 1, 0));
    print_renewal(1024, plain_shape(2, 512, 512, 1, 1, 0));
    print_renewal(1280, plain_shape(2, 512, 512, 1, 2, 0));
}
