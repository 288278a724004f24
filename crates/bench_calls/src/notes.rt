// The program's own numbers, in one slice: 4,096 that the calls fill, then 4,096 ids, then what each texture's spare holds.
use crate::phases::Order;
use bench_common::{mixed, random_from};

// Stores a number at place k, where there is one.
fn put_at(notes: &mut [u64], k: usize, number: u64) {
    if k < notes.len() {
        notes[k] = number;
    }
}

// Returns the number at place k, or 0.
fn number_at(notes: &[u64], k: usize) -> u64 {
    notes.get(k).copied().unwrap_or(0)
}

// Returns the id of the i-th texture of a round.
pub fn id_at(notes: &[u64], i: usize) -> u64 {
    number_at(notes, i.wrapping_add(4096))
}

// Returns what the spare of the i-th texture holds.
pub fn held_at(notes: &[u64], i: usize) -> u64 {
    number_at(notes, i.wrapping_add(8192))
}

// Keeps what the spare of the i-th texture holds, for its plan.
pub fn keep_held(notes: &mut [u64], i: usize, number: u64) {
    put_at(notes, i.wrapping_add(8192), number);
}

// Returns a small id. Ids are in no order, so that a search goes to another place each time.
fn small_id(i: usize) -> u64 {
    ((i % 65536) * 40503 % 65536) as u64
}

// Returns the id of texture i.
fn id_of(i: usize, order: Order) -> u64 {
    match order {
        Order::Random => random_from(i as u64),
        _ => small_id(i),
    }
}

// Notes the ids of n textures.
pub fn number_textures(notes: &mut [u64], n: usize, order: Order) {
    for i in 0..n {
        put_at(notes, i.wrapping_add(4096), id_of(i, order));
    }
}

// Has two ids change places.
fn swap_ids(notes: &mut [u64], i: usize, j: usize) {
    let a = id_at(notes, i);
    let b = id_at(notes, j);
    put_at(notes, i.wrapping_add(4096), b);
    put_at(notes, j.wrapping_add(4096), a);
}

// Puts the ids into another order: each changes places with one that is drawn among those up to it, so that no order is likelier than another.
pub fn shuffle_ids(notes: &mut [u64], n: usize, seed: u64) {
    let mut drawn = random_from(seed);
    for i in 0..n {
        drawn = mixed(drawn);
        swap_ids(notes, i, (drawn % (i as u64 + 1)) as usize);
    }
}
