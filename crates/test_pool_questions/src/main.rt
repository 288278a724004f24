// Questions about a pool, for what no event line reaches: standard input has events with questions between them, and standard output is held
// to the answers of a second implementation over the published Rust. compare/store_questions.sh wrote both; compare/README.md has the questions.
#![tactic(auto)]

mod answer_sheet;
mod constants;
mod line;
mod lines;
mod question;

use constants::{ENTRIES, INPUT_BYTES, PAGE_BYTES, PAGES, TEXTURES, VERSIONS};
use event_sessions::Stores;
use grid_stamps::PAGE_STAMPS;
use lines::run_lines;
use pool_memory::COPY_STRIDE;
use pool_records::{DOOMED_STRIDE, RETIRING_STRIDE, SPARE_STRIDE, TEXTURE_STRIDE};
use pool_rules::{GRID_STRIDE, MOST_GRIDS};
use test_common::STDIN_FILENO;

fn main() {
    let mut textures = [0; TEXTURES * TEXTURE_STRIDE];
    let mut retiring = [0; VERSIONS * RETIRING_STRIDE];
    let mut doomed = [0; VERSIONS * DOOMED_STRIDE];
    let mut spares = [0; VERSIONS * SPARE_STRIDE];
    let mut newest = [0; TEXTURES * MOST_GRIDS * GRID_STRIDE];
    let mut stamps = [0; PAGES * PAGE_STAMPS];
    let mut copies = [0; ENTRIES * COPY_STRIDE];
    let mut views = [0; ENTRIES];
    let mut input = [0; INPUT_BYTES];
    let mut page = [0; PAGE_BYTES];
    let to = io::read_full(STDIN_FILENO, &mut input);
    let mut stores = Stores {
        textures: &mut textures,
        retiring: &mut retiring,
        doomed: &mut doomed,
        spares: &mut spares,
        newest: &mut newest,
        stamps: &mut stamps,
        copies: &mut copies,
        views: &mut views,
    };
    run_lines(&input[0..to], &mut stores, &mut page);
}
