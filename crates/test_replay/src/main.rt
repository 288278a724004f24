// Stored lists of events, each run on a pool of its own: standard input has the lists, and standard output is held to the answers of the
// published Rust. compare/store.sh wrote both.
#![tactic(auto)]

mod constants;
mod list;
mod lists;
mod parts;
mod sizes;

use constants::{MOST_ENTRIES, MOST_PAGES, MOST_TEXTURES, MOST_VERSIONS};
use grid_stamps::PAGE_STAMPS;
use pool_memory::COPY_STRIDE;
use pool_records::{DOOMED_STRIDE, RETIRING_STRIDE, SPARE_STRIDE, TEXTURE_STRIDE};
use pool_rules::{GRID_STRIDE, MOST_GRIDS};

fn main() {
    let mut textures = [0; MOST_TEXTURES * TEXTURE_STRIDE];
    let mut retiring = [0; MOST_VERSIONS * RETIRING_STRIDE];
    let mut doomed = [0; MOST_VERSIONS * DOOMED_STRIDE];
    let mut spares = [0; MOST_VERSIONS * SPARE_STRIDE];
    let mut newest = [0; MOST_TEXTURES * MOST_GRIDS * GRID_STRIDE];
    let mut stamps = [0; MOST_PAGES * PAGE_STAMPS];
    let mut copies = [0; MOST_ENTRIES * COPY_STRIDE];
    let mut views = [0; MOST_ENTRIES];
    let mut input = [0; 524288];
    let mut buf = [0; 512];
    let mut out = [0; 1048576];
    lists::run_lists(
        &mut input,
        &mut buf,
        &mut textures,
        &mut retiring,
        &mut doomed,
        &mut spares,
        &mut newest,
        &mut stamps,
        &mut copies,
        &mut views,
        &mut out,
    );
}
