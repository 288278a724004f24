// Lists of lines for lent memory, run by the calls of the checked face: standard input has the lists, and standard output is held to
// answers written from document 01 and to those of the published Rust. compare/store_pool.sh wrote both.
#![tactic(auto)]

use grid_stamps::PAGE_STAMPS;
use pool_memory::COPY_STRIDE;
use pool_records::{DOOMED_STRIDE, RETIRING_STRIDE, SPARE_STRIDE, TEXTURE_STRIDE};
use pool_rules::{GRID_STRIDE, MOST_GRIDS};

// What is lent at most; a list is lent as much of it as its first line asks for. The textures and versions are those of the large event
// program, the pages fewer, since all of it stands twice on the stack.
const MOST_TEXTURES: usize = 64;

const MOST_VERSIONS: usize = 2000;

const MOST_PAGES: usize = 64;

// As many entries as there may be versions (01), so that an answer of any length can be asked for.
const MOST_ENTRIES: usize = 4096;

// Room for a copy of all that is lent, some 135,300 numbers; for all lists; and for the longest answer.
const COPY_NUMBERS: usize = 139264;

const INPUT_BYTES: usize = 2097152;

const OUTPUT_BYTES: usize = 655360;

fn main() {
    let mut textures = [0; MOST_TEXTURES * TEXTURE_STRIDE];
    let mut retiring = [0; MOST_VERSIONS * RETIRING_STRIDE];
    let mut doomed = [0; MOST_VERSIONS * DOOMED_STRIDE];
    let mut spares = [0; MOST_VERSIONS * SPARE_STRIDE];
    let mut newest = [0; MOST_TEXTURES * MOST_GRIDS * GRID_STRIDE];
    let mut stamps = [0; MOST_PAGES * PAGE_STAMPS];
    let mut copies = [0; MOST_ENTRIES * COPY_STRIDE];
    let mut views = [0; MOST_ENTRIES];
    let mut copy = [0; COPY_NUMBERS];
    let mut input = [0; INPUT_BYTES];
    let mut out = [0; OUTPUT_BYTES];
    test_pool_lists::run_all(
        &mut input,
        &mut textures,
        &mut retiring,
        &mut doomed,
        &mut spares,
        &mut newest,
        &mut stamps,
        &mut copies,
        &mut views,
        &mut copy,
        &mut out,
    );
}
