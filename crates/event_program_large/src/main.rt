// The event program with larger stores, so that lists of events show how destruction is paced, regenerations over several slices, and batches and
// drains that are too long for their answer.
#![tactic(auto)]

ghost use Rattle.event_stream.specs.Lends.{Lends};

use event_sessions::Stores;
use grid_stamps::PAGE_STAMPS;
use pool_memory::COPY_STRIDE;
use pool_records::{DOOMED_STRIDE, RETIRING_STRIDE, SPARE_STRIDE, TEXTURE_STRIDE};
use pool_rules::{GRID_STRIDE, MOST_GRIDS};

// Repeats the main of crates/event_program with other numbers: memory is fixed, and the length of an array takes no product of const parameters.
const TEXTURES: usize = 64;

const VERSIONS: usize = 2000;

const PAGES: usize = 256;

const ENTRIES: usize = 300;

// Asks for what the large event program lends. Nothing is done: that `main` may call it is what counts.
fn lends(
    textures: &[u64],
    retiring: &[u64],
    doomed: &[u64],
    spares: &[u64],
    newest: &[u64],
    stamps: &[u64],
    copies: &[u64],
    views: &[u64],
)
    requires { Lends 64 2000 256 300 textures.now retiring.now doomed.now spares.now newest.now stamps.now copies.now views.now }
{}

fn main(rt: HostRuntime) {
    let mut textures = [0; TEXTURES * TEXTURE_STRIDE];
    let mut retiring = [0; VERSIONS * RETIRING_STRIDE];
    let mut doomed = [0; VERSIONS * DOOMED_STRIDE];
    let mut spares = [0; VERSIONS * SPARE_STRIDE];
    let mut newest = [0; TEXTURES * MOST_GRIDS * GRID_STRIDE];
    let mut stamps = [0; PAGES * PAGE_STAMPS];
    let mut copies = [0; ENTRIES * COPY_STRIDE];
    let mut views = [0; ENTRIES];
    lends(
        &textures, &retiring, &doomed, &spares, &newest, &stamps, &copies, &views,
    );
    let mut stores = Stores {
        textures: &mut textures,
        retiring: &mut retiring,
        doomed: &mut doomed,
        spares: &mut spares,
        newest: &mut newest,
        stamps: &mut stamps,
        copies: &mut copies,
        views: &mut views,
    };
    let mut buf = io::large_buffer();
    let mut out = io::large_buffer();
    event_stream::run_all(&mut rt.stdin(), &mut buf, &mut stores, &mut out, true);
}
