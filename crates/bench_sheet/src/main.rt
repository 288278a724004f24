// Times the pool sheet: TEXTURES SHEETS TESTED, of which SHEETS are printed of memory that is known to form a pool, and TESTED of any memory.
// bench/README.md says how it is used.
#![tactic(auto)]

mod fill;
mod on_sheet;
mod room;
mod run;
mod sheets;

use bench_common::{
    argument, doomed_places, is_given, retiring_places, spare_places, texture_places,
};

// Does nothing without its three arguments, since the gate runs it with none.
fn main(rt: HostRuntime) {
    if !is_given(&rt, 3) {
        return;
    }
    let mut textures = texture_places();
    let mut retiring = retiring_places();
    let mut doomed = doomed_places();
    let mut spares = spare_places();
    let mut newest = room::no_places();
    let mut stamps = room::no_places();
    let mut page = room::page_bytes();
    run::run(
        &rt,
        &mut textures,
        &mut retiring,
        &mut doomed,
        &mut spares,
        &mut newest,
        &mut stamps,
        &mut page,
        argument(&rt, 1),
        argument(&rt, 2),
        argument(&rt, 3),
    );
}
