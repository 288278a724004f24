// A history dropped: its grids and stamps taken out, its record left without one, and the records behind it told where theirs begin now.
ghost use Rattle.std.specs.Prelude.{◌≡◌, ◌*◌, ◌-◌, ◌≤◌, ◌<◌, length};
ghost use Rattle.pool_records.specs.Starts.{grid_end, stamp_end};
ghost use Rattle.pool_records.specs.Texture.{texture_in};
ghost use Rattle.pool_note_write.specs.Dropped.{run_at, records_dropped, newest_dropped, stamps_dropped, CanDrop};
ghost use Rattle.pool_records.specs.RecordConstants.{texture_stride};

use crate::history::set_history;
use pool_access::{grid_end, move_starts, stamp_end};
use pool_history::{HistoryRun, Used, remove_grids};
use pool_records::{Shift, TEXTURE_GRID_AT, TEXTURE_STAMP_AT, TEXTURE_STRIDE};

// Returns where the grids and the stamps of texture i of n begin, and how many they are: where those of the next one begin says it, so
// nothing is added up.
fn history_run(textures: &[u64], n: usize, used: Used, i: usize) -> HistoryRun
    requires { (texture_stride * n ≤ length textures.now) × (i < n)
        × ((texture_in textures.now i).grid ≤ grid_end textures.now n used.grids i)
        × ((texture_in textures.now i).stamp ≤ stamp_end textures.now n used.stamps i) }
    ensures { result ≡ run_at textures.now n used i }
{
    let grid = textures[TEXTURE_STRIDE * i + TEXTURE_GRID_AT] as usize;
    let stamp = textures[TEXTURE_STRIDE * i + TEXTURE_STAMP_AT] as usize;
    let grids = grid_end(textures, n, used.grids, i) - grid;
    let stamps = stamp_end(textures, n, used.stamps, i) - stamp;
    HistoryRun {
        grid,
        grids,
        stamp,
        stamps,
    }
}

// Drops the history of texture i of n. Returns how many grids and stamps are in use then.
pub fn drop_history(
    textures: &mut [u64],
    newest: &mut [u64],
    stamps: &mut [u64],
    n: usize,
    used: Used,
    i: usize,
) -> Used
    requires { CanDrop textures.old newest.old stamps.old n used i }
    ensures { (result.grids ≡ used.grids - (run_at textures.old n used i).grids)
        × (result.stamps ≡ used.stamps - (run_at textures.old n used i).stamps)
        × (textures.new ≡ records_dropped textures.old n (run_at textures.old n used i) i)
        × (newest.new ≡ newest_dropped newest.old used (run_at textures.old n used i))
        × (stamps.new ≡ stamps_dropped stamps.old used (run_at textures.old n used i)) }
{
    let run = history_run(textures, n, used, i);
    remove_grids(newest, stamps, used, run);
    set_history(textures, i, None);
    let by_grids = Shift {
        less: run.grids as u64,
        more: 0,
    };
    let by_stamps = Shift {
        less: run.stamps as u64,
        more: 0,
    };
    let next = i + 1;
    move_starts(textures, next, n, by_grids, by_stamps);
    Used {
        grids: used.grids - run.grids,
        stamps: used.stamps - run.stamps,
    }
}
