// A history's grids and stamps, each a run of those in use, taken out.
ghost use Rattle.std.specs.Prelude.{◌≡◌, ◌+◌, ◌-◌, ◌≤◌, length};
ghost use Rattle.base_blocks.specs.Blocks.{moved};

use base_blocks::shift_down;

// How many numbers of `newest` and how many stamps are in use.
#[derive(Clone, Copy)]
pub struct Used {
    pub grids: usize,
    pub stamps: usize,
}

// Where a history's numbers of `newest` and its stamps begin, and how many they are.
#[derive(Clone, Copy)]
pub struct HistoryRun {
    pub grid: usize,
    pub grids: usize,
    pub stamp: usize,
    pub stamps: usize,
}

// Takes a history's grids and stamps out of those in use. Those behind them move down; what is free stays.
pub fn remove_grids(newest: &mut [u64], stamps: &mut [u64], used: Used, run: HistoryRun)
    requires { (run.grid + run.grids ≤ used.grids) × (used.grids ≤ length newest.old)
        × (run.stamp + run.stamps ≤ used.stamps) × (used.stamps ≤ length stamps.old) }
    ensures { (newest.new ≡ moved newest.old run.grid (run.grid + run.grids) (used.grids - (run.grid + run.grids)))
        × (stamps.new ≡ moved stamps.old run.stamp (run.stamp + run.stamps) (used.stamps - (run.stamp + run.stamps))) }
{
    shift_down(
        newest,
        run.grid,
        run.grids,
        used.grids - (run.grid + run.grids),
    );
    shift_down(
        stamps,
        run.stamp,
        run.stamps,
        used.stamps - (run.stamp + run.stamps),
    );
}
