// Where a trim's pass over the textures stands, and the pool's counts after it.
ghost use Rattle.std.specs.Prelude.{◌≡◌, ◌+◌, ◌-◌, ◌*◌, ◌≤◌, ◌<◌, ◌^◌};
ghost use Rattle.pool_trim.specs.Pass.{pass_on, counts_trimmed};
ghost use Rattle.grid_stamps.specs.StampConstants.{page_stamps};
ghost use Rattle.pool_rules.specs.RuleConstants.{grid_stride, most_places};

use crate::look_at::Look;
use pool_memory::Pool;

// The next texture's spares begin at place `first`. Of the textures before it `tracked` stay, with `kept` spares, `grids` numbers of
// `newest` and `stamps` stamps, and `count` spares were given up, of `freed` bytes. All are 0 before the first texture.
#[derive(Clone, Copy, Default)]
pub struct Pass {
    pub first: usize,
    pub tracked: usize,
    pub kept: usize,
    pub grids: usize,
    pub stamps: usize,
    pub count: usize,
    pub freed: u64,
}

// Returns where the pass stands after one texture more.
pub fn pass_on(pass: Pass, look: Look) -> Pass
    requires { (look.aged ≤ look.own) × (pass.first + look.own ≤ most_places)
        × (pass.tracked + look.staying ≤ most_places)
        × (pass.kept + (look.own - look.aged) ≤ most_places) × (pass.grids + look.grids ≤ grid_stride * (page_stamps * most_places))
        × (pass.stamps + look.stamps ≤ page_stamps * most_places) × (pass.count + look.aged ≤ most_places)
        × (pass.freed + look.bytes * look.aged < 2 ^ 64) }
    ensures { result ≡ pass_on pass look }
{
    let given = look.aged as u64;
    Pass {
        first: pass.first + look.own,
        tracked: pass.tracked + look.staying,
        kept: pass.kept + (look.own - look.aged),
        grids: pass.grids + look.grids,
        stamps: pass.stamps + look.stamps,
        count: pass.count + look.aged,
        freed: pass.freed + look.bytes * given,
    }
}

// Returns the counts after the pass. The spares given up wait to be destroyed.
pub fn counts_after(pool: Pool, pass: Pass) -> Pool
    requires { (pool.doomed + pass.count ≤ most_places) × (pool.since ≤ most_places) × (pass.freed ≤ pool.parked)
        × (pool.dooming + pass.freed < 2 ^ 64) }
    ensures { result ≡ counts_trimmed pool pass }
{
    let given = pass.count as u64;
    Pool {
        tracked: pass.tracked,
        kept: pass.kept,
        grids: pass.grids,
        stamps: pass.stamps,
        doomed: pool.doomed + pass.count,
        since: pool.since + given,
        parked: pool.parked - pass.freed,
        dooming: pool.dooming + pass.freed,
        ..pool
    }
}
