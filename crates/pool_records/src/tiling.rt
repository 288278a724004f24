// What stands beside a grid's newest stamp.
ghost use Rattle.std.specs.Prelude.{◌≡◌};
ghost use Rattle.pool_records.specs.Tilings.{packed_tiling, read_tiling, TilingFits};

use crate::constants::{DOWN_UNIT, EDGE_SPAN, START_SPAN};

// Where a grid's stamps begin among those of its history, and the edges of its tiles.
#[derive(Clone, Copy)]
pub struct GridTiling {
    pub start: u64,
    pub across: u64,
    pub down: u64,
}

// Returns the three in one number.
pub fn tiling_number(t: GridTiling) -> u64
    requires { TilingFits t }
    ensures { result ≡ packed_tiling t }
{
    t.start + START_SPAN * t.across + DOWN_UNIT * t.down
}

// Returns what the number stands for.
pub fn read_tiling(n: u64) -> GridTiling
    ensures { result ≡ read_tiling n }
{
    GridTiling {
        start: n % START_SPAN,
        across: n / START_SPAN % EDGE_SPAN,
        down: n / DOWN_UNIT,
    }
}
