// The writes that a spare holds, as one number, by the same rule as those of a history: 0 for unknown, one more than the count for known.
ghost use Rattle.std.specs.Prelude.{◌≡◌};
ghost use Rattle.pool_records.specs.Held.{held_of, held_number, HeldFits};

use crate::recorded::{read_recorded, recorded_number};
use pool_rules::Held;

// Returns what the number stands for.
pub fn read_held(n: u64) -> Held
    ensures { result ≡ held_of n }
{
    match read_recorded(n) {
        Some(c) => Held::Known(c),
        None => Held::Unknown,
    }
}

// Returns the number that stands for the held writes.
pub fn held_number(h: Held) -> u64
    requires { HeldFits h }
    ensures { result ≡ held_number h }
{
    match h {
        Held::Known(c) => recorded_number(Some(c)),
        Held::Unknown => recorded_number(None),
    }
}
