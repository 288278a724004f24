// How many spares a texture gives, by the parking line: all that were parked before it, and of those parked at it as many as it
// takes to cover the excess.
ghost use Rattle.std.specs.Prelude.{◌≡◌, ◌+◌, ◌*◌, ◌≤◌, ◌<◌, ◌^◌, length};
ghost use Rattle.pool_relief_line.specs.Line.{count_before, taken_at, gives};
ghost use Rattle.pool_relief_line.specs.Parked.{parkings};
ghost use Rattle.pool_records.specs.RecordConstants.{spare_stride};

use pool_records::{SPARE_PARKED_AT, SPARE_STRIDE};

// How many were picked, and the bytes freed with them and all before.
#[derive(Clone, Copy)]
pub struct Given {
    pub count: usize,
    pub freed: u64,
}

// Counts, of the n spares from place `from` on, those parked before the line.
pub fn count_before(spares: &[u64], from: usize, n: usize, line: u64) -> usize
    requires { spare_stride * (from + n) ≤ length spares.now }
    ensures { (result ≤ n) × (result ≡ count_before line (parkings spares.now from n)) }
{
    let mut k = 0;
    for j in from..from + n {
        let parked = spares[SPARE_STRIDE * j + SPARE_PARKED_AT];
        if parked < line {
            k += 1;
        }
    }
    k
}

// Picks, of the n spares from place `from` on, those parked at the line, until the bytes cover the excess.
fn take_at(
    spares: &[u64],
    from: usize,
    n: usize,
    line: u64,
    bytes: u64,
    freed: u64,
    excess: u64,
) -> Given
    requires { (spare_stride * (from + n) ≤ length spares.now) × (freed + bytes * n < 2 ^ 64) }
    ensures { (result.count ≡ taken_at freed excess bytes line (parkings spares.now from n)) × (result.freed ≡ freed + bytes * result.count) }
{
    let mut count = 0;
    let mut sum = freed;
    for j in from..from + n {
        if excess <= sum {
            break;
        }
        let parked = spares[SPARE_STRIDE * j + SPARE_PARKED_AT];
        if parked == line {
            count += 1;
            sum += bytes;
        }
    }
    Given { count, freed: sum }
}

// Picks what a texture gives of its n spares from place `from` on.
pub fn texture_gives(
    spares: &[u64],
    from: usize,
    n: usize,
    line: u64,
    bytes: u64,
    freed: u64,
    excess: u64,
) -> Given
    requires { (spare_stride * (from + n) ≤ length spares.now) × (freed + bytes * n < 2 ^ 64) }
    ensures { (result.count ≡ gives freed excess bytes line (parkings spares.now from n)) × (result.count ≤ n)
        × (result.freed ≡ freed + bytes * taken_at freed excess bytes line (parkings spares.now from n)) }
{
    let before = count_before(spares, from, n, line);
    let at = take_at(spares, from, n, line, bytes, freed, excess);
    Given {
        count: before + at.count,
        freed: at.freed,
    }
}
