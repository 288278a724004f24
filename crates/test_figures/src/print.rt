// A figure's line.
ghost use Rattle.std.specs.Prelude.{◌≤◌, length};

use base_digits::put_text;
use grid_shapes::Refusal;
use test_common::{STDOUT_FILENO, put_after};

// Prints a figure: its name, its arguments and its value.
pub fn figure(name: &[u8], values: &[u64])
    requires { (length name.now ≤ 64) × (length values.now ≤ 5) }
{
    let mut out = [0u8; 256];
    let mut at = put_text(&mut out, 0, name);
    for value in values {
        at = put_after(&mut out, at, b" ", *value);
    }
    let end = put_text(&mut out, at, b"\n");
    io::write_all(STDOUT_FILENO, &out[0..end]);
}

// Returns the number of an outcome: 0, or that of the refusal.
pub fn outcome_of<T>(said: &Result<T, Refusal>) -> u64 {
    match said {
        Ok(_) => 0,
        Err(refusal) => refusal.number(),
    }
}

// Returns the outcome of a test that memory forms a pool.
pub fn pool_outcome(passed: bool) -> u64 {
    if passed { 0 } else { Refusal::NoPool.number() }
}
