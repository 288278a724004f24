// The numbers that a program is given.
ghost use Rattle.std.specs.Prelude.{◌≤◌};

use std::env::{Env, FillError};

// Returns the digit that a byte is, or 0.
fn digit(byte: u8) -> u64
    ensures { result ≤ 9 }
{
    match byte {
        b'0'..=b'9' => (byte - b'0') as u64,
        _ => 0,
    }
}

// Returns the value with one digit more. Numbers of nine digits and more are not taken further.
fn with_digit(value: u64, byte: u8) -> u64 {
    if value > 99999999 {
        return value;
    }
    10 * value + digit(byte)
}

// Returns whether the program was given argument i; argument 0 is its name.
pub fn is_given(env: &impl Env, i: usize) -> bool {
    let mut text = [0u8; 8];
    !matches!(env.arg(i, &mut text), Err(FillError::NotPresent))
}

// Returns the number that an argument spells.
pub fn argument(env: &impl Env, i: usize) -> u64 {
    let mut text = [0u8; 8];
    let n = env.arg(i, &mut text).unwrap_or(0);
    let mut value = 0;
    for byte in &text[..n] {
        value = with_digit(value, *byte);
    }
    value
}
