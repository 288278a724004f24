// Numbers that look drawn, the same in each run and in the Rust.
// Returns another number for each x, with all 64 bits in use after a few times: Marsaglia's xorshift.
pub fn mixed(x: u64) -> u64 {
    let a = x ^ (x << 13);
    let b = a ^ (a >> 7);
    b ^ (b << 17)
}

// Returns a random number of 64 bits.
pub fn random_from(x: u64) -> u64 {
    mixed(mixed(mixed(x.wrapping_add(88172645463325252))))
}
