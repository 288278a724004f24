// Bytes counted over a whole run, which may pass what a slice can have: counts are of 64 bits on every machine.
ghost use Rattle.std.specs.Prelude.{◌≡◌};

// Returns a slice's number of bytes as a count of a run.
pub fn byte_count(bytes: usize) -> u64
    ensures { result ≡ bytes }
{
    bytes as u64
}
