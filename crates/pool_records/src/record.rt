// What each type of record has: it is read from the front of a slice of numbers and written as N of them.
ghost use Rattle.std.specs.Prelude.{◌≡◌, ◌≤◌, ℕ, List, length};
ghost use Rattle.base_tables.proofs.Records.{Codec};

// A record of N numbers. What was written is read, and what was read is written back as it stood (`codec`).
pub trait Record<const N: usize> {
    ghost fits: { Self → Type 0 };

    ghost read_from: { List ℕ → Self };

    ghost written: { Self → List ℕ };

    // Reads a record from the front of the numbers.
    fn read(p: &[u64]) -> Self
        requires { N ≤ length p.now }
        ensures { result ≡ read_from p.now };

    // Returns the record's numbers.
    fn numbers(self) -> [u64; N]
        requires { fits self }
        ensures { result ≡ written self };

    ghost codec: { Codec N read_from written };
}
