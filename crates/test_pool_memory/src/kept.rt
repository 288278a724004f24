// A copy of memory, one part behind the other, and the comparison with it.
ghost use Rattle.std.specs.Prelude.{◌≤◌, length};

// Copies a part behind the first `at` numbers of the copy, as far as it has room, and returns where it ends.
pub fn keep(copy: &mut [u64], at: usize, part: &[u64]) -> usize
    requires { at ≤ length copy.old }
    ensures { result ≤ length copy.old }
{
    let end = at + part.len().min(copy.len() - at);
    copy[at..end].copy_from_slice(&part[..end - at]);
    end
}

// Returns where the part ends that was copied behind the first `at` numbers if it is the same still.
pub fn kept_end(copy: &[u64], at: usize, part: &[u64]) -> Option<usize> {
    if copy.get(at..)?.starts_with(part) {
        Some(at + part.len())
    } else {
        None
    }
}
