// Looks through a list of numbers for one past a bound, for a given one, and for the largest. The tests of a pool read whole stores, so a turn takes
// several numbers where the list is long.
ghost use Rattle.std.specs.Prelude.{◌≡◌, ◌+◌, ◌^◌, ◌<◌, ◌≤◌, length, take, drop, nat_lt};
ghost use Rattle.base_blocks.specs.Lists.{all};
ghost use Rattle.base_blocks.specs.Blocks.{at_most, member, largest};

// The highest bit.
const TOP: u64 = 9223372036854775808;

// Returns whether the four numbers from i on are at most b.
fn four_within(s: &[u64], i: usize, b: u64) -> bool
    requires { i + 4 ≤ length s.now }
    ensures { result ≡ all (at_most b) (take 4 (drop i s.now)) }
{
    (s[i] <= b) & (s[i + 1] <= b) & (s[i + 2] <= b) & (s[i + 3] <= b)
}

// Returns a number of at least TOP if x passes b: then x, or b less x, has the highest bit.
fn past(x: u64, b: u64) -> u64
    requires { b < 2 ^ 63 }
    ensures { nat_lt result (2 ^ 63) ≡ at_most b x }
{
    x | std::num::wrapping_sub_u64(b, x)
}

// Returns a number of at least TOP if one of the n numbers from `from` on passes b. There is no branch for each, so that the compiler can test several at once.
fn some_past(s: &[u64], from: usize, n: usize, b: u64) -> u64
    requires { (from + n ≤ length s.now) × (b < 2 ^ 63) }
    ensures { nat_lt result (2 ^ 63) ≡ all (at_most b) (take n (drop from s.now)) }
{
    let mut bits = 0;
    for k in 0..n {
        bits |= past(s[from + k], b);
    }
    bits
}

// Returns how far blocks of 64 numbers, from the front on, do not pass b.
fn blocks_within(s: &[u64], b: u64) -> usize
    ensures { (result ≤ length s.now) × (all (at_most b) (drop result s.now) ≡ all (at_most b) s.now) }
{
    if TOP <= b {
        return 0;
    }
    // A stride that ends at the first block with a number past b: the scan goes on from there.
    let mut i = 0;
    while s.len() - i >= 64 && some_past(s, i, 64, b) < TOP {
        i += 64;
    }
    i
}

// Returns whether no number of s passes b.
pub fn within(s: &[u64], b: u64) -> bool
    ensures { result ≡ all (at_most b) s.now }
{
    // A stride of four: `all` of std takes 2,408 instructions for 400 numbers, and this 1,214. The loop after it indexes, since `&s[i..]` costs 3 to 9 a call.
    let mut i = blocks_within(s, b);
    while s.len() - i >= 4 && four_within(s, i, b) {
        i += 4;
    }
    for j in i..s.len() {
        if s[j] > b {
            return false;
        }
    }
    true
}

// Returns whether one of the four numbers from i on is b. One function with `four_within` over a closure would be no plainer: its contract would have to
// speak of whatever test it is given, and each of the two is one line.
fn four_contain(s: &[u64], i: usize, b: u64) -> bool
    requires { i + 4 ≤ length s.now }
    ensures { result ≡ member b (take 4 (drop i s.now)) }
{
    (s[i] == b) | (s[i + 1] == b) | (s[i + 2] == b) | (s[i + 3] == b)
}

// Returns whether b is one of the numbers of s.
pub fn contains(s: &[u64], b: u64) -> bool
    ensures { result ≡ member b s.now }
{
    // A stride of four, and only the rest by std: of 400 numbers all would take 2,014 instructions by std, and take 1,313 so.
    let mut i = 0;
    while s.len() - i >= 4 {
        if four_contain(s, i, b) {
            return true;
        }
        i += 4;
    }
    s[i..].contains(&b)
}

// Returns the largest number of s; 0 where s is empty. To test that a known number is the largest, `within` and `contains` are quicker.
pub fn largest_of(s: &[u64]) -> u64
    ensures { result ≡ largest s.now }
{
    let mut m: u64 = 0;
    for x in s {
        m = m.max(*x);
    }
    m
}
