// Numbers and text put into a buffer.
ghost use Rattle.std.specs.Prelude.{◌≡◌, ◌+◌, ◌≤◌, ◌<◌, length};
ghost use Rattle.std.proofs.lemmas.List.Edits.{sets};
ghost use Rattle.base_digits.specs.Packed.{packed};
ghost use Rattle.base_digits.specs.Digits.{digits_of, last_digits};

// The lower four bits of each of two numbers of sixteen.
const LOW_OF_PAIRS: u64 = 983055;

// "0" in each of four bytes.
const ZEROS: u64 = 808464432;

// Returns the byte of a digit.
fn digit(n: u64) -> u8
    requires { n < 10 }
    ensures { result ≡ 48 + n }
{
    b'0' + n as u8
}

// Returns the four digits of a number below 10,000 as one number, a byte each, the first as the lowest. Both
// hundreds are cut into digits at once: 103 / 1024 is a tenth, near enough below 100.
fn four_digits(n: u64) -> u64
    requires { n < 10000 }
    ensures { result ≡ packed 8 (last_digits 4 n) }
{
    let high = n / 100;
    let pairs = high + (n - high * 100) * 65536;
    let tens = (pairs * 103 / 1024) & LOW_OF_PAIRS;
    tens + (pairs - tens * 10) * 256 + ZEROS
}

// Puts the four digits of a number below 10,000, which the compiler can store at once.
fn put_four(out: &mut [u8], at: usize, n: u64)
    requires { (n < 10000) × (at + 4 ≤ length out.old) }
    ensures { out.new ≡ sets out.old at (last_digits 4 n) }
{
    let word = four_digits(n);
    out[at] = (word % 256) as u8;
    out[at + 1] = (word / 256 % 256) as u8;
    out[at + 2] = (word / 65536 % 256) as u8;
    out[at + 3] = (word / 16777216 % 256) as u8;
}

// Puts the digits of a number below 10,000, and returns where they end. Most numbers of an answer are this short, so each length has its own stores.
fn put_small(out: &mut [u8], at: usize, n: u64) -> usize
    requires { (n < 10000) × (at + 4 ≤ length out.old) }
    ensures { (result ≡ at + length (digits_of n)) × (out.new ≡ sets out.old at (digits_of n)) }
{
    if n < 10 {
        out[at] = digit(n);
        return at + 1;
    }
    let tens = n / 10;
    if n < 100 {
        out[at] = digit(tens);
        out[at + 1] = digit(n % 10);
        return at + 2;
    }
    if n < 1000 {
        out[at] = digit(tens / 10);
        out[at + 1] = digit(tens % 10);
        out[at + 2] = digit(n % 10);
        return at + 3;
    }
    put_four(out, at, n);
    at + 4
}

// Puts the eight digits of a number below 100,000,000, zeros in front where there are fewer.
fn put_eight(out: &mut [u8], at: usize, n: u64)
    requires { (n < 100000000) × (at + 8 ≤ length out.old) }
    ensures { out.new ≡ sets out.old at (last_digits 8 n) }
{
    put_four(out, at, n / 10000);
    put_four(out, at + 4, n % 10000);
}

// Puts the digits of a number below 100,000,000, and returns where they end.
fn put_short(out: &mut [u8], at: usize, n: u64) -> usize
    requires { (n < 100000000) × (at + 8 ≤ length out.old) }
    ensures { (result ≡ at + length (digits_of n)) × (out.new ≡ sets out.old at (digits_of n)) }
{
    if n < 10000 {
        return put_small(out, at, n);
    }
    let end = put_small(out, at, n / 10000);
    put_four(out, end, n % 10000);
    end + 4
}

// Puts the digits of a number from 100,000,000 on, eight at a time, and returns where they end.
fn put_large(out: &mut [u8], at: usize, n: u64) -> usize
    requires { (100000000 ≤ n) × (at + 20 ≤ length out.old) }
    ensures { (result ≡ at + length (digits_of n)) × (out.new ≡ sets out.old at (digits_of n)) }
{
    let high = n / 100000000;
    if high < 100000000 {
        let end = put_short(out, at, high);
        put_eight(out, end, n % 100000000);
        return end + 8;
    }
    let end = put_small(out, at, high / 100000000);
    put_eight(out, end, high % 100000000);
    put_eight(out, end + 8, n % 100000000);
    end + 16
}

// Puts a number's digits from `at` on, and returns where they end.
pub fn put_number(out: &mut [u8], at: usize, n: u64) -> usize
    requires { at + 20 ≤ length out.old }
    ensures { (result ≡ at + length (digits_of n)) × (out.new ≡ sets out.old at (digits_of n)) }
{
    if n < 10000 {
        return put_small(out, at, n);
    }
    if n < 100000000 {
        let end = put_small(out, at, n / 10000);
        put_four(out, end, n % 10000);
        return end + 4;
    }
    put_large(out, at, n)
}

// Puts text from `at` on, and returns where it ends.
pub fn put_text(out: &mut [u8], at: usize, text: &[u8]) -> usize
    requires { at + length text.now ≤ length out.old }
    ensures { (result ≡ at + length text.now) × (out.new ≡ sets out.old at text.now) }
{
    let end = at + text.len();
    out[at..end].copy_from_slice(text);
    end
}
