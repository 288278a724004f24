// The digits among eight bytes of a text, all at once. The bytes are loaded as one number, the first as the lowest, so that a few operations tell
// where the first byte stands that is no digit, and a few more make the number of the digits before it. No branch depends on how many there are.
ghost use Rattle.std.specs.Prelude.{◌≡◌, ◌+◌, ◌≤◌, length, take, drop};
ghost use Rattle.base_digits.specs.Packed.{packed};
ghost use Rattle.event_text.specs.Eight.{marks_of, value_of, eight_digits};

// "0" in each byte.
const ZEROS: u64 = 3472328296227680304;

// In each byte the lower seven bits; 118, to which 10 adds up to 128; 128.
const LOW: u64 = 9187201950435737471;

const PAST_NINE: u64 = 8536140394893047414;

const TOP: u64 = 9259542123273814144;

// The first byte of every two, the first two of every four, the first four.
const FIRST_OF_TWO: u64 = 71777214294589695;

const FIRST_OF_FOUR: u64 = 281470681808895;

const FIRST_OF_EIGHT: u64 = 4294967295;

// How many digits the bytes start with, and the number that these are.
#[derive(Clone, Copy)]
pub struct EightDigits {
    pub count: usize,
    pub value: u64,
}

// Returns a byte as a number of 64 bits.
pub fn wide(byte: u8) -> u64
    ensures { result ≡ byte }
{
    byte as u64
}

// Returns the four bytes from `at` on as one number, the first as the lowest. The compiler can load them at once.
pub fn four_bytes(text: &[u8], at: usize) -> u64
    requires { at + 4 ≤ length text.now }
    ensures { result ≡ packed 8 (take 4 (drop at text.now)) }
{
    wide(text[at])
        + wide(text[at + 1]) * 256
        + wide(text[at + 2]) * 65536
        + wide(text[at + 3]) * 16777216
}

// Returns the eight bytes from `at` on as one number, which the compiler can load at once.
fn eight_bytes(text: &[u8], at: usize) -> u64
    requires { at + 8 ≤ length text.now }
    ensures { result ≡ packed 8 (take 8 (drop at text.now)) }
{
    four_bytes(text, at) + four_bytes(text, at + 4) * 4294967296
}

// Returns 128 in each byte that is above 9, and 0 in the others.
fn marks(word: u64) -> u64
    ensures { result ≡ marks_of word }
{
    (((word & LOW) + PAST_NINE) | word) & TOP
}

// Returns the number of eight digits, one in each byte: first of every two, then of every four, then of all.
fn eight_value(word: u64) -> u64
    requires { word ≤ 651061555542690057 }
    ensures { result ≡ value_of word }
{
    let twos = (word * 10 + (word >> 8)) & FIRST_OF_TWO;
    let fours = (twos * 100 + (twos >> 16)) & FIRST_OF_FOUR;
    (fours * 10000 + (fours >> 32)) & FIRST_OF_EIGHT
}

// Returns the digits that the eight bytes from `at` on start with.
pub fn eight_digits(text: &[u8], at: usize) -> EightDigits
    requires { at + 8 ≤ length text.now }
    ensures { result ≡ eight_digits text.now at }
{
    let word = eight_bytes(text, at) ^ ZEROS;
    let others = marks(word);
    if others == 0 {
        return EightDigits {
            count: 8,
            value: eight_value(word),
        };
    }
    let bits = u64::trailing_zeros(others) - 7;
    if bits == 0 {
        return EightDigits { count: 0, value: 0 };
    }
    EightDigits {
        count: (bits / 8) as usize,
        value: eight_value(word << (64 - bits)),
    }
}
