// The text of the event program: numbers read, and the fields of a line.
#![tactic(auto)]

mod eight;
mod field;
mod find;
mod number;

pub use eight::four_bytes;
pub use field::{first_end, is_word};
pub use find::find_byte;
pub use number::{NumberEnd, digits_at, number_at, number_of};
