// Numbers and fields of an event line.
ghost use Rattle.std.specs.Prelude.{◌≤◌, length};

use crate::print::figure;
use event_lines::{Event, parse_first};
use event_text::number_of;

// Prints 1 and the number that a text is, or 0.
fn print_number(name: &[u8], text: &[u8])
    requires { length name.now ≤ 64 }
{
    match number_of(text) {
        Some(n) => figure(name, &[1, n]),
        None => figure(name, &[0]),
    }
}

// Prints whether a line is an event, or one with outcome "?".
fn print_read(name: &[u8], line: &[u8])
    requires { length name.now ≤ 64 }
{
    let parsed = parse_first(line);
    let read = !matches!(parsed.event, Event::Unread);
    figure(name, &[read as u64]);
}

// Prints what texts are read as numbers.
fn print_numbers() {
    print_number(b"number_of_0_digits", b"");
    print_number(b"number_of_1_digit", b"7");
    print_number(b"number_of_20_digits", b"00000000000000000007");
    print_number(b"number_of_21_digits", b"000000000000000000007");
    print_number(b"number_below_2_64", b"18446744073709551615");
    print_number(b"number_2_64", b"18446744073709551616");
}

// Prints which lines are read as events.
fn print_lines() {
    print_read(
        b"line_width_below_2_32",
        b"take,7,2,4294967295,64,1,1,0,1,10",
    );
    print_read(b"line_width_2_32", b"take,7,2,4294967296,64,1,1,0,1,10");
    print_read(b"line_flag_1", b"take,7,2,64,64,1,1,0,1,10");
    print_read(b"line_flag_2", b"take,7,2,64,64,1,1,0,2,10");
}

// Prints what texts are read as.
pub fn print_texts() {
    print_numbers();
    print_lines();
}
