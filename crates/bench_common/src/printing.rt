// What is printed: lines of a word and a number.

// The descriptor of standard output, which the kit's `io` takes as a number.
pub const STDOUT_FILENO: i32 = 1;

// Prints a word and a number.
pub fn line(word: &[u8], number: u64) {
    io::write_all(STDOUT_FILENO, word);
    io::print_decimal(STDOUT_FILENO, number);
    io::write_all(STDOUT_FILENO, b"\n");
}
