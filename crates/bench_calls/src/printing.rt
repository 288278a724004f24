// What is printed of a phase: its number and its figures.
use bench_common::STDOUT_FILENO;

// Prints what a phase took, and the sum of what its calls answered.
pub fn phase_line(phase: u64, time: u64, sum: u64) {
    io::print_decimal(STDOUT_FILENO, phase);
    io::write_all(STDOUT_FILENO, b" ");
    io::print_decimal(STDOUT_FILENO, time);
    io::write_all(STDOUT_FILENO, b" ");
    io::print_decimal(STDOUT_FILENO, sum);
    io::write_all(STDOUT_FILENO, b"\n");
}
