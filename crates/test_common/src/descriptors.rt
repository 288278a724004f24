// The descriptors of standard input and output, which the kit's `io` takes as numbers.

pub const STDIN_FILENO: i32 = 0;

pub const STDOUT_FILENO: i32 = 1;
