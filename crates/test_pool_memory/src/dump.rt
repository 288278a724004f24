// The numbers of a store that are not 0, printed as the lines that put them.
ghost use Rattle.std.specs.Prelude.{◌≤◌, length};

use base_digits::put_text;
use test_common::{STDOUT_FILENO, put_after};

// Puts put,STORE,INDEX,VALUE at the front and returns where it ends.
fn put_line(out: &mut [u8], store: u64, index: u64, value: u64) -> usize
    requires { 68 ≤ length out.old }
    ensures { result ≤ 68 }
{
    let word = put_text(out, 0, b"put");
    let first = put_after(out, word, b",", store);
    let second = put_after(out, first, b",", index);
    let third = put_after(out, second, b",", value);
    put_text(out, third, b"\n")
}

// Prints the line that puts a number, if it is not 0.
fn dump_number(out: &mut [u8], store: u64, index: u64, value: u64)
    requires { 68 ≤ length out.old }
{
    if value == 0 {
        return;
    }
    let end = put_line(out, store, index, value);
    io::write_all(STDOUT_FILENO, &out[0..end]);
}

// Prints a line for each number of the store that is not 0.
pub fn dump_store(out: &mut [u8], number: u64, store: &[u64])
    requires { 68 ≤ length out.old }
{
    for (i, value) in store.iter().enumerate() {
        dump_number(out, number, i as u64, *value);
    }
}
