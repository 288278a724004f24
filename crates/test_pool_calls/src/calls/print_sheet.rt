// print_sheet, made on any memory, into a buffer of its own.
use crate::queried::{Queried, Told};
use grid_shapes::Refusal;
use pool_memory::{PacingBook, Pool};

// The bytes of the largest buffer, into which the sheet of twelve textures goes.
const MOST_BYTES: usize = 1024;

// Every byte of the buffer before the call.
const BEFORE: u8 = b'#';

// Returns whether the bytes from `from` on are as they were before the call.
fn is_rest_kept(buffer: &[u8], from: usize) -> bool {
    buffer.iter().skip(from).all(|byte| *byte == BEFORE)
}

// Returns what print_sheet says. A refusal may write no byte, and the sheet none past it.
fn say_sheet(answer: Result<usize, Refusal>, buffer: &[u8]) -> Queried {
    Queried {
        answer: Some(answer.map(|length| Told::Number(length as u64))),
        kept: is_rest_kept(buffer, answer.unwrap_or(0)),
    }
}

// Prints the sheet into the buffer.
fn print_into(
    pool: Pool,
    book: PacingBook,
    textures: &[u64],
    retiring: &[u64],
    doomed: &[u64],
    spares: &[u64],
    newest: &[u64],
    stamps: &[u64],
    buffer: &mut [u8],
) -> Queried {
    let answer = pool::print_sheet(
        pool, book, textures, retiring, doomed, spares, newest, stamps, buffer,
    );
    say_sheet(answer, buffer)
}

// Prints the sheet into a buffer of so many bytes, if there is one that large.
pub fn make_print_sheet(
    pool: Pool,
    book: PacingBook,
    textures: &[u64],
    retiring: &[u64],
    doomed: &[u64],
    spares: &[u64],
    newest: &[u64],
    stamps: &[u64],
    bytes: u64,
) -> Queried {
    if (MOST_BYTES as u64) < bytes {
        return Queried {
            answer: None,
            kept: true,
        };
    }
    let size = bytes as usize;
    let mut buffer = [BEFORE; MOST_BYTES];
    print_into(
        pool,
        book,
        textures,
        retiring,
        doomed,
        spares,
        newest,
        stamps,
        &mut buffer[0..size],
    )
}
