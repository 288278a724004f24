// The question for the sheet.
use event_sessions::Stores;
use grid_shapes::Refusal;
use pool_memory::{PacingBook, Pool};
use test_common::{STDOUT_FILENO, put_after};

// Prints what the call answers, behind the number of its line.
fn print_answer(answer: Result<usize, Refusal>) {
    match answer {
        Ok(length) => {
            io::write_all(STDOUT_FILENO, b",0,");
            io::print_decimal(STDOUT_FILENO, length as u64);
        }
        Err(refusal) => {
            // Writes the comma and the number at once.
            let mut field = [0u8; 21];
            let end = put_after(&mut field, 0, b",", refusal.number());
            io::write_all(STDOUT_FILENO, &field[..end]);
        }
    }
}

// Has the sheet printed into the buffer, and prints the answer and the whole buffer.
pub fn answer_sheet(pool: Pool, book: PacingBook, stores: &Stores<'_>, buffer: &mut [u8]) {
    // Filled, so that what the sheet leaves can be seen.
    buffer.fill(b'#');
    let answer = pool::print_sheet(
        pool,
        book,
        stores.textures,
        stores.retiring,
        stores.doomed,
        stores.spares,
        stores.newest,
        stores.stamps,
        buffer,
    );
    print_answer(answer);
    io::write_all(STDOUT_FILENO, b"\n");
    io::write_all(STDOUT_FILENO, buffer);
    io::write_all(STDOUT_FILENO, b"\n");
}
