// Figures of the pool sheet (02, W-202), read off a sheet of a pool just opened.
ghost use Rattle.std.specs.Prelude.{◌≤◌, length};

use crate::print::{figure, outcome_of};
use grid_shapes::Refusal;
use grid_stamps::PAGE_STAMPS;
use pool_memory::Pool;
use pool_open::{opened_book, opened_pool};
use pool_records::{DOOMED_STRIDE, RETIRING_STRIDE, SPARE_STRIDE, TEXTURE_STRIDE};
use pool_rules::{GRID_STRIDE, MOST_GRIDS};

// Prints the sheet of a pool that has one place for a texture, one for a version and one page.
fn print_into(pool: Pool, buffer: &mut [u8]) -> Result<usize, Refusal> {
    let textures = [0u64; TEXTURE_STRIDE];
    let retiring = [0u64; RETIRING_STRIDE];
    let doomed = [0u64; DOOMED_STRIDE];
    let spares = [0u64; SPARE_STRIDE];
    let newest = [0u64; MOST_GRIDS * GRID_STRIDE];
    let stamps = [0u64; PAGE_STAMPS];
    pool::print_sheet(
        pool,
        opened_book(),
        &textures,
        &retiring,
        &doomed,
        &spares,
        &newest,
        &stamps,
        buffer,
    )
}

// Returns where the next run of bytes ends that are other than `b`, after a run of bytes that are `b`.
fn word_end(line: &[u8], from: usize, b: u8) -> usize
    requires { from ≤ length line.now }
    ensures { (from ≤ result) × (result ≤ length line.now) }
{
    let mut inside = false;
    for i in from..line.len() {
        if line[i] == b {
            if inside {
                return i;
            }
        } else {
            inside = true;
        }
    }
    line.len()
}

// Returns the place behind the blank at `end`, or the line's end.
fn after_blank(line: &[u8], end: usize) -> usize
    ensures { result ≤ length line.now }
{
    if end < line.len() {
        end + 1
    } else {
        line.len()
    }
}

// Prints the width of each column: from the blank behind the column before it to where its word in the head line ends.
fn print_widths(line: &[u8]) {
    let mut from = 0;
    for column in 1..=6 {
        let end = word_end(line, from, b' ');
        figure(b"sheet_column_width", &[column, (end - from) as u64]);
        from = after_blank(line, end);
    }
}

// Prints the figures of sheets: the characters of a line, the columns' widths, and the buffers that are long enough.
pub fn print_sheets() {
    let mut buffer = [b'#'; 146];
    let answer = print_into(opened_pool(0), &mut buffer);
    if let Ok(size) = answer {
        figure(b"sheet_bytes_of_no_texture", &[size as u64]);
    }
    let line = word_end(&buffer, 0, b'\n');
    figure(b"sheet_line_characters", &[line as u64]);
    print_widths(&buffer[0..line]);
    let whole = print_into(opened_pool(0), &mut buffer);
    figure(b"sheet_in_bytes", &[146, outcome_of(&whole)]);
    let mut shorter = [b'#'; 145];
    let short = print_into(opened_pool(0), &mut shorter);
    figure(b"sheet_in_bytes", &[145, outcome_of(&short)]);
    let mut none = opened_pool(0);
    none.tracked = 2;
    let refused = print_into(none, &mut shorter);
    figure(b"sheet_of_no_pool_in_bytes", &[145, outcome_of(&refused)]);
}
