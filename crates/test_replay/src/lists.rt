// The lists of standard input, one after the other.
ghost use Rattle.std.specs.Prelude.{◌≤◌, ◌<◌, length};
ghost use Rattle.event_answers.specs.Printed.{most_bytes};
ghost use Rattle.event_feed.specs.FeedConstants.{kept_bytes};
ghost use Rattle.event_stream.specs.Lends.{Lends};
ghost use Rattle.test_replay.specs.ReplayConstants.{most_entries, most_pages, most_textures, most_versions};

use crate::list::run_list;
use crate::sizes::sizes_of;
use event_sessions::Stores;
use event_text::find_byte;
use grid_stamps::PAGE_STAMPS;
use pool_memory::COPY_STRIDE;
use pool_records::{DOOMED_STRIDE, RETIRING_STRIDE, SPARE_STRIDE, TEXTURE_STRIDE};
use pool_rules::newest_length;
use test_common::{STDIN_FILENO, STDOUT_FILENO};

// Returns where the next list begins after `from`: at a line that begins with "=,", or at `to`.
fn next_list(input: &[u8], from: usize, to: usize) -> usize
    requires { (from ≤ to) × (to ≤ length input.now) }
    ensures { (from ≤ result) × (result ≤ to) }
{
    for at in from..to {
        if input[at..to].starts_with(b"\n=,") {
            return at + 1;
        }
    }
    to
}

// Returns where the line after the one at `from` begins.
fn line_after(input: &[u8], from: usize, to: usize) -> usize
    requires { (from < to) × (to ≤ length input.now) }
    ensures { (from < result) × (result ≤ to) }
{
    let end = find_byte(&input[..to], from, b'\n');
    if end < to { end + 1 } else { end }
}

// Returns where the list from `from` to `to` ends: before its last line feed if it has an odd number of bytes. So the last line of some
// lists lacks its line feed, which does not show in their output. An empty last line keeps it, for without it that is no line.
fn list_end(input: &[u8], from: usize, to: usize) -> usize
    requires { (from ≤ to) × (to ≤ length input.now) }
    ensures { (from ≤ result) × (result ≤ to) }
{
    match &input[from..to] {
        [.., before, b'\n'] if (*before != b'\n') & ((to - from) % 2 == 1) => to - 1,
        _ => to,
    }
}

// Prints the line that a list begins with, and runs the list on as much of the stores as the line asks for.
fn run_next(
    line: &[u8],
    list: &[u8],
    buf: &mut [u8],
    textures: &mut [u64],
    retiring: &mut [u64],
    doomed: &mut [u64],
    spares: &mut [u64],
    newest: &mut [u64],
    stamps: &mut [u64],
    copies: &mut [u64],
    views: &mut [u64],
    out: &mut [u8],
)
    requires { Lends most_textures most_versions most_pages most_entries textures.old retiring.old doomed.old spares.old newest.old stamps.old copies.old views.old
        × (kept_bytes < length buf.old) × (most_bytes most_entries ≤ length out.old) }
{
    io::write_all(STDOUT_FILENO, line);
    let sizes = sizes_of(line);
    let versions = sizes.versions;
    let pages = sizes.pages;
    let answers = sizes.answers;
    let t = TEXTURE_STRIDE * sizes.textures;
    let r = RETIRING_STRIDE * versions;
    let d = DOOMED_STRIDE * versions;
    let s = SPARE_STRIDE * versions;
    let m = PAGE_STAMPS * pages;
    let g = newest_length(sizes.textures, m);
    let c = COPY_STRIDE * answers;
    let mut stores = Stores {
        textures: &mut textures[0..t],
        retiring: &mut retiring[0..r],
        doomed: &mut doomed[0..d],
        spares: &mut spares[0..s],
        newest: &mut newest[0..g],
        stamps: &mut stamps[0..m],
        copies: &mut copies[0..c],
        views: &mut views[0..answers],
    };
    run_list(list, buf, &mut stores, out);
}

// Runs all lists of standard input.
pub fn run_lists(
    input: &mut [u8],
    buf: &mut [u8],
    textures: &mut [u64],
    retiring: &mut [u64],
    doomed: &mut [u64],
    spares: &mut [u64],
    newest: &mut [u64],
    stamps: &mut [u64],
    copies: &mut [u64],
    views: &mut [u64],
    out: &mut [u8],
)
    requires { Lends most_textures most_versions most_pages most_entries textures.old retiring.old doomed.old spares.old newest.old stamps.old copies.old views.old
        × (kept_bytes < length buf.old) × (most_bytes most_entries ≤ length out.old) }
{
    let to = io::read_full(STDIN_FILENO, input);
    let mut from = 0;
    // Lists have no fixed length, so no range says where the next one begins.
    while from < to {
        let first = line_after(input, from, to);
        let next = next_list(input, first, to);
        let end = list_end(input, first, next);
        run_next(
            &input[from..first],
            &input[first..end],
            buf,
            textures,
            retiring,
            doomed,
            spares,
            newest,
            stamps,
            copies,
            views,
            out,
        );
        from = next;
    }
}
