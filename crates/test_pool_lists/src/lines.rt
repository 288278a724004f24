// Lines, list after list.
ghost use Rattle.std.specs.Prelude.{◌≤◌, ◌<◌, length};
ghost use Rattle.event_answers.specs.Printed.{most_row};

use test_common::{STDIN_FILENO, STDOUT_FILENO, part_end};
use test_pool_lines::{Lengths, lengths_of};
use test_pool_steps::{Session, fresh, next_line, run_step};

// Makes the first `count` numbers of the store 0.
fn clear(store: &mut [u64], count: usize) {
    let end = count.min(store.len());
    store[..end].fill(0);
}

// Makes all that a list is lent 0.
fn clear_all(
    textures: &mut [u64],
    retiring: &mut [u64],
    doomed: &mut [u64],
    spares: &mut [u64],
    newest: &mut [u64],
    stamps: &mut [u64],
    copies: &mut [u64],
    views: &mut [u64],
    lengths: Lengths,
) {
    clear(textures, lengths.textures);
    clear(retiring, lengths.retiring);
    clear(doomed, lengths.doomed);
    clear(spares, lengths.spares);
    clear(newest, lengths.newest);
    clear(stamps, lengths.stamps);
    clear(copies, lengths.copies);
    clear(views, lengths.views);
}

// Runs a line on as much of the memory as its list lends.
fn run_part(
    line: &[u8],
    session: Session,
    textures: &mut [u64],
    retiring: &mut [u64],
    doomed: &mut [u64],
    spares: &mut [u64],
    newest: &mut [u64],
    stamps: &mut [u64],
    copies: &mut [u64],
    views: &mut [u64],
    copy: &mut [u64],
    out: &mut [u8],
) -> Session
    requires { most_row ≤ length out.old }
{
    let lengths = session.lengths;
    let t = lengths.textures.min(textures.len());
    let r = lengths.retiring.min(retiring.len());
    let d = lengths.doomed.min(doomed.len());
    let s = lengths.spares.min(spares.len());
    let n = lengths.newest.min(newest.len());
    let m = lengths.stamps.min(stamps.len());
    let c = lengths.copies.min(copies.len());
    let v = lengths.views.min(views.len());
    run_step(
        line,
        session,
        &mut textures[0..t],
        &mut retiring[0..r],
        &mut doomed[0..d],
        &mut spares[0..s],
        &mut newest[0..n],
        &mut stamps[0..m],
        &mut copies[0..c],
        &mut views[0..v],
        copy,
        out,
    )
}

// Runs a line: prints the one that begins a list, and begins it.
fn run_line(
    line: &[u8],
    session: Session,
    textures: &mut [u64],
    retiring: &mut [u64],
    doomed: &mut [u64],
    spares: &mut [u64],
    newest: &mut [u64],
    stamps: &mut [u64],
    copies: &mut [u64],
    views: &mut [u64],
    copy: &mut [u64],
    out: &mut [u8],
) -> Session
    requires { most_row ≤ length out.old }
{
    if line.starts_with(b"=,") {
        io::write_all(STDOUT_FILENO, line);
        io::write_all(STDOUT_FILENO, b"\n");
        let lengths = lengths_of(line);
        clear_all(
            textures, retiring, doomed, spares, newest, stamps, copies, views, lengths,
        );
        return fresh(lengths);
    }
    run_part(
        line,
        next_line(session),
        textures,
        retiring,
        doomed,
        spares,
        newest,
        stamps,
        copies,
        views,
        copy,
        out,
    )
}

// Returns where the line after the one from `from` to `end` begins.
fn next_line_from(input: &[u8], from: usize, end: usize) -> usize
    requires { (from < length input.now) × (from ≤ end) × (end ≤ length input.now) }
    ensures { (from < result) × (result ≤ length input.now) }
{
    if end < input.len() { end + 1 } else { end }
}

// Runs the lines of all lists.
fn run_lines(
    input: &[u8],
    textures: &mut [u64],
    retiring: &mut [u64],
    doomed: &mut [u64],
    spares: &mut [u64],
    newest: &mut [u64],
    stamps: &mut [u64],
    copies: &mut [u64],
    views: &mut [u64],
    copy: &mut [u64],
    out: &mut [u8],
)
    requires { most_row ≤ length out.old }
{
    let mut session = fresh(lengths_of(b"="));
    let mut from = 0;
    // Lines have no fixed length, so no range says where the next one begins.
    while from < input.len() {
        let end = part_end(input, from, b'\n');
        let next = next_line_from(input, from, end);
        session = run_line(
            &input[from..end],
            session,
            textures,
            retiring,
            doomed,
            spares,
            newest,
            stamps,
            copies,
            views,
            copy,
            out,
        );
        from = next;
    }
}

// Runs standard input, as much of it as `input` has room for.
pub fn run_all(
    input: &mut [u8],
    textures: &mut [u64],
    retiring: &mut [u64],
    doomed: &mut [u64],
    spares: &mut [u64],
    newest: &mut [u64],
    stamps: &mut [u64],
    copies: &mut [u64],
    views: &mut [u64],
    copy: &mut [u64],
    out: &mut [u8],
)
    requires { most_row ≤ length out.old }
{
    let to = io::read_full(STDIN_FILENO, input);
    run_lines(
        &input[0..to],
        textures,
        retiring,
        doomed,
        spares,
        newest,
        stamps,
        copies,
        views,
        copy,
        out,
    );
}
