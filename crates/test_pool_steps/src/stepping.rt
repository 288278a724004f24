// One line run on as much of the memory as its list lends.
ghost use Rattle.std.specs.Prelude.{◌≤◌, length};
ghost use Rattle.event_answers.specs.Printed.{most_row};

use crate::answering::{Answered, answer_line};
use crate::reply::print_reply;
use crate::session::{Session, with_counts};
use test_pool_lines::{MOST_FIELDS, OwnLine, read_own};
use test_pool_memory::{dump_all, is_all_kept, keep_all, put_book, put_counts, put_slices};

// Puts the values of a put line.
fn put_line(
    session: Session,
    textures: &mut [u64],
    retiring: &mut [u64],
    doomed: &mut [u64],
    spares: &mut [u64],
    newest: &mut [u64],
    stamps: &mut [u64],
    copies: &mut [u64],
    views: &mut [u64],
    values: [u64; MOST_FIELDS],
    count: usize,
) -> Session {
    let pool = put_counts(session.pool, values, count);
    let book = put_book(session.book, values, count);
    let next = with_counts(session, pool, book);
    put_slices(
        textures, retiring, doomed, spares, newest, stamps, copies, views, values, count,
    );
    next
}

// Prints a line's reply, and says of a refusal or a query whether anything lent was altered.
fn print_step(
    answered: Answered,
    textures: &[u64],
    retiring: &[u64],
    doomed: &[u64],
    spares: &[u64],
    newest: &[u64],
    stamps: &[u64],
    copies: &[u64],
    views: &[u64],
    copy: &[u64],
    out: &mut [u8],
) -> Session
    requires { most_row ≤ length out.old }
{
    let after = answered.session;
    let pool = after.pool;
    let book = after.book;
    let same = is_all_kept(
        copy, pool, book, textures, retiring, doomed, spares, newest, stamps, copies, views,
    );
    let reply = answered.reply;
    print_reply(out, after.number, reply, same, copies, views);
    after
}

// Answers a line, all that is lent being copied before.
fn answer_step(
    session: Session,
    textures: &mut [u64],
    retiring: &mut [u64],
    doomed: &mut [u64],
    spares: &mut [u64],
    newest: &mut [u64],
    stamps: &mut [u64],
    copies: &mut [u64],
    views: &mut [u64],
    copy: &mut [u64],
    own: Option<OwnLine>,
    text: &[u8],
) -> Answered {
    let pool = session.pool;
    let book = session.book;
    keep_all(
        copy, pool, book, textures, retiring, doomed, spares, newest, stamps, copies, views,
    );
    answer_line(
        session, textures, retiring, doomed, spares, newest, stamps, copies, views, own, text,
    )
}

// Answers a line and prints its reply.
fn call_step(
    session: Session,
    textures: &mut [u64],
    retiring: &mut [u64],
    doomed: &mut [u64],
    spares: &mut [u64],
    newest: &mut [u64],
    stamps: &mut [u64],
    copies: &mut [u64],
    views: &mut [u64],
    copy: &mut [u64],
    out: &mut [u8],
    own: Option<OwnLine>,
    text: &[u8],
) -> Session
    requires { most_row ≤ length out.old }
{
    let answered = answer_step(
        session, textures, retiring, doomed, spares, newest, stamps, copies, views, copy, own, text,
    );
    print_step(
        answered, textures, retiring, doomed, spares, newest, stamps, copies, views, copy, out,
    )
}

// Runs a line.
pub fn run_step(
    text: &[u8],
    session: Session,
    textures: &mut [u64],
    retiring: &mut [u64],
    doomed: &mut [u64],
    spares: &mut [u64],
    newest: &mut [u64],
    stamps: &mut [u64],
    copies: &mut [u64],
    views: &mut [u64],
    copy: &mut [u64],
    out: &mut [u8],
) -> Session
    requires { most_row ≤ length out.old }
{
    let read = read_own(text);
    let own = read.line;
    match own {
        Some(OwnLine::Put) => {
            let values = read.values;
            put_line(
                session, textures, retiring, doomed, spares, newest, stamps, copies, views, values,
                read.count,
            )
        }
        Some(OwnLine::Dump) => {
            let pool = session.pool;
            let book = session.book;
            dump_all(
                out, pool, book, textures, retiring, doomed, spares, newest, stamps,
            );
            session
        }
        _ => call_step(
            session, textures, retiring, doomed, spares, newest, stamps, copies, views, copy, out,
            own, text,
        ),
    }
}
