// The call of an opened session's event.
ghost use Rattle.std.specs.Prelude.{◌≡◌, true, length};
ghost use Rattle.pool_memory.specs.Lent.{lent_by, at_entry, at_exit};
ghost use Rattle.pool_memory.specs.IsPool.{is_pool};
ghost use Rattle.event_sessions.specs.Parts.{session_opened, Stepped};

use event_answers::Answer;
use event_calls::{
    Called, call_drain_versions, call_forget_texture, call_note_allocated,
    call_note_mip_regeneration, call_note_write, call_park, call_pop_retired, call_preserve_plan,
    call_retire, call_take_doomed, call_take_spare, call_trim,
};
use event_lines::Event;
use grid_shapes::VersionShape;
use pool_memory::{PacingBook, Pool};

// Makes the event's call. A plan goes by the shape of the latest take line: without one it is no call. Nor is a second `open`.
pub fn call_event(
    pool: Pool,
    book: PacingBook,
    textures: &mut [u64],
    retiring: &mut [u64],
    doomed: &mut [u64],
    spares: &mut [u64],
    newest: &mut [u64],
    stamps: &mut [u64],
    copies: &mut [u64],
    views: &mut [u64],
    taken: bool,
    shape: VersionShape,
    event: Event,
) -> Called
    requires { is_pool (lent_by pool book textures.old retiring.old doomed.old spares.old newest.old stamps.old) ≡ true }
    ensures { Stepped (length copies.old) (length views.old)
        (session_opened taken shape (at_entry pool book textures.old retiring.old doomed.old spares.old newest.old stamps.old)) event result.answer copies.new
        views.new
        (at_exit result.pool result.book textures.new retiring.new doomed.new spares.new newest.new stamps.new) }
{
    match event {
        Event::Take {
            id,
            shape,
            records,
            seq,
        } => call_take_spare(
            pool, book, textures, retiring, doomed, spares, newest, stamps, id, shape, records, seq,
        ),
        Event::Plan {
            id,
            held,
            slice,
            level,
            cover,
        } => {
            if taken {
                call_preserve_plan(
                    pool, book, textures, retiring, doomed, spares, newest, stamps, copies, id,
                    shape, held, slice, level, cover,
                )
            } else {
                Called {
                    pool,
                    book,
                    answer: Answer::Question,
                }
            }
        }
        Event::Retire { id, view, seq } => call_retire(
            pool, book, textures, retiring, doomed, spares, newest, stamps, id, view, seq,
        ),
        Event::Write {
            id,
            slice,
            level,
            rect,
        } => call_note_write(
            pool, book, textures, retiring, doomed, spares, newest, stamps, id, slice, level, rect,
        ),
        Event::Regen(id) => call_note_mip_regeneration(
            pool, book, textures, retiring, doomed, spares, newest, stamps, id,
        ),
        Event::Pop(settled) => call_pop_retired(
            pool, book, textures, retiring, doomed, spares, newest, stamps, settled,
        ),
        Event::Park {
            failed,
            now: current,
        } => call_park(
            pool, book, textures, retiring, doomed, spares, newest, stamps, failed, current,
        ),
        Event::Note(allocated) => call_note_allocated(
            pool, book, textures, retiring, doomed, spares, newest, stamps, allocated,
        ),
        Event::Doomed => call_take_doomed(
            pool, book, textures, retiring, doomed, spares, newest, stamps, views,
        ),
        Event::Drain => call_drain_versions(
            pool, book, textures, retiring, doomed, spares, newest, stamps, views,
        ),
        Event::Trim(current) => call_trim(
            pool, book, textures, retiring, doomed, spares, newest, stamps, current,
        ),
        Event::Forget(id) => call_forget_texture(
            pool, book, textures, retiring, doomed, spares, newest, stamps, id,
        ),
        Event::Open(_) | Event::Unread => Called {
            pool,
            book,
            answer: Answer::Question,
        },
    }
}
