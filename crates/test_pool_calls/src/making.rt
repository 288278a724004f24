// The call of an event.
use crate::called::Called;
use crate::calls::drain_versions::make_drain_versions;
use crate::calls::forget_texture::make_forget_texture;
use crate::calls::note_allocated::make_note_allocated;
use crate::calls::note_mip_regeneration::make_note_mip_regeneration;
use crate::calls::note_write::make_note_write;
use crate::calls::park::make_park;
use crate::calls::pop_retired::make_pop_retired;
use crate::calls::preserve_plan::make_preserve_plan;
use crate::calls::retire::make_retire;
use crate::calls::take_doomed::make_take_doomed;
use crate::calls::take_spare::make_take_spare;
use crate::calls::trim::make_trim;
use event_answers::Answer;
use event_lines::Event;
use grid_shapes::VersionShape;
use pool_memory::{PacingBook, Pool};

// Makes the event's call, with the pacing book lent if `lends`. A plan goes by `shape`, that of the latest take line: without one it is no call. Nor is
// `open`.
pub fn make_event(
    pool: Pool,
    book: PacingBook,
    textures: &mut [u64],
    retiring: &mut [u64],
    doomed: &mut [u64],
    spares: &mut [u64],
    newest: &mut [u64],
    stamps: &mut [u64],
    copies: &mut [u64],
    views: &mut [u64],
    lends: bool,
    shape: Option<VersionShape>,
    event: Event,
) -> Called {
    match event {
        Event::Take {
            id,
            shape,
            records,
            seq,
        } => make_take_spare(
            pool, book, textures, retiring, doomed, spares, newest, stamps, id, shape, records, seq,
        ),
        Event::Plan {
            id,
            held,
            slice,
            level,
            cover,
        } => {
            let Some(shape) = shape else {
                return Called {
                    pool,
                    book,
                    answer: Answer::Question,
                };
            };
            make_preserve_plan(
                pool, book, textures, retiring, doomed, spares, newest, stamps, copies, id, shape,
                held, slice, level, cover,
            )
        }
        Event::Retire { id, view, seq } => make_retire(
            pool, book, textures, retiring, doomed, spares, newest, stamps, id, view, seq,
        ),
        Event::Write {
            id,
            slice,
            level,
            rect,
        } => make_note_write(
            pool, book, textures, retiring, doomed, spares, newest, stamps, id, slice, level, rect,
        ),
        Event::Regen(id) => make_note_mip_regeneration(
            pool, book, textures, retiring, doomed, spares, newest, stamps, id,
        ),
        Event::Pop(settled) => make_pop_retired(
            pool, book, textures, retiring, doomed, spares, newest, stamps, settled,
        ),
        Event::Park {
            failed,
            now: current,
        } => make_park(
            pool, book, textures, retiring, doomed, spares, newest, stamps, failed, current,
        ),
        Event::Note(allocated) => make_note_allocated(
            pool, book, textures, retiring, doomed, spares, newest, stamps, allocated, lends,
        ),
        Event::Doomed => make_take_doomed(
            pool, book, textures, retiring, doomed, spares, newest, stamps, views, lends,
        ),
        Event::Drain => make_drain_versions(
            pool, book, textures, retiring, doomed, spares, newest, stamps, views, lends,
        ),
        Event::Trim(current) => make_trim(
            pool, book, textures, retiring, doomed, spares, newest, stamps, current,
        ),
        Event::Forget(id) => make_forget_texture(
            pool, book, textures, retiring, doomed, spares, newest, stamps, id,
        ),
        _ => Called {
            pool,
            book,
            answer: Answer::Question,
        },
    }
}
