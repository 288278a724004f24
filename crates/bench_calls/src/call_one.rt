// One call of the pool.
ghost use Rattle.std.specs.Prelude.{◌≡◌, true};
ghost use Rattle.pool_memory.specs.Lent.{lent_by, at_exit};
ghost use Rattle.pool_memory.specs.IsPool.{is_pool};

use crate::answered::{entries_number, held_from, held_number, outcome_number, popped_number};
use crate::asked::rect_of;
use crate::notes::{held_at, id_at, keep_held};
use crate::phases::Call;
use grid_shapes::VersionShape;
use pool_forget_texture::forget_texture;
use pool_memory::{PacingBook, Pool};
use pool_note_allocated::note_allocated;
use pool_note_write::{note_mip_regeneration, note_write};
use pool_park::park;
use pool_preserve_plan::preserve_plan;
use pool_retire::{pop_retired, retire};
use pool_take_doomed::{drain_versions, take_doomed};
use pool_take_spare::take_spare;
use pool_trim::trim;

// The pool after a call or a phase, and what was answered, as a number.
#[derive(Clone, Copy)]
pub struct Called {
    pub pool: Pool,
    pub book: PacingBook,
    pub number: u64,
}

// Makes a call for the i-th texture, in the submission `seq`. A take keeps what the spare holds for its plan.
pub fn call_one(
    pool: Pool,
    book: PacingBook,
    textures: &mut [u64],
    retiring: &mut [u64],
    doomed: &mut [u64],
    spares: &mut [u64],
    newest: &mut [u64],
    stamps: &mut [u64],
    notes: &mut [u64],
    shape: VersionShape,
    call: Call,
    i: usize,
    seq: u64,
) -> Called
    requires { is_pool (lent_by pool book textures.old retiring.old doomed.old spares.old newest.old stamps.old) ≡ true }
    ensures { is_pool (at_exit result.pool result.book textures.new retiring.new doomed.new spares.new newest.new stamps.new) ≡ true }
{
    match call {
        Call::TakeSpare => {
            let id = id_at(notes, i);
            let said = take_spare(
                pool, book, textures, retiring, doomed, spares, newest, stamps, id, shape, true,
                seq,
            );
            let pool = said.pool;
            let taken = said.taken;
            let number = held_number(taken);
            keep_held(notes, i, number);
            Called { pool, book, number }
        }
        Call::PreservePlan => {
            let id = id_at(notes, i);
            let held = held_from(held_at(notes, i));
            let said = preserve_plan(
                pool, book, textures, retiring, doomed, spares, newest, stamps, notes, id, shape,
                held, 0, 0, false,
            );
            Called {
                pool,
                book,
                number: entries_number(said),
            }
        }
        Call::Retire => {
            let id = id_at(notes, i);
            let said = retire(
                pool, book, textures, retiring, doomed, spares, newest, stamps, id, seq, seq,
            );
            let pool = said.pool;
            Called {
                pool,
                book,
                number: outcome_number(said.outcome),
            }
        }
        Call::NoteWrite => {
            let id = id_at(notes, i);
            let rect = rect_of(i, seq);
            let said = note_write(
                pool, book, textures, retiring, doomed, spares, newest, stamps, id, 0, 0, rect,
            );
            let pool = said.pool;
            Called {
                pool,
                book,
                number: outcome_number(said.outcome),
            }
        }
        Call::PopRetired => {
            let said = pop_retired(
                pool, book, textures, retiring, doomed, spares, newest, stamps, seq,
            );
            let pool = said.pool;
            let popped = said.popped;
            Called {
                pool,
                book,
                number: popped_number(popped),
            }
        }
        Call::Park => {
            let said = park(
                pool, book, textures, retiring, doomed, spares, newest, stamps, 0, seq,
            );
            let pool = said.pool;
            Called {
                pool,
                book,
                number: outcome_number(said.outcome),
            }
        }
        // Far below the pressure line.
        Call::NoteAllocated => {
            let said = note_allocated(
                pool, book, textures, retiring, doomed, spares, newest, stamps, 1048576,
            );
            let pool = said.pool;
            let book = said.book;
            Called {
                pool,
                book,
                number: outcome_number(said.outcome),
            }
        }
        Call::TakeDoomed => {
            let said = take_doomed(
                pool, book, textures, retiring, doomed, spares, newest, stamps, notes,
            );
            let pool = said.pool;
            let book = said.book;
            let handed = said.handed;
            Called {
                pool,
                book,
                number: entries_number(handed),
            }
        }
        Call::Trim => {
            let said = trim(
                pool, book, textures, retiring, doomed, spares, newest, stamps, seq,
            );
            let pool = said.pool;
            Called {
                pool,
                book,
                number: outcome_number(said.outcome),
            }
        }
        Call::NoteMipRegeneration => {
            let id = id_at(notes, i);
            let said = note_mip_regeneration(
                pool, book, textures, retiring, doomed, spares, newest, stamps, id,
            );
            let pool = said.pool;
            Called {
                pool,
                book,
                number: outcome_number(said.outcome),
            }
        }
        Call::DrainVersions => {
            let said = drain_versions(
                pool, book, textures, retiring, doomed, spares, newest, stamps, notes,
            );
            let pool = said.pool;
            let book = said.book;
            let handed = said.handed;
            Called {
                pool,
                book,
                number: entries_number(handed),
            }
        }
        Call::ForgetTexture => {
            let id = id_at(notes, i);
            let said = forget_texture(
                pool, book, textures, retiring, doomed, spares, newest, stamps, id,
            );
            let pool = said.pool;
            Called {
                pool,
                book,
                number: outcome_number(said.outcome),
            }
        }
    }
}
