// A phase: its calls, one after the other.
ghost use Rattle.std.specs.Prelude.{◌≡◌, true};
ghost use Rattle.pool_memory.specs.Lent.{lent_by, at_exit};
ghost use Rattle.pool_memory.specs.IsPool.{is_pool};

use crate::asked::bench_shape;
use crate::call_one::{Called, call_one};
use crate::phases::{Phase, Task, call_at, calls_of, texture_at};
use pool_memory::{PacingBook, Pool};

// Makes the calls of a phase, and answers the sum of what they answered.
pub fn call_all(
    pool: Pool,
    book: PacingBook,
    textures: &mut [u64],
    retiring: &mut [u64],
    doomed: &mut [u64],
    spares: &mut [u64],
    newest: &mut [u64],
    stamps: &mut [u64],
    notes: &mut [u64],
    task: Task,
    phase: Phase,
    seq: u64,
) -> Called
    requires { is_pool (lent_by pool book textures.old retiring.old doomed.old spares.old newest.old stamps.old) ≡ true }
    ensures { is_pool (at_exit result.pool result.book textures.new retiring.new doomed.new spares.new newest.new stamps.new) ≡ true }
{
    let shape = bench_shape(task.textures, task.levels);
    let n = calls_of(phase, task.textures, seq);
    let mut counts = pool;
    let mut paces = book;
    let mut sum = 0u64;
    for j in 0..n {
        let done = call_one(
            counts,
            paces,
            textures,
            retiring,
            doomed,
            spares,
            newest,
            stamps,
            notes,
            shape,
            call_at(phase, j),
            texture_at(phase, j),
            seq,
        );
        counts = done.pool;
        paces = done.book;
        sum = sum.wrapping_add(done.number);
    }
    Called {
        pool: counts,
        book: paces,
        number: sum,
    }
}
