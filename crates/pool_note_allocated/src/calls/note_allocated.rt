// note_allocated: the pressure mark, the excess, and relief.
ghost use Rattle.std.specs.Prelude.{◌≡◌, true, ◌+◌, ◌-◌, ◌≤◌, ◌<◌, ◌^◌};
ghost use Rattle.pool_rules.specs.declared.budget.VersionBudget.{VersionBudget};
ghost use Rattle.pool_rules.specs.NoteAllocated.{pressed_after};
ghost use Rattle.pool_memory.specs.Lent.{lent_by, at_entry, at_exit};
ghost use Rattle.pool_memory.specs.IsPool.{is_pool};
ghost use Rattle.grid_shapes.specs.Outcomes.{outcome_number};
ghost use Rattle.pool_memory.specs.Calls.{told_number, note_allocated_on};
ghost use Rattle.pool_note_allocated.specs.NoteAllocated.{counts_relieved, noted_book};
ghost use Rattle.pool_rules.specs.RuleConstants.{most_places};

use crate::relieve::relieve;
use grid_shapes::Refusal;
use pool_memory::{PacingBook, Pool};
use pool_relief_line::{bytes_before, parking_line};
use pool_rules::VersionBudget;

// The pool and the book after the call, and whether it was accepted: it is on every pool.
#[derive(Clone, Copy)]
pub struct NotedAnswer {
    pub pool: Pool,
    pub book: PacingBook,
    pub outcome: Result<(), Refusal>,
}

// Tells whether the mark is set then: it is set above the line, released below `resume_below`, and otherwise as it was, so that a
// process hovering at the line does not park and destroy in turn.
fn pressed_after(budget: VersionBudget, allocated: u64, pressed: bool) -> bool
    ensures { result ≡ pressed_after budget allocated pressed }
{
    if pressed {
        return budget.resume_below() <= allocated;
    }
    budget.line < allocated
}

// Returns the book with the mark and the excess of `allocated` bytes.
fn noted(pool: Pool, book: PacingBook, allocated: u64) -> PacingBook
    ensures { result ≡ noted_book pool book allocated }
{
    let budget = VersionBudget {
        cap: pool.cap,
        line: pool.line,
    };
    PacingBook {
        pressed: pressed_after(budget, allocated, book.pressed == 1) as u64,
        excess: allocated.saturating_sub(pool.line),
        ..book
    }
}

// Returns the counts when `kept` spares are left and `bytes` bytes went to the destroy queue.
fn counts_after(pool: Pool, kept: usize, bytes: u64) -> Pool
    requires { (kept ≤ pool.kept) × (pool.doomed + pool.kept ≤ most_places) × (pool.since ≤ most_places) × (bytes ≤ pool.parked)
        × (pool.dooming + bytes < 2 ^ 64) }
    ensures { result ≡ counts_relieved pool kept bytes }
{
    let given = pool.kept - kept;
    Pool {
        kept,
        doomed: pool.doomed + given,
        since: pool.since + given as u64,
        parked: pool.parked - bytes,
        dooming: pool.dooming + bytes,
        ..pool
    }
}

// Notes how many bytes the process has allocated. If what is queued for destruction does not cover the excess, spares are given up,
// the oldest first: nothing names them, and losing one costs the next rename no more than an allocation and a whole copy.
pub fn note_allocated(
    pool: Pool,
    book: PacingBook,
    textures: &mut [u64],
    retiring: &[u64],
    doomed: &mut [u64],
    spares: &mut [u64],
    newest: &[u64],
    stamps: &[u64],
    allocated: u64,
) -> NotedAnswer
    requires { is_pool (lent_by pool book textures.old retiring.now doomed.old spares.old newest.now stamps.now) ≡ true }
    ensures { (told_number (outcome_number result.outcome), at_exit result.pool result.book textures.new retiring.now doomed.new spares.new newest.now stamps.now)
        ≡ note_allocated_on (at_entry pool book textures.old retiring.now doomed.old spares.old newest.now stamps.now) allocated }
{
    let after = noted(pool, book, allocated);
    let excess = allocated.saturating_sub(pool.line);
    if excess <= pool.dooming {
        return NotedAnswer {
            pool,
            book: after,
            outcome: Ok(()),
        };
    }
    let line = parking_line(textures, pool.tracked, spares, pool.dooming, excess);
    let freed = pool.dooming + bytes_before(textures, pool.tracked, spares, line);
    let relief = relieve(
        pool, book, textures, retiring, doomed, spares, newest, stamps, line, freed, excess,
    );
    NotedAnswer {
        pool: counts_after(pool, relief.kept, relief.bytes),
        book: after,
        outcome: Ok(()),
    }
}
