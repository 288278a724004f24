// retire: the version that a rename just replaced is queued, with what parking it will need to know.
ghost use Rattle.std.specs.Prelude.{◌≡◌, true, cond, ◌+◌, ◌*◌, ◌≤◌, ◌<◌, length};
ghost use Rattle.std.proofs.lemmas.List.Edits.{sets};
ghost use Rattle.grid_shapes.specs.Outcomes.{outcome_number};
ghost use Rattle.pool_records.specs.Recorded.{RecordedFits};
ghost use Rattle.pool_records.specs.Texture.{write_texture, texture_in};
ghost use Rattle.pool_memory.specs.Lent.{lent_by, at_entry, at_exit};
ghost use Rattle.pool_memory.specs.IsPool.{is_pool};
ghost use Rattle.pool_memory.specs.Calls.{told_number, retire_on};
ghost use Rattle.pool_retire.specs.Counts.{ring_count};
ghost use Rattle.pool_retire.specs.Noted.{retire_refusal, writes_counted, retired_record, born_at};
ghost use Rattle.pool_records.specs.RecordConstants.{retiring_stride, texture_stride};
ghost use Rattle.pool_rules.specs.RuleConstants.{most_places};
ghost use Rattle.pool_records.specs.Find.{has_id};

use crate::counts::{one_queued, ring_count};
use grid_shapes::Refusal;
use pool_access::{has_id, push_retiring, put_texture, retiring_at, texture_at};
use pool_memory::{DoneAnswer, PacingBook, Pool, same_counts};
use pool_records::{RETIRING_STRIDE, RetiringRecord, TextureRecord, find_texture};
use pool_rules::LIMIT;

// Refuses a submission past the limit, a version for which no place is left, and a submission below the last one in the queue: they must
// not go backwards, since pop_retired looks at the queue's front alone.
fn check_retire(pool: Pool, retiring: &[u64], places: usize, seq: u64) -> Result<(), Refusal>
    requires { (retiring_stride * places ≤ length retiring.now) × (pool.head < places) × (ring_count pool + pool.kept + pool.doomed ≤ places)
        × (places ≤ most_places) }
    ensures { outcome_number result ≡ retire_refusal pool retiring.now places seq }
{
    if seq > LIMIT {
        return Err(Refusal::BadSubmission);
    }
    let n = ring_count(pool);
    if places <= n + pool.kept + pool.doomed {
        return Err(Refusal::VersionsFull);
    }
    let queued = pool.queued;
    if queued == 0 {
        return Ok(());
    }
    let last = retiring_at(retiring, places, pool.head, n - 1);
    if seq < last.seq {
        return Err(Refusal::OutOfOrder);
    }
    Ok(())
}

// Returns the writes that a history has counted; 0 without one.
fn writes_counted(history: Option<u64>) -> u64
    ensures { result ≡ writes_counted history }
{
    history.unwrap_or(0)
}

// Returns what is noted of the version: it holds every write that the texture's history has counted so far. Of an untracked texture
// the tracking and all else are 0; its version is destroyed when it is parked.
fn retired_version(
    textures: &[u64],
    tracked: usize,
    i: usize,
    id: u64,
    view: u64,
    seq: u64,
) -> RetiringRecord
    requires { texture_stride * tracked ≤ length textures.now }
    ensures { result ≡ retired_record (has_id textures.now tracked i id) (texture_in textures.now i) id view seq }
{
    if !has_id(textures, tracked, i, id) {
        return RetiringRecord {
            id,
            view,
            seq,
            epoch: 0,
            birth: 0,
            held: 0,
            bytes: 0,
        };
    }
    let t = texture_at(textures, i);
    RetiringRecord {
        id,
        view,
        seq,
        epoch: t.epoch,
        birth: t.birth,
        held: writes_counted(t.history),
        bytes: t.bytes,
    }
}

// Returns the record of a texture whose live version became live in this submission.
fn born_at(t: TextureRecord, seq: u64) -> TextureRecord
    ensures { result ≡ born_at seq t }
{
    TextureRecord { birth: seq, ..t }
}

// Notes, of a tracked texture, that its live version became live in this submission: it replaces the one that retires.
fn note_birth(textures: &mut [u64], tracked: usize, i: usize, id: u64, seq: u64)
    requires { (texture_stride * tracked ≤ length textures.old)
        × (has_id textures.old tracked i id ≡ true → RecordedFits (texture_in textures.old i).history) }
    ensures { textures.new
        ≡ cond (has_id textures.old tracked i id)
        (sets textures.old (texture_stride * i) (write_texture (born_at seq (texture_in textures.old i)))) textures.old }
{
    if !has_id(textures, tracked, i, id) {
        return;
    }
    let t = texture_at(textures, i);
    put_texture(textures, i, born_at(t, seq));
}

// Queues the version that a rename of the texture just replaced. `seq` is the submission that is being built, which holds every
// command that named the version.
pub fn retire(
    pool: Pool,
    book: PacingBook,
    textures: &mut [u64],
    retiring: &mut [u64],
    doomed: &[u64],
    spares: &[u64],
    newest: &[u64],
    stamps: &[u64],
    id: u64,
    view: u64,
    seq: u64,
) -> DoneAnswer
    requires { is_pool (lent_by pool book textures.old retiring.old doomed.now spares.now newest.now stamps.now) ≡ true }
    ensures { (told_number (outcome_number result.outcome), at_exit result.pool book textures.new retiring.new doomed.now spares.now newest.now stamps.now)
        ≡ retire_on (at_entry pool book textures.old retiring.old doomed.now spares.now newest.now stamps.now) id view seq }
{
    let places = retiring.len() / RETIRING_STRIDE;
    if let Err(refusal) = check_retire(pool, retiring, places, seq) {
        return DoneAnswer {
            pool: same_counts(pool),
            outcome: Err(refusal),
        };
    }
    let i = find_texture(textures, pool.tracked, id);
    let version = retired_version(textures, pool.tracked, i, id, view, seq);
    note_birth(textures, pool.tracked, i, id, seq);
    push_retiring(retiring, places, pool.head, ring_count(pool), version);
    DoneAnswer {
        pool: one_queued(pool),
        outcome: Ok(()),
    }
}
