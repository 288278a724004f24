// A tracking just begun: its history, the numbers of its grids and its record.
ghost use Rattle.std.specs.Prelude.{◌≡◌, true, ◌≤◌};
ghost use Rattle.grid_shapes.specs.Shapes.{is_shape};
ghost use Rattle.pool_rules.specs.Model.{grid_count};
ghost use Rattle.pool_rules.specs.RuleConstants.{most_places};
ghost use Rattle.pool_tracking.specs.Begun.{fresh_history, fresh_grids, new_record};

use grid_shapes::{VersionShape, shape_bytes};
use pool_access::shape_grids;
use pool_records::TextureRecord;
use pool_rules::GRID_STRIDE;

// A tracking that begins: the texture's place among the tracked ones, its id and its shape, whether its writes are recorded, the
// submission that it begins with, and how many stamps its history takes, which the test for a refusal has added up.
#[derive(Clone, Copy)]
pub struct NewTracking {
    pub place: usize,
    pub id: u64,
    pub shape: VersionShape,
    pub records: bool,
    pub seq: u64,
    pub stamps: usize,
}

// Returns an empty write history, or none where writes are not recorded. It starts empty, since every version from here on holds
// whatever was written before: only later writes are stamped.
fn fresh_history(records: bool) -> Option<u64>
    ensures { result ≡ fresh_history records }
{
    records.then_some(0)
}

// Returns how many numbers of `newest` that history takes.
pub fn fresh_grids(shape: VersionShape, records: bool) -> usize
    requires { grid_count shape ≤ most_places }
    ensures { result ≡ fresh_grids shape records }
{
    if records {
        GRID_STRIDE * shape_grids(shape)
    } else {
        0
    }
}

// Returns the texture's record: its grids and its stamps begin at these places.
pub fn new_record(new: NewTracking, epoch: u64, grid: usize, stamp: usize) -> TextureRecord
    requires { is_shape new.shape ≡ true }
    ensures { result ≡ new_record new epoch grid stamp }
{
    let shape = new.shape;
    let history = fresh_history(new.records);
    TextureRecord {
        id: new.id,
        shape,
        epoch,
        history,
        birth: 0,
        rename: new.seq,
        due: new.seq,
        spares: 0,
        bytes: shape_bytes(shape),
        grid: grid as u64,
        stamp: stamp as u64,
    }
}
