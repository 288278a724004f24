// What one copy costs.
ghost use Rattle.std.specs.Prelude.{◌≡◌, ◌≤◌, length};
ghost use Rattle.pool_books.specs.LentLists.{read_copy};
ghost use Rattle.pool_memory.specs.MemoryConstants.{copy_stride};
ghost use Rattle.event_cost.specs.Costs.{copy_sums};

use crate::sums::Sums;
use grid_rects::{Region, TexelRect, copy_bytes};
use grid_shapes::VersionShape;

// Returns the region of the copy that stands in the first seven numbers.
fn copied_region(copy: &[u64]) -> Region
    requires { copy_stride ≤ length copy.now }
    ensures { result ≡ (read_copy copy.now).region }
{
    if copy[2] == 1 {
        return Region::Whole;
    }
    Region::Part(TexelRect {
        x: copy[3],
        y: copy[4],
        width: copy[5],
        height: copy[6],
    })
}

// Returns what the copy that stands in the first seven numbers moves, and what it would move if it were of its whole level: nothing for what is
// no shape, which no plan goes by.
pub fn copy_cost(shape: VersionShape, copy: &[u64]) -> Sums
    requires { copy_stride ≤ length copy.now }
    ensures { result ≡ copy_sums shape (read_copy copy.now) }
{
    let level = copy[1];
    let region = copied_region(copy);
    Sums {
        moved: copy_bytes(shape, level, region).unwrap_or(0),
        whole: copy_bytes(shape, level, Region::Whole).unwrap_or(0),
    }
}
