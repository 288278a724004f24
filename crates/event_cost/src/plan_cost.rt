// What a plan costs.
ghost use Rattle.std.specs.Prelude.{◌≡◌, ◌*◌, ◌≤◌, length};
ghost use Rattle.base_tables.specs.Records.{table};
ghost use Rattle.pool_books.specs.LentLists.{read_copy};
ghost use Rattle.pool_memory.specs.MemoryConstants.{copy_stride};
ghost use Rattle.event_cost.specs.Costs.{clipped_sums, plan_sums};

use crate::copy_cost::copy_cost;
use crate::sums::{Sums, add_sums};
use grid_shapes::VersionShape;
use pool_memory::COPY_STRIDE;

// Returns what the first n copies of the buffer cost.
pub fn plan_cost(shape: VersionShape, copies: &[u64], n: usize) -> Sums
    requires { copy_stride * n ≤ length copies.now }
    ensures { result ≡ clipped_sums (plan_sums shape (table copy_stride read_copy n copies.now)) }
{
    let mut sums = Sums { moved: 0, whole: 0 };
    for i in 0..n {
        let cost = copy_cost(shape, &copies[COPY_STRIDE * i..]);
        sums = add_sums(sums, cost);
    }
    sums
}
