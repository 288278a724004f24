// What stands in `newest` for a new history's grids: for each no stamp yet, and beside it its tiling.
ghost use Rattle.std.specs.Prelude.{◌≡◌, true, ◌+◌, ◌*◌, ◌/◌, ◌≤◌, length};
ghost use Rattle.std.proofs.lemmas.List.Edits.{sets};
ghost use Rattle.base_blocks.specs.Blocks.{moved};
ghost use Rattle.grid_shapes.specs.Shapes.{is_shape};
ghost use Rattle.pool_rules.specs.Model.{grid_count};
ghost use Rattle.pool_rules.specs.RuleConstants.{grid_stride};
ghost use Rattle.pool_records.specs.Tilings.{fresh_from};

use crate::blocks::move_block;
use grid_shapes::VersionShape;
use pool_access::slice_tilings;
use pool_rules::GRID_STRIDE;

// Writes the numbers of the first n grids of a new history from index `at` on. A slice's grids begin where those of the slice before it
// end: the start stands lowest in a grid's number, so that the stamps of the slices before it are added to the first slice's number. Where no
// history begins, no table is read.
fn put_tilings(newest: &mut [u64], at: usize, n: usize, shape: VersionShape)
    requires { (is_shape shape ≡ true) × (n ≤ grid_count shape) × (at + grid_stride * n ≤ length newest.old) }
    ensures { newest.new ≡ sets newest.old at (fresh_from shape 0 n) }
{
    if n == 0 {
        return;
    }
    let slice = slice_tilings(shape);
    for k in 0..n {
        let level = k as u64 % shape.levels;
        let before = k as u64 / shape.levels * slice.stamps;
        let p = at + GRID_STRIDE * k;
        newest[p] = 0;
        newest[p + 1] = before + slice.levels[level as usize];
    }
}

// Makes way for a new history's n numbers in place of the `old` ones from index `at` on, and writes them: the `later` numbers after
// them move.
pub fn renew_newest(
    newest: &mut [u64],
    at: usize,
    old: usize,
    n: usize,
    later: usize,
    shape: VersionShape,
)
    requires { (at + old + later ≤ length newest.old) × (at + n + later ≤ length newest.old) × (is_shape shape ≡ true)
        × (n ≤ grid_stride * grid_count shape) }
    ensures { newest.new
        ≡ sets (moved newest.old (at + n) (at + old) later) at (fresh_from shape 0 (n / grid_stride)) }
{
    move_block(newest, at + n, at + old, later);
    put_tilings(newest, at, n / GRID_STRIDE, shape);
}
