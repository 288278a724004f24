// The grids that a texture's history has, and the stamps that they take.
ghost use Rattle.std.specs.Prelude.{◌≡◌, true, ◌≤◌};
ghost use Rattle.grid_shapes.specs.Shapes.{is_shape};
ghost use Rattle.pool_rules.specs.HistorySizes.{history_size};
ghost use Rattle.pool_rules.specs.Model.{grid_count};
ghost use Rattle.pool_rules.specs.RuleConstants.{most_places};

use crate::slices::slice_tilings;
use grid_shapes::{VersionShape, slices};

// Returns how many grids a history of the shape has: one for each slice and level.
pub fn shape_grids(shape: VersionShape) -> usize
    requires { grid_count shape ≤ most_places }
    ensures { result ≡ grid_count shape }
{
    (slices(shape) * shape.levels) as usize
}

// Returns how many stamps a history of the shape takes.
pub fn shape_stamps(shape: VersionShape) -> usize
    requires { is_shape shape ≡ true }
    ensures { result ≡ history_size shape }
{
    let slice = slice_tilings(shape);
    slices(shape) as usize * slice.stamps as usize
}
