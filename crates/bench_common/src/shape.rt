// Shapes as event lines give them, as in test_common: a benchmark may not stand on the tests (docs/dependencies.py).
use grid_shapes::VersionShape;

// Returns the shape of the six numbers of an event line, the rest 0.
pub fn plain_shape(
    format: u64,
    width: u64,
    height: u64,
    depth: u64,
    levels: u64,
    kind: u64,
) -> VersionShape {
    VersionShape {
        format,
        width,
        height,
        depth,
        levels,
        kind,
        storage: 0,
        usage: 0,
        red: 0,
        green: 0,
        blue: 0,
        alpha: 0,
    }
}
