// Stand-in for the pixel formats and their block layouts.
ghost use Rattle.std.specs.Prelude.{◌≡◌};
ghost use Rattle.grid_shapes.specs.Formats.{block_edge, block_bytes};

// Bytes of a block by format, five bits each, format 0 in the lowest. A constant array would be copied to the stack at each use.
const BLOCK_BYTES: u64 = 0b01000_00100_10000_01000_10000_01000_00100_00010_00001;

// Returns the texels along a block's side: 4 for the two compressed formats, 1 otherwise.
pub fn block_edge(format: u64) -> u64
    ensures { result ≡ block_edge format }
{
    if (format == 5) | (format == 6) { 4 } else { 1 }
}

// Returns the bytes of a block.
pub fn block_bytes(format: u64) -> u64
    ensures { result ≡ block_bytes format }
{
    if format < 9 {
        (BLOCK_BYTES >> (5 * format)) % 32
    } else {
        0
    }
}
