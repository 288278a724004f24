// What an upload writes: its rectangle on the block grid, the whole level off it.
ghost use Rattle.std.specs.Prelude.{◌≤◌, length};

use crate::print::figure;
use grid_rects::{TexelRect, upload_written_rect};

// Prints what an upload writes: a square of `size` texels from `start` on both ways, in a level of `extent` both ways.
fn print_upload(name: &[u8], start: u64, size: u64, extent: u64, compressed: Option<u64>)
    requires { length name.now ≤ 64 }
{
    let rect = TexelRect {
        x: start,
        y: start,
        width: size,
        height: size,
    };
    match upload_written_rect(rect, extent, extent, compressed) {
        Ok(to) => figure(name, &[0, to.x, to.y, to.width, to.height]),
        Err(refusal) => figure(name, &[refusal.number()]),
    }
}

// Prints what uploads write.
pub fn print_uploads() {
    print_upload(b"upload_on_grid", 4, 8, 16, Some(5));
    print_upload(b"upload_start_off_grid", 2, 8, 16, Some(5));
    print_upload(b"upload_size_off_grid", 4, 6, 16, Some(6));
    print_upload(b"upload_to_the_edge", 16, 2, 18, Some(6));
    print_upload(b"upload_format_4", 1, 3, 16, Some(4));
    print_upload(b"upload_format_8", 1, 3, 16, Some(8));
    print_upload(b"upload_format_9", 4, 8, 16, Some(9));
    print_upload(b"upload_no_format", 1, 3, 16, None);
}
