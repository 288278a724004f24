// The parts of a text: lines, and the fields of a line.
ghost use Rattle.std.specs.Prelude.{◌≤◌, length};

use event_text::find_byte;

// Returns where the part of `text` that starts at `from` ends: at the next such byte, or at the end of the text.
pub fn part_end(text: &[u8], from: usize, byte: u8) -> usize
    requires { from ≤ length text.now }
    ensures { (from ≤ result) × (result ≤ length text.now) }
{
    find_byte(text, from, byte)
}
