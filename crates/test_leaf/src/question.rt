// Which question a line asks. `fields` are those after a question's word; compare/README.md has the questions.
ghost use Rattle.std.specs.Prelude.{◌≤◌, length};

use crate::answer::Answer;
use crate::axis::{edge_along, table_entry, tiles_along};
use crate::budget::budget_of;
use crate::copy::copy_cost;
use crate::fields::field_end;
use crate::grid::grid_since;
use crate::rect::{on_grid, upload};
use crate::shape::{level_extent, shape_bytes, shape_records, shape_slices};

// Returns the answer to a word's question, if there is such a question.
fn field_answer(word: &[u8], fields: &[u8]) -> Option<Answer>
    requires { length fields.now ≤ 65536 }
{
    match word {
        b"level_extent" => level_extent(fields),
        b"tile_edge" => edge_along(fields),
        b"tiles" => tiles_along(fields),
        b"table" => table_entry(fields),
        b"grid" => grid_since(fields),
        b"budget" => budget_of(fields),
        b"bytes" => shape_bytes(fields),
        b"slices" => shape_slices(fields),
        b"records" => shape_records(fields),
        b"copy" => copy_cost(fields),
        b"upload" => upload(fields),
        b"ongrid" => on_grid(fields),
        _ => None,
    }
}

// Answers a line without its line feed: a word and fields, all parted by commas.
pub fn answer_of(line: &[u8]) -> Option<Answer>
    requires { length line.now ≤ 65536 }
{
    let end = field_end(line, 0);
    // Every question has a field, so a word alone is malformed.
    if end == line.len() {
        return None;
    }
    field_answer(&line[0..end], &line[end + 1..])
}
