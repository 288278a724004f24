// The line that a list begins with: =,TEXTURES,VERSIONS,PAGES,ANSWERS,NAME.
ghost use Rattle.std.specs.Prelude.{◌≤◌, IfSome};
ghost use Rattle.test_replay.specs.ReplayConstants.{most_entries, most_pages, most_textures, most_versions};

use crate::constants::{MOST_ENTRIES, MOST_PAGES, MOST_TEXTURES, MOST_VERSIONS};
use event_text::number_at;

// The places that the list's program has.
#[derive(Clone, Copy)]
pub struct Sizes {
    pub textures: usize,
    pub versions: usize,
    pub pages: usize,
    pub answers: usize,
}

// A size, and where the field after it begins.
#[derive(Clone, Copy)]
struct Size {
    places: usize,
    next: usize,
}

// Returns the size in the field that begins at `at`. There is none in a field that is no number, or one past the most, or the line's last.
fn given_at(line: &[u8], at: usize, most: usize) -> Option<Size>
    ensures { IfSome result (λ size. size.places ≤ most) }
{
    if line.len() < at {
        return None;
    }
    let read = number_at(line, at)?;
    if ((most as u64) < read.value) | (line.len() <= read.end) {
        return None;
    }
    Some(Size {
        places: read.value as usize,
        next: read.end + 1,
    })
}

// Returns that size; where there is none, 0, and the line's end as the next field.
fn size_at(line: &[u8], at: usize, most: usize) -> Size
    ensures { result.places ≤ most }
{
    given_at(line, at, most).unwrap_or(Size {
        places: 0,
        next: line.len(),
    })
}

// Returns the sizes of a line, whose first field is "=".
pub fn sizes_of(line: &[u8]) -> Sizes
    ensures { (result.textures ≤ most_textures) × (result.versions ≤ most_versions) × (result.pages ≤ most_pages) × (result.answers ≤ most_entries) }
{
    let textures = size_at(line, 2, MOST_TEXTURES);
    let versions = size_at(line, textures.next, MOST_VERSIONS);
    let pages = size_at(line, versions.next, MOST_PAGES);
    let answers = size_at(line, pages.next, MOST_ENTRIES);
    Sizes {
        textures: textures.places,
        versions: versions.places,
        pages: pages.places,
        answers: answers.places,
    }
}
