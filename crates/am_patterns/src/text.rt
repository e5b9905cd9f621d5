//! Characters of a pattern.
ghost use Rattle.std.specs.Prelude.{◌≡◌, ◌-◌, length, min};

/// What follows the first characters.
pub(crate) fn after(text: &[char], count: usize) -> &[char]
    ensures { length result.now ≡ length text.now - count }
{
    &text[count.min(text.len())..]
}

/// The first characters.
pub(crate) fn before(text: &[char], count: usize) -> &[char]
    ensures { length result.now ≡ min count (length text.now) }
{
    &text[..count.min(text.len())]
}

/// The character at an index.
pub(crate) fn char_at(text: &[char], index: usize) -> Option<char> {
    text.get(index).copied()
}

/// Whether the character at an index is this one.
pub(crate) fn is_at(text: &[char], index: usize, wanted: char) -> bool {
    char_at(text, index) == Some(wanted)
}

/// The first index of a character.
pub(crate) fn find(text: &[char], wanted: char) -> Option<usize> {
    text.iter().position(|c| *c == wanted)
}

/// The first index of two characters in a row.
pub(crate) fn find_pair(text: &[char], first: char, second: char) -> Option<usize> {
    for (index, c) in text.iter().enumerate() {
        if *c == first && is_at(text, index.saturating_add(1), second) {
            return Some(index);
        }
    }
    None
}

/// The last index of two characters in a row.
pub(crate) fn find_last_pair(text: &[char], first: char, second: char) -> Option<usize> {
    let mut found = None;
    for (index, c) in text.iter().enumerate() {
        if *c == first && is_at(text, index.saturating_add(1), second) {
            found = Some(index);
        }
    }
    found
}

/// Whether the characters are those of an ASCII word.
pub(crate) fn spells(text: &[char], word: &str) -> bool {
    text.len() == word.len()
        && text
            .iter()
            .zip(word.as_bytes())
            .all(|(c, byte)| *c as u32 == u32::from(*byte))
}

/// How many bytes the first characters have.
pub(crate) fn byte_offset(text: &[char], count: usize) -> usize {
    let mut offset = 0usize;
    for c in before(text, count) {
        offset = offset.saturating_add(c.len_utf8());
    }
    offset
}
