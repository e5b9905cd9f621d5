//! What can be between the pieces of a text.
ghost use Rattle.std.specs.Prelude.{◌≡◌, ◌&&◌, ◌≤◌, length};
ghost use Rattle.am_yaml.specs.Bytes.{are_blanks, column_of, gap_after, is_blank as is_a_blank, is_flow_sign, is_gap as is_a_gap};
ghost use Rattle.am_yaml.specs.Bytes.{is_space as is_a_space, is_whole as is_a_whole};

/// How far bytes are a gap.
#[derive(Clone, Copy, PartialEq, Eq)]
pub(crate) enum Gap {
    /// So far, and the last byte is a space.
    Apart,
    /// So far, and the last byte is none.
    Joined,
    /// A comment, which goes to its line's end.
    Comment,
    /// Something else was there.
    Broken,
}

impl Gap {
    /// What it is behind one more byte.
    fn after(self, byte: u8) -> Gap
        ensures { result ≡ gap_after self byte }
    {
        match self {
            Gap::Apart => {
                if is_space(byte) {
                    Gap::Apart
                } else if byte == b'#' {
                    Gap::Comment
                } else {
                    Gap::Broken
                }
            }
            Gap::Joined => {
                if is_space(byte) {
                    Gap::Apart
                } else {
                    Gap::Broken
                }
            }
            Gap::Comment => {
                if byte == b'\n' {
                    Gap::Apart
                } else {
                    Gap::Comment
                }
            }
            Gap::Broken => Gap::Broken,
        }
    }

    fn is_whole(self) -> bool
        ensures { result ≡ is_a_whole self }
    {
        match self {
            Gap::Apart | Gap::Joined | Gap::Comment => true,
            Gap::Broken => false,
        }
    }
}

/// Whether the byte is a space or a tab.
pub(crate) fn is_blank(byte: u8) -> bool
    ensures { result ≡ is_a_blank byte }
{
    byte == b' ' || byte == b'\t'
}

/// Whether the byte is a space, a tab or a line's end.
pub(crate) fn is_space(byte: u8) -> bool
    ensures { result ≡ is_a_space byte }
{
    is_blank(byte) || byte == b'\n'
}

/// Whether the byte begins, parts or ends a flow collection.
pub(crate) fn is_sign_in_flow(byte: u8) -> bool
    ensures { result ≡ is_flow_sign byte }
{
    byte == b',' || byte == b'[' || byte == b']' || byte == b'{' || byte == b'}'
}

/// Whether the bytes are a gap, behind a space or behind what is none.
pub(crate) fn is_gap(bytes: &[u8], is_apart: bool) -> bool
    ensures { result ≡ is_a_gap is_apart bytes.now }
{
    let mut gap = if is_apart { Gap::Apart } else { Gap::Joined };
    for byte in bytes {
        gap = gap.after(*byte);
    }
    gap.is_whole()
}

/// Returns whether both are so.
pub(crate) fn both(one: bool, other: bool) -> bool
    ensures { result ≡ (one && other) }
{
    one && other
}

/// Whether the bytes are blanks.
pub(crate) fn is_blank_part(bytes: &[u8]) -> bool
    ensures { result ≡ are_blanks bytes.now }
{
    let mut all = true;
    for byte in bytes {
        all = both(all, is_blank(*byte));
    }
    all
}

/// How many bytes of its line are before an offset.
pub(crate) fn column_at(text: &[u8], at: usize) -> usize
    requires { at ≤ length text.now }
    ensures { result ≡ column_of text.now at }
{
    let mut start = at;
    while start > 0 && text[start - 1] != b'\n' {
        start -= 1;
    }
    at - start
}
