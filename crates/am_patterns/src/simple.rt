//! Patterns that both syntaxes read in the same way. Nearly all patterns of real settings are.
ghost use Rattle.std.specs.Prelude.{◌≡◌};
ghost use Rattle.am_patterns.specs.Simple.{behind, behind_backslash, behind_edge, behind_item, behind_plain};
ghost use Rattle.am_patterns.specs.Simple.{is_edge, is_operator, is_simple, is_special, is_unlike};

use crate::pattern::MAX_GROUPS;

/// A place in a pattern.
#[derive(Clone, Copy)]
struct Place {
    /// A backslash is before it.
    is_escaped: bool,
    /// An operator here has something to repeat.
    is_repeatable: bool,
    /// How many groups are open.
    depth: usize,
}

impl Place {
    /// The place behind a byte. `None` if the two syntaxes can read the byte in different ways.
    #[tactic(auto, unfolding(crate::specs::Simple::behind))]
    fn behind(self, byte: u8) -> Option<Place>
        ensures { result ≡ behind self byte }
    {
        if !self.is_escaped {
            return self.behind_plain(byte);
        }
        if is_special(byte) {
            Some(behind_item(self.depth))
        } else {
            None
        }
    }

    /// The place behind a byte that has no backslash before it.
    #[tactic(auto, unfolding(crate::specs::Simple::behind_plain))]
    fn behind_plain(self, byte: u8) -> Option<Place>
        ensures { result ≡ behind_plain self byte }
    {
        let depth = self.depth;
        if byte == b'\\' {
            return Some(behind_backslash(depth));
        }
        if is_unlike(byte) {
            return None;
        }
        if is_operator(byte) {
            return if self.is_repeatable {
                Some(behind_edge(depth))
            } else {
                None
            };
        }
        if is_edge(byte) {
            return Some(behind_edge(depth));
        }
        if byte == b'(' {
            return if depth < MAX_GROUPS - 1 {
                Some(behind_edge(depth + 1))
            } else {
                None
            };
        }
        if byte == b')' {
            return if depth > 0 {
                Some(behind_item(depth - 1))
            } else {
                None
            };
        }
        Some(behind_item(depth))
    }
}

fn behind_item(depth: usize) -> Place
    ensures { result ≡ behind_item depth }
{
    Place {
        is_escaped: false,
        is_repeatable: true,
        depth,
    }
}

fn behind_edge(depth: usize) -> Place
    ensures { result ≡ behind_edge depth }
{
    Place {
        is_escaped: false,
        is_repeatable: false,
        depth,
    }
}

fn behind_backslash(depth: usize) -> Place
    ensures { result ≡ behind_backslash depth }
{
    Place {
        is_escaped: true,
        is_repeatable: false,
        depth,
    }
}

/// Whether a byte repeats what is before it.
fn is_operator(byte: u8) -> bool
    ensures { result ≡ is_operator byte }
{
    matches!(byte, b'*' | b'+' | b'?')
}

/// Whether a byte is a bar, or tests a place.
fn is_edge(byte: u8) -> bool
    ensures { result ≡ is_edge byte }
{
    matches!(byte, b'|' | b'^' | b'$')
}

/// Whether a byte begins what the two syntaxes can read in different ways.
fn is_unlike(byte: u8) -> bool
    ensures { result ≡ is_unlike byte }
{
    matches!(byte, b'[' | b'{')
}

/// Whether a byte has a meaning of its own that a backslash before it takes.
fn is_special(byte: u8) -> bool
    ensures { result ≡ is_special byte }
{
    matches!(byte, b'\\' | b'.' | b'(' | b')' | b'[' | b'{') || is_operator(byte) || is_edge(byte)
}

/// Whether a pattern is simple.
#[tactic(auto, using(crate::proofs::SimpleSteps::behind_none, crate::proofs::SimpleSteps::behind_some))]
pub(crate) fn is_simple(pattern: &str) -> bool
    ensures { result ≡ is_simple pattern.now }
{
    let mut place = behind_edge(0);
    let mut rest = pattern.as_bytes();
    while let [byte, later @ ..] = rest {
        let Some(next) = place.behind(*byte) else {
            return false;
        };
        place = next;
        rest = later;
    }
    !place.is_escaped && place.depth == 0
}
