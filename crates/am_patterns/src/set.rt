//! Sets of characters that the two syntaxes write in different ways.
ghost use Rattle.std.specs.Prelude.{◌≤◌, length};

/// A set of characters.
#[derive(Clone, Copy)]
pub(crate) enum Set {
    Digit,
    NotDigit,
    Space,
    NotSpace,
    Word,
    NotWord,
    /// Go's category `C`, which lacks the codes without a character.
    Other,
    NotOther,
    /// No text has a surrogate.
    Surrogate,
    NotSurrogate,
}

impl Set {
    /// The set of a letter behind a backslash.
    pub(crate) fn of_letter(letter: char) -> Option<Set> {
        match letter {
            'd' => Some(Set::Digit),
            'D' => Some(Set::NotDigit),
            's' => Some(Set::Space),
            'S' => Some(Set::NotSpace),
            'w' => Some(Set::Word),
            'W' => Some(Set::NotWord),
            _ => None,
        }
    }

    /// The text that represents the set, in brackets and outside them.
    pub(crate) fn text(self) -> &'static str
        ensures { length result.now ≤ 21 }
    {
        match self {
            Set::Digit => "[0-9]",
            Set::NotDigit => "[^0-9]",
            Set::Space => "[\\t\\n\\f\\r ]",
            Set::NotSpace => "[^\\t\\n\\f\\r ]",
            Set::Word => "[0-9A-Za-z_]",
            Set::NotWord => "[^0-9A-Za-z_]",
            Set::Other => "[\\p{Cc}\\p{Cf}\\p{Co}]",
            Set::NotOther => "[^\\p{Cc}\\p{Cf}\\p{Co}]",
            Set::Surrogate => "[^\\x00-\\x{10FFFF}]",
            Set::NotSurrogate => "[\\x00-\\x{10FFFF}]",
        }
    }
}
