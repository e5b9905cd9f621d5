//! Repetitions.
use crate::text::{after, char_at, is_at};

/// The greatest count, also of counts within counts.
pub(crate) const MAX_COUNT: u32 = 1_000;

/// How often a part is repeated, and how many characters of the pattern say so.
#[derive(Clone, Copy)]
pub(crate) struct Repetition {
    pub(crate) least: u32,
    /// `None`: there is no greatest count.
    pub(crate) most: Option<u32>,
    pub(crate) length: usize,
}

/// Reads the operator at the front. `None` if a brace there is no operator.
pub(crate) fn read_repetition(text: &[char]) -> Option<Repetition> {
    let (least, most) = match char_at(text, 0)? {
        '*' => (0, None),
        '+' => (1, None),
        '?' => (0, Some(1)),
        _ => return read_counts(text),
    };
    Some(Repetition {
        least,
        most,
        length: 1,
    })
}

/// Reads counts in braces.
fn read_counts(text: &[char]) -> Option<Repetition> {
    let (least, digits) = read_number(after(text, 1))?;
    let end = digits.saturating_add(1);
    if is_at(text, end, '}') {
        return Some(Repetition {
            least,
            most: Some(least),
            length: end.saturating_add(1),
        });
    }
    if !is_at(text, end, ',') {
        return None;
    }
    let second = end.saturating_add(1);
    if is_at(text, second, '}') {
        return Some(Repetition {
            least,
            most: None,
            length: second.saturating_add(1),
        });
    }
    let (most, digits) = read_number(after(text, second))?;
    let end = second.saturating_add(digits);
    if !is_at(text, end, '}') {
        return None;
    }
    Some(Repetition {
        least,
        most: Some(most),
        length: end.saturating_add(1),
    })
}

/// The number at the front of a text, and how many digits it has. It has no leading zeros.
fn read_number(text: &[char]) -> Option<(u32, usize)> {
    let digits = text.iter().take_while(|c| c.is_ascii_digit()).count();
    if digits == 0 || (digits > 1 && is_at(text, 0, '0')) {
        return None;
    }
    let mut number = 0u32;
    for c in text.iter().take(digits) {
        number = number
            .saturating_mul(10)
            .saturating_add(c.to_digit(10).unwrap_or(0));
    }
    Some((number, digits))
}

impl Repetition {
    /// Whether the counts are in order, and none is too great.
    pub(crate) fn is_sound(self) -> bool {
        match self.most {
            Some(most) => self.least <= most && most <= MAX_COUNT,
            None => self.least <= MAX_COUNT,
        }
    }

    /// Whether a part can come twice by its counts.
    pub(crate) fn is_multiple(self) -> bool {
        self.least >= 2 || self.most.is_some_and(|most| most >= 2)
    }

    /// The greatest product of counts, where that of the part is given.
    pub(crate) fn product(self, part: u32) -> u32 {
        match self.most {
            Some(0) => 1,
            Some(most) => part.saturating_mul(most),
            None => part.saturating_mul(self.least.max(1)),
        }
    }
}
