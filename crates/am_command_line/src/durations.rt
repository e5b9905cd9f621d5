//! Durations as people write them.
use std::alloc::{AllocError, Global};

/// The units of durations, the largest first, each with the words that people write for it. Seconds are meant where a number
/// has no unit.
const UNITS: [(&str, &[&str]); 7] = [
    ("y", &["y", "yr", "year", "years"]),
    ("w", &["w", "wk", "week", "weeks"]),
    ("d", &["d", "ds", "day", "days"]),
    ("h", &["h", "hr", "hour", "hours"]),
    ("m", &["m", "min", "minute", "minutes"]),
    ("s", &["", "s", "sec", "second", "seconds"]),
    ("ms", &["ms", "msec", "millisecond", "milliseconds"]),
];

/// A duration as it is understood so far.
#[derive(Drop)]
struct Understood {
    written: String,
    number: String,
    word: String,
    /// The location of the next unit that may come in `UNITS`.
    next_unit: usize,
}

impl Understood {
    /// Adds a text, and says whether it can be understood.
    fn read(&mut self, text: &str) -> Result<bool, AllocError> {
        for character in text.chars() {
            match character {
                '0'..='9' => {
                    if !self.word.is_empty() && !self.add_part()? {
                        return Ok(false);
                    }
                    self.number.push(character)?;
                }
                'a'..='z' | 'A'..='Z' => self.word.push(character.to_ascii_lowercase())?,
                ' ' | ',' => {}
                _ => return Ok(false),
            }
        }
        self.add_part()
    }

    /// Adds the number and its unit that were read, and says whether that was possible.
    fn add_part(&mut self) -> Result<bool, AllocError> {
        let Some((unit, sign)) = unit_of(self.word.as_str()) else {
            return Ok(false);
        };
        if self.number.is_empty() || unit < self.next_unit {
            return Ok(false);
        }
        self.written.push_str(self.number.as_str())?;
        self.written.push_str(sign)?;
        self.next_unit = unit.saturating_add(1);
        self.number.clear();
        self.word.clear();
        Ok(true)
    }
}

/// Returns the location in `UNITS` of the unit that a word means, and how that unit has to be written.
fn unit_of(word: &str) -> Option<(usize, &'static str)> {
    let mut index = 0usize;
    for (sign, words) in &UNITS {
        if words.contains(&word) {
            return Some((index, *sign));
        }
        index = index.saturating_add(1);
    }
    None
}

/// Returns the duration that a text means, as it has to be written, such as `5m` for `5 min`; none, where the text can't
/// be understood.
pub(crate) fn rewritten(alloc: Global, text: &str) -> Result<Option<String>, AllocError> {
    let mut understood = Understood {
        written: String::new(alloc),
        number: String::new(alloc),
        word: String::new(alloc),
        next_unit: 0,
    };
    if understood.read(text)? {
        Ok(Some(understood.written))
    } else {
        Ok(None)
    }
}

/// Adds a duration in milliseconds as it is written, such as `2h30m`.
pub fn push_duration(duration: u64, out: &mut String) -> Result<(), AllocError> {
    if duration == 0 {
        return out.push_str("0s");
    }
    let mut rest = duration;
    for (unit, length) in [
        ("d", 86_400_000),
        ("h", 3_600_000),
        ("m", 60_000),
        ("s", 1_000),
        ("ms", 1),
    ] {
        let count = rest.checked_div(length).unwrap_or(0);
        rest = rest.checked_rem(length).unwrap_or(0);
        if count > 0 {
            write!(out, "{count}{unit}")?;
        }
    }
    Ok(())
}
