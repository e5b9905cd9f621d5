//! Flags.
ghost use Rattle.std.specs.Prelude.{◌+◌, ◌≤◌, string_len, OnOk};

use crate::code::push_if;
use crate::fault::{FaultKind, Wrong};
use std::alloc::AllocError;

/// The flags that hold at a place of a pattern.
#[derive(Clone, Copy, PartialEq, Eq)]
pub(crate) struct Flags {
    /// `i`: letters match both cases.
    ignore_case: bool,
    /// `m`: `^` and `$` match at lines.
    multi_line: bool,
    /// `s`: a dot matches the end of a line.
    dot_all: bool,
    /// `U`: a repetition is short unless a question mark follows.
    lazy: bool,
}

/// What flags in parentheses do.
#[derive(Clone, Copy)]
pub(crate) struct FlagGroup {
    pub(crate) flags: Flags,
    /// Whether they open a group, as `(?i:`.
    pub(crate) is_open: bool,
    pub(crate) length: usize,
}

impl Flags {
    /// The flags at the start of a pattern.
    pub(crate) const START: Flags = Flags {
        ignore_case: false,
        multi_line: false,
        dot_all: false,
        lazy: false,
    };

    /// The flags with one changed. `None` if no flag has this letter.
    fn with(self, letter: char, value: bool) -> Option<Flags> {
        let mut flags = self;
        match letter {
            'i' => flags.ignore_case = value,
            'm' => flags.multi_line = value,
            's' => flags.dot_all = value,
            'U' => flags.lazy = value,
            _ => return None,
        }
        Some(flags)
    }

    /// Writes the letters of the flags that are set here and not there.
    fn push_more(self, other: Flags, out: &mut String) -> Result<(), AllocError>
        ensures { OnOk result (string_len out.new ≤ string_len out.old + 4) }
    {
        push_if(out, self.ignore_case && !other.ignore_case, 'i')?;
        push_if(out, self.multi_line && !other.multi_line, 'm')?;
        push_if(out, self.dot_all && !other.dot_all, 's')?;
        push_if(out, self.lazy && !other.lazy, 'U')
    }

    /// Whether a flag is set here and not there.
    fn has_more(self, other: Flags) -> bool {
        (self.ignore_case && !other.ignore_case)
            || (self.multi_line && !other.multi_line)
            || (self.dot_all && !other.dot_all)
            || (self.lazy && !other.lazy)
    }

    /// Writes what changes one set of flags to another.
    pub(crate) fn push_change(self, old: Flags, out: &mut String) -> Result<(), AllocError>
        ensures { OnOk result (string_len out.new ≤ string_len out.old + 9) }
    {
        self.push_more(old, out)?;
        push_if(out, old.has_more(self), '-')?;
        old.push_more(self, out)
    }
}

/// Reads from `(?` on.
pub(crate) fn read_flags(text: &[char], old: Flags) -> Result<FlagGroup, Wrong> {
    let mut flags = old;
    let mut value = true;
    let mut is_empty = false;
    for (index, c) in text.iter().enumerate().skip(2) {
        let length = index.saturating_add(1);
        if let Some(changed) = flags.with(*c, value) {
            flags = changed;
            is_empty = false;
            continue;
        }
        match c {
            '-' if value => {
                value = false;
                is_empty = true;
            }
            ':' | ')' if !is_empty => {
                return Ok(FlagGroup {
                    flags,
                    is_open: *c == ':',
                    length,
                });
            }
            _ => return Err(Wrong::of_first(FaultKind::InvalidFlags, length)),
        }
    }
    Err(Wrong::of_first(FaultKind::InvalidFlags, text.len()))
}
