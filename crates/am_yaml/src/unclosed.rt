//! Brackets and braces without their ends, where a reader stops below them.
use crate::cursor::{Cursor, END, is_blank};
use crate::fault::{Reason, Stop};

/// Returns the fault in a text in which this flow collection is open, if one is: that it has no end, if that led to the fault.
pub(crate) fn named(stop: Stop, open: Option<Cursor<'_>>) -> Stop {
    let (Some(open), Stop::At { at, reason }) = (open, stop) else {
        return stop;
    };
    if matches!(reason, Reason::Flow | Reason::Reserved) && open.is_unclosed(at) {
        open.stop(open.missing_end())
    } else {
        stop
    }
}

impl Cursor<'_> {
    /// The fault of the collection that starts here, if its end is missing.
    fn missing_end(&self) -> Reason {
        if self.byte() == b'[' {
            Reason::Bracket
        } else {
            Reason::Brace
        }
    }

    /// Whether the collection that starts here has no end, to judge by what is at an offset where it goes wrong: the end of the
    /// text or of another collection, or a line that is indented too little for a part of it.
    fn is_unclosed(&self, at: usize) -> bool {
        let byte = self.byte_at(at);
        let is_foreign = if self.byte() == b'[' {
            byte == b'}'
        } else {
            matches!(byte, b']' | b'[' | b'{')
        };
        byte == END || is_foreign || self.indent_below(at) < self.least_indent()
    }

    /// How many blanks begin the line of an offset, if it is a line below this one; else more than a line can have.
    fn indent_below(&self, at: usize) -> usize {
        let mut indent = usize::MAX;
        let mut is_indent = false;
        for offset in self.at()..at {
            let byte = self.byte_at(offset);
            if byte == b'\n' {
                indent = 0;
                is_indent = true;
            } else if is_indent && is_blank(byte) {
                indent = indent.saturating_add(1);
            } else {
                is_indent = false;
            }
        }
        indent
    }

    /// How far further lines of the collection that starts here are indented at least: as it is where it begins its line, and else
    /// more than what begins its line behind dashes.
    fn least_indent(&self) -> usize {
        let start = self.at().saturating_sub(self.column());
        let mut indent = 0usize;
        for offset in start..self.at() {
            let byte = self.byte_at(offset);
            let is_dash = byte == b'-' && is_blank(self.byte_at(offset.saturating_add(1)));
            if !is_dash && !is_blank(byte) {
                return indent.saturating_add(1);
            }
            indent = indent.saturating_add(1);
        }
        indent
    }
}
