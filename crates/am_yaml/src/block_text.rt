//! The text of a block scalar, by its bytes.
ghost use Rattle.std.specs.Prelude.{◌≡◌, ◌++◌, IfOk, OnOk};
ghost use Rattle.am_yaml.specs.Blocks.{between as between_lines, chomp_in as chomp_among, depth_in as depth_among};
ghost use Rattle.am_yaml.specs.Blocks.{is_chomp as is_a_chomp, is_depth as is_a_depth, is_indent_by, lines_after};
ghost use Rattle.am_yaml.specs.Blocks.{lines_of as lines_of_bytes, lines_with, part_of, place_after, signs_in as signs_among, text_of};
ghost use Rattle.am_yaml.specs.BlockLines.{lines_in};

use crate::bytes::is_blank;
use std::alloc::{AllocError, Global};

/// Where the next byte of a block scalar is.
#[derive(Clone, Copy, PartialEq, Eq)]
pub(crate) enum InBlock {
    /// In the line of its signs.
    Header,
    /// Behind so many spaces of an indentation.
    Indent(usize),
    /// In the text of a line.
    Text,
}

/// What a byte of a block scalar is.
#[derive(Clone, Copy, PartialEq, Eq)]
pub(crate) enum Part {
    /// No part of its text.
    Aside,
    /// The first byte of a line's text.
    First,
    /// A further one.
    Further,
    LineEnd,
}

impl InBlock {
    fn after(self, indent: usize, byte: u8) -> InBlock
        ensures { result ≡ place_after indent self byte }
    {
        match self {
            InBlock::Header => {
                if byte == b'\n' {
                    InBlock::Indent(0)
                } else {
                    InBlock::Header
                }
            }
            InBlock::Indent(count) => {
                if byte == b'\n' {
                    InBlock::Indent(0)
                } else if count < indent {
                    InBlock::Indent(count + 1)
                } else {
                    InBlock::Text
                }
            }
            InBlock::Text => {
                if byte == b'\n' {
                    InBlock::Indent(0)
                } else {
                    InBlock::Text
                }
            }
        }
    }

    fn part(self, indent: usize, byte: u8) -> Part
        ensures { result ≡ part_of indent self byte }
    {
        match self {
            InBlock::Header => Part::Aside,
            InBlock::Indent(count) => {
                if byte == b'\n' {
                    Part::LineEnd
                } else if count < indent {
                    Part::Aside
                } else {
                    Part::First
                }
            }
            InBlock::Text => {
                if byte == b'\n' {
                    Part::LineEnd
                } else {
                    Part::Further
                }
            }
        }
    }
}

/// The text of a block scalar as far as it was read.
#[derive(Drop)]
pub(crate) struct BlockText {
    place: InBlock,
    text: Vec<u8>,
    /// The ends of lines behind it.
    ends: Vec<u8>,
    /// Whether a line had text.
    has_text: bool,
    /// Whether the last such line begins with a blank.
    is_spaced: bool,
    /// Whether the first one does.
    is_first_spaced: bool,
}

/// Adds what is between two lines.
fn add_between(text: &mut Vec<u8>, folds: bool, ends: &[u8]) -> Result<(), AllocError>
    ensures { OnOk result (text.new.items ≡ text.old.items ++ between_lines folds ends.now) }
{
    if !folds {
        text.extend_from_slice(ends)
    } else if ends.len() > 1 {
        text.extend_from_slice(&ends[1..])
    } else {
        text.push(b' ')?;
        Ok(())
    }
}

impl BlockText {
    /// Adds a byte.
    fn add(&mut self, is_folded: bool, indent: usize, byte: u8) -> Result<(), AllocError>
        ensures { OnOk result (lines_in self.new ≡ lines_after is_folded indent (lines_in self.old) byte) }
    {
        let place = self.place;
        self.place = place.after(indent, byte);
        self.add_part(is_folded, place.part(indent, byte), byte)
    }

    fn add_part(&mut self, is_folded: bool, part: Part, byte: u8) -> Result<(), AllocError>
        ensures { OnOk result (lines_in self.new ≡ lines_with is_folded (lines_in self.old) self.old.place part byte) }
    {
        match part {
            Part::Aside => Ok(()),
            Part::First => self.begin_line(is_folded, byte),
            Part::Further => {
                self.text.push(byte)?;
                Ok(())
            }
            Part::LineEnd => {
                self.ends.push(b'\n')?;
                Ok(())
            }
        }
    }

    /// Adds the first byte of a line's text.
    fn begin_line(&mut self, is_folded: bool, byte: u8) -> Result<(), AllocError>
        ensures { OnOk result (lines_in self.new ≡ lines_with is_folded (lines_in self.old) self.old.place Part.First byte) }
    {
        let is_spaced = is_blank(byte);
        let folds = is_folded && self.has_text && !self.is_spaced && !is_spaced;
        add_between(&mut self.text, folds, self.ends.as_slice())?;
        self.text.push(byte)?;
        self.ends.clear();
        if !self.has_text {
            self.is_first_spaced = is_spaced;
        }
        self.has_text = true;
        self.is_spaced = is_spaced;
        Ok(())
    }

    /// Returns the text, with the ends of the last lines that are of it by a sign.
    pub(crate) fn end(self, sign: u8) -> Result<Vec<u8>, AllocError>
        ensures { IfOk result (λ text. text.items ≡ text_of sign (lines_in self)) }
    {
        let BlockText {
            place: _,
            mut text,
            ends,
            has_text,
            is_spaced: _,
            is_first_spaced: _,
        } = self;
        if sign == b'+' {
            text.extend_from_slice(ends.as_slice())?;
        } else if sign != b'-' && has_text && !ends.is_empty() {
            text.push(b'\n')?;
        }
        Ok(text)
    }

    /// Whether lines are indented so far, by a digit of the signs or by the first line with text.
    pub(crate) fn is_indent(&self, digit: u8, floor: usize, indent: usize) -> bool
        ensures { result ≡ is_indent_by digit floor indent (lines_in self.now) }
    {
        if digit == 0 {
            !self.is_first_spaced
        } else {
            let depth = usize::from(digit.saturating_sub(48));
            floor.saturating_sub(1).checked_add(depth) == Some(indent)
        }
    }
}

/// Returns the lines of a block scalar.
pub(crate) fn lines_of(
    alloc: Global,
    is_folded: bool,
    indent: usize,
    bytes: &[u8],
) -> Result<BlockText, AllocError>
    ensures { IfOk result (λ block. lines_in block ≡ lines_of_bytes is_folded indent bytes.now) }
{
    let mut block = BlockText {
        place: InBlock::Header,
        text: Vec::new(alloc),
        ends: Vec::new(alloc),
        has_text: false,
        is_spaced: false,
        is_first_spaced: false,
    };
    for byte in bytes {
        block.add(is_folded, indent, *byte)?;
    }
    Ok(block)
}

fn is_chomp(byte: u8) -> bool
    ensures { result ≡ is_a_chomp byte }
{
    byte == b'+' || byte == b'-'
}

fn is_depth(byte: u8) -> bool
    ensures { result ≡ is_a_depth byte }
{
    49 <= byte && byte <= 57
}

/// How many signs are behind `|` or `>`, by the next two bytes.
pub(crate) fn signs_in(first: u8, second: u8) -> usize
    ensures { result ≡ signs_among first second }
{
    if is_chomp(first) {
        if is_depth(second) { 2 } else { 1 }
    } else if is_depth(first) {
        if is_chomp(second) { 2 } else { 1 }
    } else {
        0
    }
}

/// The sign that says which ends of the last lines count, or 0.
pub(crate) fn chomp_in(first: u8, second: u8) -> u8
    ensures { result ≡ chomp_among first second }
{
    if is_chomp(first) {
        first
    } else if is_depth(first) && is_chomp(second) {
        second
    } else {
        0
    }
}

/// The digit that says how far lines are indented, or 0.
pub(crate) fn depth_in(first: u8, second: u8) -> u8
    ensures { result ≡ depth_among first second }
{
    if is_depth(first) {
        first
    } else if is_chomp(first) && is_depth(second) {
        second
    } else {
        0
    }
}
