//! The pieces of a text, in the order of the text: what the parser leaves for the check of what it read.
ghost use Rattle.std.specs.Prelude.{◌≡◌};

use crate::fault::Stop;
use std::alloc::Global;

/// What a piece is.
#[derive(Clone, Copy, PartialEq, Eq)]
pub(crate) enum Kind {
    Anchor,
    Tag,
    Alias,
    /// A scalar, plain or in quotes.
    Scalar,
    /// A literal or folded block scalar.
    Block,
    /// Nothing is written where a node could be.
    Empty,
    /// A line `---` or `...`.
    Marker,
    Dash,
    /// A key of a mapping.
    Key,
    Bracket,
    Brace,
    Comma,
    /// The end of a flow collection.
    Close,
    /// The end of a block collection, which has no sign.
    End,
    /// How far the block scalar before is indented, and the offset where the line of its signs ends.
    Indent,
}

/// A piece of a text, by the offsets of its first byte and of the one behind its last.
#[derive(Clone, Copy)]
pub(crate) struct Row {
    pub(crate) kind: Kind,
    from: u32,
    to: u32,
}

impl Row {
    pub(crate) fn from(&self) -> usize
        ensures { result ≡ self.now.from }
    {
        self.from as usize
    }

    pub(crate) fn to(&self) -> usize
        ensures { result ≡ self.now.to }
    {
        self.to as usize
    }
}

/// The pieces of a text so far.
#[derive(Drop)]
pub(crate) struct Rows {
    rows: Vec<Row>,
}

impl Rows {
    /// None.
    pub(crate) fn new(alloc: Global) -> Rows {
        Rows {
            rows: Vec::new(alloc),
        }
    }

    pub(crate) fn as_slice(&self) -> &[Row] {
        self.rows.as_slice()
    }

    /// Adds a piece.
    pub(crate) fn add(&mut self, kind: Kind, from: usize, to: usize) -> Result<(), Stop> {
        self.rows.push(Row {
            kind,
            from: u32::try_from(from).unwrap_or(u32::MAX),
            to: u32::try_from(to).unwrap_or(u32::MAX),
        })?;
        Ok(())
    }
}
