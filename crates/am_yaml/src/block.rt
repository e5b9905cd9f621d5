//! Block collections, and what is in them.
use crate::fault::{Reason, Stop};
use crate::members::{Key, Members};
use crate::parser::{Parser, Properties, depth_at};
use crate::plain::ScalarContext;
use crate::rows::Kind;
use serde_json::Value;

/// What is before a node.
#[derive(Clone, Copy, PartialEq, Eq)]
pub(crate) enum Lead {
    /// The mark that starts a document.
    Start,
    /// A key and its colon.
    Key,
    /// The dash of an item.
    Dash,
}

impl Parser<'_> {
    /// Reads the node behind a lead and its properties, and goes to the next content. Further lines of it begin at
    /// a column of this number at least.
    #[cycle(block)]
    pub(crate) fn node(&mut self, lead: Lead, floor: usize, levels: usize) -> Result<Value, Stop> {
        self.to_node(lead)?;
        let properties = self.properties()?;
        if self.cursor.is_line_done() {
            self.cursor.next_line()?;
            let value = self.value_below(lead, floor, levels, properties)?;
            return self.anchored(properties.anchor, value);
        }
        if lead == Lead::Dash && properties.is_empty() {
            return self.block(floor, levels);
        }
        self.check_properties(properties)?;
        self.path.meet(self.cursor.at());
        let before = self.begin_tagged(properties);
        let value = self.flat(floor, levels)?;
        self.end_value(before);
        self.anchored(properties.anchor, value)
    }

    /// Reads the node on the lines below its lead and its properties. Below a tag there can be nothing.
    #[cycle(block)]
    fn value_below(
        &mut self,
        lead: Lead,
        floor: usize,
        levels: usize,
        properties: Properties<'_>,
    ) -> Result<Value, Stop> {
        let Some(at) = properties.tag else {
            return self.node_below(lead, floor, levels);
        };
        match self.cursor.content_column() {
            Some(column) if column >= floor => Err(Stop::At {
                at,
                reason: Reason::Tag,
            }),
            _ => self.empty_value(properties),
        }
    }

    /// Goes over the blanks behind a lead. Behind a dash a tab could indent.
    fn to_node(&mut self, lead: Lead) -> Result<(), Stop> {
        self.cursor.skip_spaces();
        if lead == Lead::Dash && self.cursor.byte() == b'\t' {
            return Err(self.cursor.stop(Reason::Tab));
        }
        self.cursor.skip_blanks();
        Ok(())
    }

    /// Reads the node on the lines below its lead. The sequence below a key can be indented as the key is.
    #[cycle(block)]
    fn node_below(&mut self, lead: Lead, floor: usize, levels: usize) -> Result<Value, Stop> {
        let Some(column) = self.cursor.content_column() else {
            return self.no_value();
        };
        if column >= floor {
            return self.block(floor, levels);
        }
        let is_item = self.cursor.is_indicator(b'-');
        if lead == Lead::Key && is_item && column.saturating_add(1) == floor {
            self.path.meet(self.cursor.at());
            return self.block_sequence(column, levels);
        }
        self.no_value()
    }

    /// Reads the node that starts here, where a block collection can start.
    #[cycle(block)]
    pub(crate) fn block(&mut self, floor: usize, levels: usize) -> Result<Value, Stop> {
        self.path.meet(self.cursor.at());
        let column = self.cursor.column();
        if self.cursor.is_indicator(b'-') {
            return self.block_sequence(column, levels);
        }
        match self.block_key()? {
            Some(key) => self.block_mapping(column, key, levels),
            None => self.flat(floor, levels),
        }
    }

    /// Reads a sequence whose dashes are in a column.
    #[cycle(block)]
    fn block_sequence(&mut self, column: usize, levels: usize) -> Result<Value, Stop> {
        let Some(below) = levels.checked_sub(1) else {
            return Err(self.cursor.stop(Reason::Depth));
        };
        let mut items = Vec::new(self.alloc);
        for _ in self.cursor.at()..=self.cursor.len() {
            let is_here = self.cursor.content_column() == Some(column);
            if !is_here || !self.cursor.is_indicator(b'-') {
                break;
            }
            let is_entered = self
                .path
                .enter_item(depth_at(levels), items.len(), self.cursor.at());
            self.sign(Kind::Dash)?;
            items.push(self.node(Lead::Dash, column.saturating_add(1), below)?)?;
            self.path.leave(is_entered);
        }
        self.end_block()?;
        Ok(Value::Array(items))
    }

    /// Reads a mapping whose keys are in a column, from behind the first key on.
    #[cycle(block)]
    fn block_mapping(&mut self, column: usize, first: Key, levels: usize) -> Result<Value, Stop> {
        let Some(below) = levels.checked_sub(1) else {
            return Err(self.cursor.stop(Reason::Depth));
        };
        let mut members = Members::new(self.alloc);
        let mut key = first;
        for _ in self.cursor.at()..=self.cursor.len() {
            members.refuse_twice(&key)?;
            let is_entered = self
                .path
                .enter_member(depth_at(levels), key.name.as_str(), key.at);
            let before = self.begin_value(key.name.as_str());
            let value = self.node(Lead::Key, column.saturating_add(1), below)?;
            self.end_value(before);
            self.path.leave(is_entered);
            members.add(key, value)?;
            match self.next_key(column)? {
                Some(next) => key = next,
                None => {
                    self.end_block()?;
                    return members.end();
                }
            }
        }
        Err(self.cursor.stop(Reason::Unexpected))
    }

    /// Notes the end of a collection.
    fn end_block(&mut self) -> Result<(), Stop> {
        let at = self.cursor.at();
        self.rows.add(Kind::End, at, at)
    }

    /// Reads the next key of a mapping whose keys are in a column, if there is one.
    fn next_key(&mut self, column: usize) -> Result<Option<Key>, Stop> {
        if self.cursor.content_column() != Some(column) {
            return Ok(None);
        }
        match self.block_key()? {
            Some(key) => Ok(Some(key)),
            None => Err(self.cursor.stop(Reason::Unexpected)),
        }
    }

    /// Reads a node that is no block collection, and goes to the next content.
    fn flat(&mut self, floor: usize, levels: usize) -> Result<Value, Stop> {
        let value = match self.cursor.byte() {
            b'|' | b'>' => return Ok(Value::String(self.block_scalar(floor)?)),
            b'[' | b'{' => self.flow_node(floor, levels)?,
            b'*' => self.alias(levels)?,
            b'\'' | b'"' => self.quoted_value()?,
            b'&' => return Err(self.cursor.stop(Reason::Anchor)),
            b'!' => return Err(self.cursor.stop(Reason::Tag)),
            _ => self.plain_value(ScalarContext::Block { floor })?,
        };
        self.cursor.end_line()?;
        Ok(value)
    }
}
