//! Flow collections: what is between brackets or braces.
use crate::cursor::{Cursor, END, is_blank, is_flow};
use crate::fault::{Reason, Stop};
use crate::members::{Key, Members};
use crate::parser::{Parser, depth_at};
use crate::plain::ScalarContext;
use crate::rows::Kind;
use serde_json::Value;

impl Cursor<'_> {
    /// Goes over blanks, the ends of lines and comments.
    fn skip_flow_gap(&mut self) -> Result<(), Stop> {
        let mut is_apart = false;
        for _ in self.at()..=self.len() {
            is_apart = is_apart || is_blank(self.byte());
            self.skip_blanks();
            if self.byte() == b'#' && is_apart {
                self.skip_line();
            }
            if self.byte() != b'\n' {
                break;
            }
            self.step();
            is_apart = true;
            if self.is_marker() {
                return Err(self.stop(Reason::Flow));
            }
        }
        Ok(())
    }
}

impl Parser<'_> {
    /// Reads a node between brackets, and its properties.
    #[cycle(flow)]
    pub(crate) fn flow_node(&mut self, floor: usize, levels: usize) -> Result<Value, Stop> {
        self.path.meet(self.cursor.at());
        let properties = self.properties()?;
        self.check_properties(properties)?;
        if properties.tag.is_some() && is_flow(self.cursor.byte()) {
            let value = self.empty_value(properties)?;
            return self.anchored(properties.anchor, value);
        }
        let before = self.begin_tagged(properties);
        let value = self.flow_content(floor, levels)?;
        self.end_value(before);
        self.anchored(properties.anchor, value)
    }

    /// Reads a node between brackets behind its properties.
    #[cycle(flow)]
    fn flow_content(&mut self, floor: usize, levels: usize) -> Result<Value, Stop> {
        match self.cursor.byte() {
            b'[' => self.flow_sequence(floor, levels),
            b'{' => self.flow_mapping(floor, levels),
            b'*' => self.alias(levels),
            b'\'' | b'"' => self.quoted_value(),
            END => Err(self.cursor.stop(Reason::Flow)),
            _ => self.plain_value(ScalarContext::Flow { floor }),
        }
    }

    /// Reads a sequence in brackets.
    #[cycle(flow)]
    fn flow_sequence(&mut self, floor: usize, levels: usize) -> Result<Value, Stop> {
        let Some(below) = levels.checked_sub(1) else {
            return Err(self.cursor.stop(Reason::Depth));
        };
        let outer = self.open;
        self.open = Some(self.cursor);
        let mut items = Vec::new(self.alloc);
        self.sign(Kind::Bracket)?;
        for _ in self.cursor.at()..=self.cursor.len() {
            self.cursor.skip_flow_gap()?;
            if self.cursor.byte() == b']' {
                self.sign(Kind::Close)?;
                self.open = outer;
                return Ok(Value::Array(items));
            }
            let is_entered = self
                .path
                .enter_item(depth_at(levels), items.len(), self.cursor.at());
            items.push(self.flow_node(floor, below)?)?;
            self.path.leave(is_entered);
            self.flow_separator(b']')?;
        }
        Err(self.cursor.stop(Reason::Flow))
    }

    /// Reads a mapping in braces.
    #[cycle(flow)]
    fn flow_mapping(&mut self, floor: usize, levels: usize) -> Result<Value, Stop> {
        let Some(below) = levels.checked_sub(1) else {
            return Err(self.cursor.stop(Reason::Depth));
        };
        let outer = self.open;
        self.open = Some(self.cursor);
        let mut members = Members::new(self.alloc);
        self.sign(Kind::Brace)?;
        for _ in self.cursor.at()..=self.cursor.len() {
            self.cursor.skip_flow_gap()?;
            if self.cursor.byte() == b'}' {
                self.sign(Kind::Close)?;
                self.open = outer;
                return members.end();
            }
            let key = self.flow_key(floor)?;
            self.refuse_repeated(&members, &key)?;
            let is_entered = self
                .path
                .enter_member(depth_at(levels), key.name.as_str(), key.at);
            let before = self.begin_value(key.name.as_str());
            let value = self.flow_value(floor, below)?;
            self.end_value(before);
            self.path.leave(is_entered);
            members.add(key, value)?;
            self.flow_separator(b'}')?;
        }
        Err(self.cursor.stop(Reason::Flow))
    }

    /// Reads what is behind a key between braces, which can be nothing.
    #[cycle(flow)]
    fn flow_value(&mut self, floor: usize, levels: usize) -> Result<Value, Stop> {
        self.cursor.skip_flow_gap()?;
        match self.cursor.byte() {
            b',' | b'}' => self.no_value(),
            _ => self.flow_node(floor, levels),
        }
    }

    /// Reads a key between braces, and its colon.
    fn flow_key(&mut self, floor: usize) -> Result<Key, Stop> {
        let start = self.cursor;
        let is_quoted = start.is_quote();
        let key = self.key_text(ScalarContext::Flow { floor })?;
        self.cursor.skip_blanks();
        let is_colon = self.cursor.byte() == b':';
        if !is_colon || !(is_quoted || self.cursor.is_indicator(b':')) {
            return Err(self.cursor.stop(Reason::Flow));
        }
        self.refuse_key(start, &key)?;
        self.rows.add(Kind::Key, key.at, key.to)?;
        self.cursor.step();
        Ok(key)
    }

    /// Reads the comma behind an item, or stays before the end.
    fn flow_separator(&mut self, end: u8) -> Result<(), Stop> {
        self.cursor.skip_flow_gap()?;
        let byte = self.cursor.byte();
        if byte == b',' {
            self.sign(Kind::Comma)
        } else if byte == end {
            Ok(())
        } else {
            Err(self.cursor.stop(Reason::Flow))
        }
    }
}
