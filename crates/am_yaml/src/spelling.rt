//! The check of what was read: the value is built again from the pieces that the parser left, and each step is one of YAML's rules.
ghost use Rattle.std.specs.Prelude.{◌≡◌, ◌+◌, ◌<◌, ◌≤◌, ◌&&◌, true, IfOk, OnOk, Some, None, false, length, map, option_map, slice_index};
ghost use Rattle.std.specs.Prelude.{slice_range, string_bytes};
ghost use Rattle.serde_json.specs.Data.{no_members, object, put as with_member};
ghost use Rattle.serde_json.specs.Find.{get_member};
ghost use Rattle.serde_json.specs.View.{members_view, view};
ghost use Rattle.am_yaml.specs.Behind.{AreFlowItemsBehind, AreFlowMembersBehind, AreItemsBehind, AreMembersBehind, ArePropertiesBehind};
ghost use Rattle.am_yaml.specs.Behind.{IsFlat};
ghost use Rattle.am_yaml.specs.Bytes.{IsGap, IsSign, are_blanks, column_of};
ghost use Rattle.am_yaml.specs.Fields.{merged_in, own_in};
ghost use Rattle.am_yaml.specs.Merges.{Adds, joined as joined_members, merged_with};
ghost use Rattle.am_yaml.specs.Scalars.{are_of_names as are_all_of_names, is_block_sign as is_a_block_sign, is_quote as is_a_quote};
ghost use Rattle.am_yaml.specs.Scalars.{meaning_at as meaning_behind};
ghost use Rattle.am_yaml.specs.Spelling.{AreProperties, HasNoMarker, IsContent, IsBlock, IsBlockEnd, IsDouble, IsEnd, IsEscaped};
ghost use Rattle.am_yaml.specs.Spelling.{IsFlowSign, IsHeader, IsKey, IsMarker, IsName, IsNewName, IsNode, IsPlain};
ghost use Rattle.am_yaml.specs.Spelling.{IsSingle, IsSpelledIn, IsStart, IsTag, IsText, Reaches, anchored, begins_line, can_be_empty};
ghost use Rattle.am_yaml.specs.Spelling.{floor_of as floor_at, in_flow, is_marker, name_in, stops_before};

use crate::block_text::{chomp_in, depth_in, lines_of, signs_in};
use crate::bytes::{both, column_at, is_blank, is_blank_part, is_gap, is_space};
use crate::escapes::unescape;
use crate::fault::{Reason, Stop};
use crate::merges::{MergeFault, add_missing, copy_of, member_of, merge};
use crate::parser::{MAX_DEPTH, Meaning, is_name, meaning_below};
use crate::rows::{Kind, Row};
use crate::scalars::{
    closes, ends_word, is_indented, is_one_line, is_plain, plain_meaning, unfold, unpair,
};
use serde_json::{Map, Value, put};
use std::alloc::Global;

/// Where a node is.
#[derive(Clone, Copy, PartialEq, Eq)]
pub(crate) enum Place {
    /// In a block collection or at the top: at a column of the floor at least, and the dashes of a sequence at one of `dashes`.
    Block { floor: usize, dashes: usize },
    /// An item between brackets, which can't be empty.
    FlowItem,
    /// A value between braces.
    FlowValue,
}

/// What is around a node.
#[derive(Clone, Copy)]
struct Around {
    place: Place,
    meaning: Meaning,
    /// How many levels of collections can be there.
    levels: usize,
}

/// How far a text is confirmed: up to an offset, and which piece comes next.
#[derive(Clone, Copy)]
struct Spot {
    row: usize,
    at: usize,
}

/// What is before a node.
#[derive(Clone, Copy)]
struct Before<'t> {
    /// Whether the tag `!!str` is.
    is_tagged: bool,
    /// The name of its anchor.
    anchor: Option<&'t str>,
}

/// The members of a mapping.
#[derive(Drop)]
struct Fields {
    own: Map<String, Value>,
    /// What the merge key added, if there was one.
    merged: Option<Map<String, Value>>,
}

/// A text and its pieces.
#[derive(Clone, Copy)]
pub(crate) struct Spelling<'t> {
    alloc: Global,
    text: &'t [u8],
    rows: &'t [Row],
}

/// The fault of a text whose pieces don't spell its value.
fn unconfirmed(at: usize) -> Stop {
    Stop::At {
        at,
        reason: Reason::Unconfirmed,
    }
}

/// The value of a text, built from its pieces.
pub(crate) fn spelled(alloc: Global, text: &[u8], rows: &[Row]) -> Result<Value, Stop>
    ensures { IfOk result (λ value. IsSpelledIn text.now (view value)) }
{
    let spelling = Spelling { alloc, text, rows };
    let start = spelling.start()?;
    let around = Around {
        place: Place::Block {
            floor: 0,
            dashes: 0,
        },
        meaning: Meaning::Core,
        levels: MAX_DEPTH,
    };
    let mut anchors = Map::new(alloc);
    let (value, end) = spelling.node(around, &mut anchors, start)?;
    spelling.end(end)?;
    Ok(value)
}

impl<'t> Spelling<'t> {
    /// The next piece.
    fn row(&self, spot: Spot) -> Result<Row, Stop> {
        match self.rows.get(spot.row) {
            Some(row) => Ok(*row),
            None => Err(unconfirmed(spot.at)),
        }
    }

    /// The bytes from one offset to another.
    fn part(&self, from: usize, to: usize) -> Result<&'t [u8], Stop>
        ensures { IfOk result (λ part. (from ≤ to) × (to ≤ length self.now.text.now) × (part.now ≡ slice_range self.now.text.now from to)) }
    {
        match self.text.get(from..to) {
            Some(part) => Ok(part),
            None => Err(unconfirmed(from)),
        }
    }

    fn byte(&self, at: usize) -> u8
        ensures { result ≡ slice_index self.now.text.now at }
    {
        if at < self.text.len() {
            self.text[at]
        } else {
            0
        }
    }

    /// Confirms that only blanks, line ends and comments are from one offset to another.
    fn gap(&self, from: usize, to: usize) -> Result<(), Stop>
        ensures { OnOk result (IsGap self.now.text.now from to) }
    {
        let part = self.part(from, to)?;
        let is_apart = from == 0 || is_space(self.byte(from - 1));
        if is_gap(part, is_apart) {
            Ok(())
        } else {
            Err(unconfirmed(from))
        }
    }

    /// Confirms that this byte is alone at an offset.
    fn sign(&self, byte: u8, at: usize) -> Result<(), Stop>
        ensures { OnOk result (IsSign self.now.text.now byte at) }
    {
        let is_alone = at < self.text.len()
            && (at + 1 == self.text.len() || is_space(self.byte(at + 1)));
        if is_alone && self.byte(at) == byte {
            Ok(())
        } else {
            Err(unconfirmed(at))
        }
    }

    /// Confirms a line `---` or `...` at an offset.
    fn marker(&self, byte: u8, at: usize) -> Result<usize, Stop>
        ensures { IfOk result (λ end. (end ≡ at + 3) × IsMarker self.now.text.now byte at) }
    {
        if at >= self.text.len() || self.text.len() - at < 3 {
            return Err(unconfirmed(at));
        }
        let part = self.part(at, at + 3)?;
        let is_alone = at + 3 == self.text.len() || is_space(self.byte(at + 3));
        if is_alone && part == [byte, byte, byte].as_slice() && column_at(self.text, at) == 0 {
            Ok(at + 3)
        } else {
            Err(unconfirmed(at))
        }
    }

    /// Confirms the start of the document: a line `---`, or nothing.
    fn start(&self) -> Result<Spot, Stop>
        ensures { IfOk result (λ spot. IsStart self.now.text.now spot.at) }
    {
        let row = self.row(Spot { row: 0, at: 0 })?;
        if row.kind != Kind::Marker {
            return Ok(Spot { row: 0, at: 0 });
        }
        let from = row.from();
        self.gap(0, from)?;
        let at = self.marker(b'-', from)?;
        Ok(Spot { row: 1, at })
    }

    /// Confirms the end of the document: a line `...`, or nothing.
    fn end(&self, spot: Spot) -> Result<(), Stop>
        ensures { OnOk result (IsEnd self.now.text.now spot.at) }
    {
        let Some(row) = self.rows.get(spot.row) else {
            return self.gap(spot.at, self.text.len());
        };
        let from = row.from();
        self.gap(spot.at, from)?;
        let at = self.marker(b'.', from)?;
        self.gap(at, self.text.len())
    }

    /// Confirms the anchor and the tag before a node, if they are there.
    fn properties(&self, start: Spot) -> Result<(Before<'t>, Spot), Stop>
        ensures { IfOk result (λ r. AreProperties self.now.text.now start.at r.0.is_tagged (option_map (λ s. s.now) r.0.anchor) r.1.at) }
    {
        let none = Before {
            is_tagged: false,
            anchor: None,
        };
        let (before, spot) = self.property(none, start)?;
        self.property(before, spot)
    }

    /// Confirms an anchor or a tag behind the other, if one is there.
    fn property(&self, before: Before<'t>, spot: Spot) -> Result<(Before<'t>, Spot), Stop>
        ensures { IfOk result (λ r. ArePropertiesBehind self.now.text.now before.entry.is_tagged
            (option_map (λ s. s.now) before.entry.anchor) spot.at
            r.0.is_tagged (option_map (λ s. s.now) r.0.anchor) r.1.at) }
    {
        let row = self.row(spot)?;
        match row.kind {
            Kind::Anchor => self.anchor(before, spot, row),
            Kind::Tag => {
                let (from, to) = (row.from(), row.to());
                self.gap(spot.at, from)?;
                self.tag(from, to)?;
                if before.is_tagged {
                    return Err(unconfirmed(from));
                }
                let now = Before {
                    is_tagged: true,
                    anchor: before.anchor,
                };
                Ok((now, behind(spot, to)))
            }
            _ => Ok((before, spot)),
        }
    }

    /// Confirms an anchor, which is the only one.
    fn anchor(&self, before: Before<'t>, spot: Spot, row: Row) -> Result<(Before<'t>, Spot), Stop>
        ensures { IfOk result (λ r. ArePropertiesBehind self.now.text.now before.entry.is_tagged
            (option_map (λ s. s.now) before.entry.anchor) spot.at
            r.0.is_tagged (option_map (λ s. s.now) r.0.anchor) r.1.at) }
    {
        let (from, to) = (row.from(), row.to());
        self.gap(spot.at, from)?;
        let name = self.name(b'&', from, to)?;
        let None = before.anchor else {
            return Err(unconfirmed(from));
        };
        let now = Before {
            is_tagged: before.is_tagged,
            anchor: Some(name),
        };
        Ok((now, behind(spot, to)))
    }

    /// Confirms that a sign and a name are from one offset to another, and gives the name.
    fn name(&self, sign: u8, from: usize, to: usize) -> Result<&'t str, Stop>
        ensures { IfOk result (λ name. IsName self.now.text.now sign from to × (name.now ≡ name_in self.now.text.now from to)) }
    {
        if from >= self.text.len() || to < from.saturating_add(2) || self.byte(from) != sign {
            return Err(unconfirmed(from));
        }
        let letters = self.part(from + 1, to)?;
        if !are_of_names(letters) || is_name(self.byte(to)) {
            return Err(unconfirmed(from));
        }
        match std::str::from_utf8(letters) {
            Ok(name) => Ok(name),
            Err(_) => Err(unconfirmed(from)),
        }
    }

    /// Confirms that the tag `!!str` is from one offset to another, and a space or the text's end behind it.
    fn tag(&self, from: usize, to: usize) -> Result<(), Stop>
        ensures { OnOk result (IsTag self.now.text.now from to) }
    {
        let part = self.part(from, to)?;
        if part == [b'!', b'!', b's', b't', b'r'].as_slice() && ends_word(self.byte(to)) {
            Ok(())
        } else {
            Err(unconfirmed(from))
        }
    }

    /// The text of a scalar from one offset to another, plain or in quotes.
    fn text(&self, is_flow: bool, floor: usize, from: usize, to: usize) -> Result<String, Stop>
        ensures { IfOk result (λ s. IsText self.now.text.now is_flow floor from to (string_bytes s)) }
    {
        self.no_marker(from, to)?;
        match self.byte(from) {
            b'\'' => self.single(from, to),
            b'"' => self.double(from, to),
            _ => self.plain(is_flow, floor, from, to),
        }
    }

    /// Confirms that no line of a part of the text begins with `---` or `...`.
    fn no_marker(&self, from: usize, to: usize) -> Result<(), Stop>
        ensures { OnOk result (HasNoMarker self.now.text.now from to) }
    {
        let part = self.part(from, to)?;
        for at in from..from + part.len() {
            if self.is_line_marker(at) {
                return Err(unconfirmed(at));
            }
        }
        Ok(())
    }

    /// Whether a line begins at an offset with `---` or `...`.
    fn is_line_marker(&self, at: usize) -> bool
        requires { at < length self.now.text.now }
        ensures { result ≡ (begins_line self.now.text.now at && is_marker self.now.text.now at) }
    {
        let begins = at == 0 || self.byte(at - 1) == b'\n';
        begins && self.is_marker(at)
    }

    fn is_marker(&self, at: usize) -> bool
        requires { at < length self.now.text.now }
        ensures { result ≡ is_marker self.now.text.now at }
    {
        let byte = self.byte(at);
        if byte != b'-' && byte != b'.' {
            return false;
        }
        self.byte(at + 1) == byte && self.byte(at + 2) == byte && ends_word(self.byte(at + 3))
    }

    /// The text of a plain scalar.
    fn plain(&self, is_flow: bool, floor: usize, from: usize, to: usize) -> Result<String, Stop>
        ensures { IfOk result (λ s. IsPlain self.now.text.now is_flow floor from to (string_bytes s)) }
    {
        let part = self.part(from, to)?;
        if !is_plain(is_flow, self.byte(to), part) || !is_indented(floor, part) {
            return Err(unconfirmed(from));
        }
        string_of(unfold(self.alloc, part)?, from)
    }

    /// The text of a scalar in single quotes.
    fn single(&self, from: usize, to: usize) -> Result<String, Stop>
        ensures { IfOk result (λ s. IsSingle self.now.text.now from to (string_bytes s)) }
    {
        if to < from.saturating_add(2) || self.byte(from) != b'\'' || self.byte(to - 1) != b'\'' {
            return Err(unconfirmed(from));
        }
        let inner = self.part(from + 1, to - 1)?;
        match unpair(self.alloc, inner)? {
            Some(lines) => string_of(unfold(self.alloc, lines.as_slice())?, from),
            None => Err(unconfirmed(from)),
        }
    }

    /// The text of a scalar in double quotes: that of JSON, if it is one there.
    fn double(&self, from: usize, to: usize) -> Result<String, Stop>
        ensures { IfOk result (λ s. IsDouble self.now.text.now from to (string_bytes s)) }
    {
        let part = self.part(from, to)?;
        if self.byte(from) != b'"' {
            return Err(unconfirmed(from));
        }
        match Value::from_slice(self.alloc, part) {
            Ok(Value::String(text)) => Ok(text),
            Ok(_) => Err(unconfirmed(from)),
            Err(fault) => {
                if fault.is_memory() {
                    return Err(Stop::NoMemory);
                }
                self.escaped(from, to)
            }
        }
    }

    /// The text of a scalar in double quotes that isn't JSON's.
    fn escaped(&self, from: usize, to: usize) -> Result<String, Stop>
        ensures { IfOk result (λ s. IsEscaped self.now.text.now from to (string_bytes s)) }
    {
        let part = self.part(from, to)?;
        if part.len() < 2 || !closes(&part[1..]) {
            return Err(unconfirmed(from));
        }
        match unescape(self.alloc, self.part(from + 1, to - 1)?)? {
            Some(text) => string_of(text, from),
            None => Err(unconfirmed(from)),
        }
    }

    /// Confirms a node and its properties, gives its value, and names it by its anchor.
    #[cycle(spelled)]
    fn node(
        &self,
        around: Around,
        anchors: &mut Map<String, Value>,
        start: Spot,
    ) -> Result<(Value, Spot), Stop>
        ensures { IfOk result (λ r. IsNode self.now.text.now around.place around.meaning start.at (members_view anchors.old.entries)
            (view r.0) r.1.at (members_view anchors.new.entries)) }
    {
        let (before, spot) = self.properties(start)?;
        let (value, next) = self.content(around, before.is_tagged, anchors, spot)?;
        self.name_value(anchors, before.anchor, &value, spot.at)?;
        Ok((value, next))
    }

    /// Keeps a value by its name, if it has one, which no other value has.
    fn name_value(
        &self,
        anchors: &mut Map<String, Value>,
        name: Option<&str>,
        value: &Value,
        at: usize,
    ) -> Result<(), Stop>
        ensures kept { OnOk result (members_view anchors.new.entries ≡ anchored (option_map (λ s. s.now) name.entry) (view value.now)
            (members_view anchors.old.entries)) }
        ensures is_new { OnOk result (IsNewName (option_map (λ s. s.now) name.entry) (members_view anchors.old.entries)) }
    {
        let Some(name) = name else {
            return Ok(());
        };
        self.add(anchors, name, value.clone()?, at)
    }

    /// Puts in a member, whose name no other has.
    fn add(
        &self,
        members: &mut Map<String, Value>,
        name: &str,
        value: Value,
        at: usize,
    ) -> Result<(), Stop>
        ensures kept { OnOk result (members_view members.new.entries
            ≡ with_member name.now (view value) (members_view members.old.entries)) }
        ensures is_new { OnOk result (get_member name.now (members_view members.old.entries) ≡ None) }
    {
        match member_of(members, name) {
            Some(_) => Err(unconfirmed(at)),
            None => {
                put(members, self.alloc, name, value)?;
                Ok(())
            }
        }
    }

    /// Confirms what is written of a node behind its properties, and gives its value.
    #[cycle(spelled)]
    fn content(
        &self,
        around: Around,
        is_tagged: bool,
        anchors: &mut Map<String, Value>,
        spot: Spot,
    ) -> Result<(Value, Spot), Stop>
        ensures { IfOk result (λ r. IsContent self.now.text.now around.place around.meaning is_tagged spot.at
            (members_view anchors.old.entries)
            (view r.0) r.1.at (members_view anchors.new.entries)) }
    {
        let row = self.row(spot)?;
        match row.kind {
            Kind::Empty => self.empty(around, is_tagged, spot),
            Kind::Scalar => self.scalar(around, is_tagged, spot, row),
            Kind::Block => self.block_scalar(around, is_tagged, spot, row),
            _ => {
                if is_tagged {
                    return Err(unconfirmed(spot.at));
                }
                self.untagged(around, anchors, spot, row)
            }
        }
    }

    /// Confirms an alias or a collection, and gives its value.
    #[cycle(spelled)]
    fn untagged(
        &self,
        around: Around,
        anchors: &mut Map<String, Value>,
        spot: Spot,
        row: Row,
    ) -> Result<(Value, Spot), Stop>
        ensures { IfOk result (λ r. IsContent self.now.text.now around.place around.meaning false spot.at (members_view anchors.old.entries)
            (view r.0) r.1.at (members_view anchors.new.entries)) }
    {
        match row.kind {
            Kind::Alias => self.alias(around, anchors, spot, row),
            Kind::Dash => self.sequence(around, anchors, spot),
            Kind::Key => self.mapping(around, anchors, spot),
            Kind::Bracket => self.flow_sequence(around, anchors, spot, row),
            Kind::Brace => self.flow_mapping(around, anchors, spot, row),
            _ => Err(unconfirmed(spot.at)),
        }
    }

    /// The value of a node of which nothing is written.
    fn empty(&self, around: Around, is_tagged: bool, spot: Spot) -> Result<(Value, Spot), Stop>
        ensures { IfOk result (λ r. IsFlat self.now.text.now around.place around.meaning is_tagged spot.at (view r.0) r.1.at) }
    {
        let next = Spot {
            row: spot.row.saturating_add(1),
            at: spot.at,
        };
        if is_tagged {
            return Ok((Value::String(String::new(self.alloc)), next));
        }
        if allows_nothing(around.place) {
            Ok((Value::Null, next))
        } else {
            Err(unconfirmed(spot.at))
        }
    }

    /// Confirms that what begins at an offset, behind a gap, is in a column that the place allows.
    fn reach(&self, place: Place, from: usize, to: usize) -> Result<(), Stop>
        ensures { OnOk result (Reaches self.now.text.now place from to) }
    {
        self.gap(from, to)?;
        match place {
            Place::Block { floor, dashes: _ } if column_at(self.text, to) < floor => Err(
                unconfirmed(to),
            ),
            _ => Ok(()),
        }
    }

    /// The value of a scalar, plain or in quotes.
    fn scalar(
        &self,
        around: Around,
        is_tagged: bool,
        spot: Spot,
        row: Row,
    ) -> Result<(Value, Spot), Stop>
        ensures { IfOk result (λ r. IsFlat self.now.text.now around.place around.meaning is_tagged spot.at (view r.0) r.1.at) }
    {
        let (from, to) = (row.from(), row.to());
        self.reach(around.place, spot.at, from)?;
        let text = self.text(is_flow(around.place), floor_of(around.place), from, to)?;
        let next = Spot {
            row: spot.row.saturating_add(1),
            at: to,
        };
        if is_quote(self.byte(from)) {
            return Ok((Value::String(text), next));
        }
        match plain_meaning(meaning_at(is_tagged, around.meaning), text) {
            Some(value) => Ok((value, next)),
            None => Err(unconfirmed(from)),
        }
    }

    /// The value of a block scalar.
    fn block_scalar(
        &self,
        around: Around,
        is_tagged: bool,
        spot: Spot,
        row: Row,
    ) -> Result<(Value, Spot), Stop>
        ensures { IfOk result (λ r. IsFlat self.now.text.now around.place around.meaning is_tagged spot.at (view r.0) r.1.at) }
    {
        let (from, to) = (row.from(), row.to());
        self.reach(around.place, spot.at, from)?;
        if is_flow(around.place) {
            return Err(unconfirmed(from));
        }
        let text = self.block_text(floor_of(around.place), from, to, spot)?;
        let next = Spot {
            row: spot.row.saturating_add(2),
            at: to,
        };
        Ok((Value::String(text), next))
    }

    /// The text of a block scalar from one offset to another, whose second piece is behind a spot.
    fn block_text(&self, floor: usize, from: usize, to: usize, spot: Spot) -> Result<String, Stop>
        ensures { IfOk result (λ s. IsBlock self.now.text.now floor from to (string_bytes s)) }
    {
        let layout = self.row(Spot {
            row: spot.row.saturating_add(1),
            at: from,
        })?;
        let (indent, line) = (layout.from(), layout.to());
        self.block_header(from, line)?;
        if indent == 0 || indent < floor || !is_indented(indent, self.part(from, to)?) {
            return Err(unconfirmed(from));
        }
        self.block_end(indent, to)?;
        let is_folded = self.byte(from) == b'>';
        let (first, second) = (self.byte(from + 1), self.byte(from + 2));
        let lines = lines_of(self.alloc, is_folded, indent, self.part(line, to)?)?;
        if !lines.is_indent(depth_in(first, second), floor, indent) {
            return Err(unconfirmed(from));
        }
        string_of(lines.end(chomp_in(first, second))?, from)
    }

    /// Confirms the sign of a block scalar and those behind it, up to where their line ends.
    fn block_header(&self, from: usize, line: usize) -> Result<(), Stop>
        ensures { OnOk result ((from < length self.now.text.now) × IsHeader self.now.text.now from line) }
    {
        if from >= self.text.len() || !is_block_sign(self.byte(from)) {
            return Err(unconfirmed(from));
        }
        let signs = signs_in(self.byte(from + 1), self.byte(from.saturating_add(2)));
        self.gap(from.saturating_add(1).saturating_add(signs), line)?;
        let ends = line == self.text.len() || self.byte(line) == b'\n';
        if ends && is_one_line(self.part(from, line)?) {
            Ok(())
        } else {
            Err(unconfirmed(from))
        }
    }

    /// Confirms that the lines of a block scalar end at an offset.
    fn block_end(&self, indent: usize, to: usize) -> Result<(), Stop>
        ensures { OnOk result (IsBlockEnd self.now.text.now indent to) }
    {
        let stop = self.behind_blanks(to);
        let blanks = self.part(to, stop)?;
        if is_blank_part(blanks) && (to == self.text.len() || self.stops(indent, stop)) {
            Ok(())
        } else {
            Err(unconfirmed(to))
        }
    }

    /// Whether a line that isn't empty begins at an offset with less than an indentation, or the text ends there.
    fn stops(&self, indent: usize, stop: usize) -> bool
        requires { stop ≤ length self.now.text.now }
        ensures { result ≡ stops_before self.now.text.now indent stop }
    {
        let byte = self.byte(stop);
        let column = column_at(self.text, stop);
        let is_end = stop == self.text.len() && column == indent;
        byte != b'\n' && byte != b' ' && (column < indent || is_end)
    }

    /// The offset behind the blanks at an offset.
    fn behind_blanks(&self, from: usize) -> usize {
        let mut at = from;
        for _ in from..self.text.len() {
            if !is_blank(self.byte(at)) {
                break;
            }
            at = at.saturating_add(1);
        }
        at
    }

    /// The value of an alias, which is that of its name.
    fn alias(
        &self,
        around: Around,
        anchors: &Map<String, Value>,
        spot: Spot,
        row: Row,
    ) -> Result<(Value, Spot), Stop>
        ensures { IfOk result (λ r. IsContent self.now.text.now around.place around.meaning false spot.at (members_view anchors.now.entries)
            (view r.0) r.1.at (members_view anchors.now.entries)) }
    {
        let (from, to) = (row.from(), row.to());
        self.reach(around.place, spot.at, from)?;
        let name = self.name(b'*', from, to)?;
        match copy_of(anchors, name)? {
            Some(value) => Ok((value, behind(spot, to))),
            None => Err(unconfirmed(from)),
        }
    }

    /// The value of a sequence whose dashes are in one column.
    #[cycle(spelled)]
    fn sequence(
        &self,
        around: Around,
        anchors: &mut Map<String, Value>,
        start: Spot,
    ) -> Result<(Value, Spot), Stop>
        ensures { IfOk result (λ r. IsContent self.now.text.now around.place around.meaning false start.at
            (members_view anchors.old.entries)
            (view r.0) r.1.at (members_view anchors.new.entries)) }
    {
        let Place::Block { floor: _, dashes } = around.place else {
            return Err(unconfirmed(start.at));
        };
        let below = self.below(around, start.at)?;
        let column = self.first_column(dashes, start)?;
        let mut items = Vec::new(self.alloc);
        let mut spot = start;
        for _ in 0..self.rows.len() {
            let row = self.row(spot)?;
            if row.kind == Kind::End {
                let end = self.behind_end(start.at, spot)?;
                return Ok((Value::Array(items), end));
            }
            spot = self.item(column, below, &mut items, anchors, spot)?;
        }
        Err(unconfirmed(spot.at))
    }

    /// Confirms the next item of a sequence, and adds it.
    #[cycle(spelled)]
    fn item(
        &self,
        column: usize,
        below: Around,
        items: &mut Vec<Value>,
        anchors: &mut Map<String, Value>,
        spot: Spot,
    ) -> Result<Spot, Stop>
        requires { column < length self.now.text.now }
        ensures { IfOk result (λ next. AreItemsBehind self.now.text.now below.meaning column spot.at (members_view anchors.old.entries)
            (map view items.old.items) (map view items.new.items) next.at (members_view anchors.new.entries)) }
    {
        let row = self.row(spot)?;
        let from = row.from();
        self.gap(spot.at, from)?;
        self.sign(b'-', from)?;
        self.in_column(column, from)?;
        let around = Around {
            place: Place::Block {
                floor: column + 1,
                dashes: column + 1,
            },
            meaning: below.meaning,
            levels: below.levels,
        };
        let behind = Spot {
            row: spot.row.saturating_add(1),
            at: from + 1,
        };
        let (value, next) = self.node(around, anchors, behind)?;
        items.push(value)?;
        Ok(next)
    }

    /// What is around the nodes in a collection, if it may have any.
    fn below(&self, around: Around, at: usize) -> Result<Around, Stop>
        ensures { IfOk result (λ below. (below.levels + 1 ≡ around.levels) × (below.meaning ≡ around.meaning)) }
    {
        match around.levels.checked_sub(1) {
            Some(levels) => Ok(Around {
                place: around.place,
                meaning: around.meaning,
                levels,
            }),
            None => Err(unconfirmed(at)),
        }
    }

    /// The column of the next piece, which is at least this number.
    fn first_column(&self, least: usize, start: Spot) -> Result<usize, Stop>
        ensures { IfOk result (λ column. (least ≤ column) × (column < length self.now.text.now)) }
    {
        let first = self.row(start)?;
        let column = self.column(first.from())?;
        if column < least || column >= self.text.len() {
            return Err(unconfirmed(start.at));
        }
        Ok(column)
    }

    /// The spot behind the end of a block collection.
    fn behind_end(&self, start: usize, spot: Spot) -> Result<Spot, Stop>
        ensures { IfOk result (λ next. (next.at ≡ spot.at) × (start < spot.at)) }
    {
        let row = self.row(spot)?;
        if row.kind != Kind::End || spot.at <= start {
            return Err(unconfirmed(spot.at));
        }
        Ok(Spot {
            row: spot.row.saturating_add(1),
            at: spot.at,
        })
    }

    /// The column of an offset within the text.
    fn column(&self, at: usize) -> Result<usize, Stop>
        ensures { IfOk result (λ column. (column ≡ column_of self.now.text.now at) × (at < length self.now.text.now)) }
    {
        if at < self.text.len() {
            Ok(column_at(self.text, at))
        } else {
            Err(unconfirmed(at))
        }
    }

    /// Confirms that an offset is in a column.
    fn in_column(&self, column: usize, at: usize) -> Result<(), Stop>
        ensures { OnOk result (column_of self.now.text.now at ≡ column) }
    {
        if self.column(at)? == column {
            Ok(())
        } else {
            Err(unconfirmed(at))
        }
    }

    /// Confirms a key and its colon, and gives its text, whether it is `<<`, and the spot behind the colon.
    fn key(
        &self,
        is_flow: bool,
        next: usize,
        from: usize,
        to: usize,
    ) -> Result<(String, bool, Spot), Stop>
        ensures { IfOk result (λ r. IsKey self.now.text.now is_flow from (string_bytes r.0) r.1 r.2.at) }
    {
        let name = self.text(is_flow, 0, from, to)?;
        if !is_one_line(self.part(from, to)?) {
            return Err(unconfirmed(from));
        }
        let is_quoted = is_quote(self.byte(from));
        let colon = self.colon(to)?;
        if !(is_quoted && is_flow) && !ends_word(self.byte(colon + 1)) {
            return Err(unconfirmed(colon));
        }
        let is_merge = !is_quoted && name.as_str() == "<<";
        Ok((
            name,
            is_merge,
            Spot {
                row: next,
                at: colon + 1,
            },
        ))
    }

    /// The offset of the colon behind blanks.
    fn colon(&self, from: usize) -> Result<usize, Stop>
        ensures { IfOk result (λ at. (from ≤ at) × (at < length self.now.text.now) × (slice_index self.now.text.now at ≡ 58)
            × (are_blanks (slice_range self.now.text.now from at) ≡ true)) }
    {
        let at = self.behind_blanks(from);
        if at < self.text.len() && self.byte(at) == b':' && is_blank_part(self.part(from, at)?) {
            Ok(at)
        } else {
            Err(unconfirmed(at))
        }
    }

    /// The value of a mapping whose keys are in one column.
    #[cycle(spelled)]
    fn mapping(
        &self,
        around: Around,
        anchors: &mut Map<String, Value>,
        start: Spot,
    ) -> Result<(Value, Spot), Stop>
        ensures { IfOk result (λ r. IsContent self.now.text.now around.place around.meaning false start.at
            (members_view anchors.old.entries)
            (view r.0) r.1.at (members_view anchors.new.entries)) }
    {
        let Place::Block { floor, dashes: _ } = around.place else {
            return Err(unconfirmed(start.at));
        };
        let below = self.below(around, start.at)?;
        let column = self.first_column(floor, start)?;
        let mut fields = Fields {
            own: Map::new(self.alloc),
            merged: None,
        };
        let mut spot = start;
        for _ in 0..self.rows.len() {
            let row = self.row(spot)?;
            if row.kind == Kind::End {
                let end = self.behind_end(start.at, spot)?;
                return Ok((self.joined(fields)?, end));
            }
            spot = self.member(column, below, &mut fields, anchors, spot)?;
        }
        Err(unconfirmed(spot.at))
    }

    /// Confirms the next member of a mapping, and puts it in.
    #[cycle(spelled)]
    fn member(
        &self,
        column: usize,
        below: Around,
        fields: &mut Fields,
        anchors: &mut Map<String, Value>,
        spot: Spot,
    ) -> Result<Spot, Stop>
        requires { column < length self.now.text.now }
        ensures { IfOk result (λ next. AreMembersBehind self.now.text.now below.meaning column spot.at (members_view anchors.old.entries)
            (own_in fields.old) (merged_in fields.old) (own_in fields.new) (merged_in fields.new)
            next.at (members_view anchors.new.entries)) }
    {
        let row = self.row(spot)?;
        let (from, to) = (row.from(), row.to());
        self.gap(spot.at, from)?;
        self.in_column(column, from)?;
        let (name, is_merge, behind) = self.key(false, spot.row.saturating_add(1), from, to)?;
        let key = name.as_str();
        let around = Around {
            place: Place::Block {
                floor: column + 1,
                dashes: column,
            },
            meaning: meaning_below(below.meaning, key),
            levels: below.levels,
        };
        let (value, next) = self.node(around, anchors, behind)?;
        self.put_in(fields, key, is_merge, value, from)?;
        Ok(next)
    }

    /// Puts in the value of a key at an offset: a member whose name no other has, or what the only merge key adds.
    fn put_in(
        &self,
        fields: &mut Fields,
        name: &str,
        is_merge: bool,
        value: Value,
        at: usize,
    ) -> Result<(), Stop>
        ensures { OnOk result (Adds name.now (view value) is_merge (own_in fields.old) (merged_in fields.old)
            (own_in fields.new) (merged_in fields.new)) }
    {
        if !is_merge {
            self.add(&mut fields.own, name, value, at)?;
            return Ok(());
        }
        if fields.merged.is_some() {
            return Err(unconfirmed(at));
        }
        fields.merged = Some(self.merged(&value, at)?);
        Ok(())
    }

    /// What a merge key at an offset adds.
    fn merged(&self, value: &Value, at: usize) -> Result<Map<String, Value>, Stop>
        ensures { IfOk result (λ merged. merged_with no_members (view value.now) ≡ Some (members_view merged.entries)) }
    {
        let mut merged = Map::new(self.alloc);
        match merge(self.alloc, &mut merged, value) {
            Ok(()) => Ok(merged),
            Err(MergeFault::Kind) => Err(unconfirmed(at)),
            Err(MergeFault::NoMemory) => Err(Stop::NoMemory),
        }
    }

    /// The mapping of its own members and those that were merged.
    fn joined(&self, fields: Fields) -> Result<Value, Stop>
        ensures { IfOk result (λ value. view value ≡ object (joined_members (own_in fields) (merged_in fields))) }
    {
        let Fields { mut own, merged } = fields;
        match merged {
            Some(merged) => {
                add_missing(self.alloc, &mut own, &merged)?;
                Ok(Value::Object(own))
            }
            None => Ok(Value::Object(own)),
        }
    }

    /// The value of a sequence in brackets.
    #[cycle(spelled)]
    fn flow_sequence(
        &self,
        around: Around,
        anchors: &mut Map<String, Value>,
        start: Spot,
        first: Row,
    ) -> Result<(Value, Spot), Stop>
        ensures { IfOk result (λ r. IsContent self.now.text.now around.place around.meaning false start.at
            (members_view anchors.old.entries)
            (view r.0) r.1.at (members_view anchors.new.entries)) }
    {
        let below = self.below(around, start.at)?;
        let opening = first.from();
        self.reach(around.place, start.at, opening)?;
        self.flow_sign(b'[', opening)?;
        let mut items = Vec::new(self.alloc);
        let mut is_ready = true;
        let mut spot = Spot {
            row: start.row.saturating_add(1),
            at: opening + 1,
        };
        for _ in 0..self.rows.len() {
            let row = self.row(spot)?;
            if row.kind == Kind::Close {
                let end = self.next_sign(b']', spot)?;
                return Ok((Value::Array(items), end));
            }
            spot = self.flow_item(below, is_ready, &mut items, anchors, spot)?;
            is_ready = !is_ready;
        }
        Err(unconfirmed(spot.at))
    }

    /// Confirms the next item between brackets and adds it, or a comma.
    #[cycle(spelled)]
    fn flow_item(
        &self,
        below: Around,
        is_ready: bool,
        items: &mut Vec<Value>,
        anchors: &mut Map<String, Value>,
        spot: Spot,
    ) -> Result<Spot, Stop>
        ensures { IfOk result (λ next. AreFlowItemsBehind self.now.text.now below.meaning is_ready spot.at
            (members_view anchors.old.entries)
            (map view items.old.items) (map view items.new.items) next.at (members_view anchors.new.entries)) }
    {
        if !is_ready {
            return self.next_sign(b',', spot);
        }
        let around = Around {
            place: Place::FlowItem,
            meaning: below.meaning,
            levels: below.levels,
        };
        let (value, next) = self.node(around, anchors, spot)?;
        items.push(value)?;
        Ok(next)
    }

    /// Confirms a comma, or the sign that closes a flow collection, and gives the spot behind it.
    fn next_sign(&self, byte: u8, spot: Spot) -> Result<Spot, Stop>
        ensures { IfOk result (λ next. IsFlowSign self.now.text.now byte spot.at next.at) }
    {
        let row = self.row(spot)?;
        let from = row.from();
        self.gap(spot.at, from)?;
        self.flow_sign(byte, from)?;
        Ok(Spot {
            row: spot.row.saturating_add(1),
            at: from + 1,
        })
    }

    /// Confirms that this byte is at an offset.
    fn flow_sign(&self, byte: u8, at: usize) -> Result<(), Stop>
        ensures { OnOk result ((at < length self.now.text.now) × (slice_index self.now.text.now at ≡ byte)) }
    {
        if at < self.text.len() && self.byte(at) == byte {
            Ok(())
        } else {
            Err(unconfirmed(at))
        }
    }

    /// The value of a mapping in braces.
    #[cycle(spelled)]
    fn flow_mapping(
        &self,
        around: Around,
        anchors: &mut Map<String, Value>,
        start: Spot,
        first: Row,
    ) -> Result<(Value, Spot), Stop>
        ensures { IfOk result (λ r. IsContent self.now.text.now around.place around.meaning false start.at
            (members_view anchors.old.entries)
            (view r.0) r.1.at (members_view anchors.new.entries)) }
    {
        let below = self.below(around, start.at)?;
        let opening = first.from();
        self.reach(around.place, start.at, opening)?;
        self.flow_sign(b'{', opening)?;
        let mut fields = Fields {
            own: Map::new(self.alloc),
            merged: None,
        };
        let mut is_ready = true;
        let mut spot = Spot {
            row: start.row.saturating_add(1),
            at: opening + 1,
        };
        for _ in 0..self.rows.len() {
            let row = self.row(spot)?;
            if row.kind == Kind::Close {
                let end = self.next_sign(b'}', spot)?;
                return Ok((self.joined(fields)?, end));
            }
            spot = self.flow_member(below, is_ready, &mut fields, anchors, spot)?;
            is_ready = !is_ready;
        }
        Err(unconfirmed(spot.at))
    }

    /// Confirms the next member between braces and puts it in, or a comma.
    #[cycle(spelled)]
    fn flow_member(
        &self,
        below: Around,
        is_ready: bool,
        fields: &mut Fields,
        anchors: &mut Map<String, Value>,
        spot: Spot,
    ) -> Result<Spot, Stop>
        ensures { IfOk result (λ next. AreFlowMembersBehind self.now.text.now below.meaning is_ready spot.at
            (members_view anchors.old.entries)
            (own_in fields.old) (merged_in fields.old) (own_in fields.new) (merged_in fields.new)
            next.at (members_view anchors.new.entries)) }
    {
        if !is_ready {
            return self.next_sign(b',', spot);
        }
        let row = self.row(spot)?;
        let (from, to) = (row.from(), row.to());
        self.gap(spot.at, from)?;
        let (name, is_merge, behind) = self.key(true, spot.row.saturating_add(1), from, to)?;
        let key = name.as_str();
        let around = Around {
            place: Place::FlowValue,
            meaning: meaning_below(below.meaning, key),
            levels: below.levels,
        };
        let (value, next) = self.node(around, anchors, behind)?;
        self.put_in(fields, key, is_merge, value, from)?;
        Ok(next)
    }
}

/// The spot behind the next piece, which ends at an offset.
fn behind(spot: Spot, at: usize) -> Spot
    ensures { result.at ≡ at }
{
    Spot {
        row: spot.row.saturating_add(1),
        at,
    }
}

fn is_flow(place: Place) -> bool
    ensures { result ≡ in_flow place }
{
    match place {
        Place::Block {
            floor: _,
            dashes: _,
        } => false,
        Place::FlowItem | Place::FlowValue => true,
    }
}

/// Whether nothing can be written of a node at a place.
fn allows_nothing(place: Place) -> bool
    ensures { result ≡ can_be_empty place }
{
    match place {
        Place::Block {
            floor: _,
            dashes: _,
        }
        | Place::FlowValue => true,
        Place::FlowItem => false,
    }
}

fn floor_of(place: Place) -> usize
    ensures { result ≡ floor_at place }
{
    match place {
        Place::Block { floor, dashes: _ } => floor,
        Place::FlowItem | Place::FlowValue => 0,
    }
}

fn is_block_sign(byte: u8) -> bool
    ensures { result ≡ is_a_block_sign byte }
{
    byte == b'|' || byte == b'>'
}

/// What a plain scalar means behind a tag or none.
fn meaning_at(is_tagged: bool, meaning: Meaning) -> Meaning
    ensures { result ≡ meaning_behind is_tagged meaning }
{
    if is_tagged { Meaning::Tagged } else { meaning }
}

fn is_quote(byte: u8) -> bool
    ensures { result ≡ is_a_quote byte }
{
    byte == b'\'' || byte == b'"'
}

fn are_of_names(bytes: &[u8]) -> bool
    ensures { result ≡ are_all_of_names bytes.now }
{
    let mut all = true;
    for byte in bytes {
        all = both(all, is_name(*byte));
    }
    all
}

pub(crate) fn string_of(bytes: Vec<u8>, at: usize) -> Result<String, Stop>
    ensures { IfOk result (λ text. string_bytes text ≡ bytes.items) }
{
    match String::from_utf8(bytes) {
        Ok(text) => Ok(text),
        Err(_) => Err(unconfirmed(at)),
    }
}
