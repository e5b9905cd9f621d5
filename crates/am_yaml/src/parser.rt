//! What the readers of nodes share.
ghost use Rattle.std.specs.Prelude.{◌≡◌};
ghost use Rattle.am_yaml.specs.Scalars.{is_of_names, meaning_below as meaning_in, meaning_of as meaning_at};

use crate::anchors::Anchors;
use crate::cursor::{Cursor, is_gap};
use crate::fault::{Reason, Stop};
use crate::members::{Key, Members};
use crate::path::{Path, Step};
use crate::plain::ScalarContext;
use crate::resolve::{resolve, resolve_flag};
use crate::rows::{Kind, Rows};
use serde_json::Value;
use std::alloc::Global;

/// How deep collections may lie.
pub const MAX_DEPTH: usize = 100;

/// The fields whose values Alertmanager reads as texts, whatever they look like.
const TEXTS: [&str; 2] = ["match", "match_re"];

/// The fields whose values are flags, which YAML 1.1 also writes `yes`, `no`, `on` and `off`. Alertmanager has a field `html`
/// too, which is a text of one integration and a flag of another: it isn't among them.
const FLAGS: [&str; 14] = [
    "send_resolved",
    "continue",
    "smtp_require_tls",
    "smtp_force_implicit_tls",
    "require_tls",
    "force_implicit_tls",
    "follow_redirects",
    "enable_http2",
    "insecure_skip_verify",
    "proxy_from_environment",
    "short_fields",
    "link_names",
    "update_alerts",
    "disable_notifications",
];

/// The fields that have a value for each name, as a name of a label. There a name that a flag has too means none.
const NAMES: [&str; 3] = ["labels", "firing", "resolved"];

/// What plain scalars mean where they are.
#[derive(Clone, Copy, PartialEq, Eq)]
pub(crate) enum Meaning {
    /// What they mean in YAML's core schema.
    Core,
    /// The same, and `yes` is a flag.
    Flag,
    /// The same, also below the names of flags.
    Named,
    /// The texts that are written, but null.
    Texts,
    /// The text that is written.
    Tagged,
}

/// Returns how many collections lie round one below which so many levels can be, itself the first.
pub(crate) fn depth_at(levels: usize) -> usize {
    MAX_DEPTH.saturating_sub(levels)
}

/// The location that is read, and what was read of anchors.
#[derive(Drop)]
pub(crate) struct Parser<'t> {
    pub(crate) alloc: Global,
    pub(crate) cursor: Cursor<'t>,
    pub(crate) anchors: Anchors,
    pub(crate) path: Path<'t>,
    /// The pieces that were read.
    pub(crate) rows: Rows,
    /// The start of the innermost flow collection that isn't read to its end.
    pub(crate) open: Option<Cursor<'t>>,
    meaning: Meaning,
    /// Whether a key can be twice between braces, as in JSON.
    may_repeat: bool,
}

/// An anchor's name and its offset.
#[derive(Clone, Copy)]
pub(crate) struct Anchor<'t> {
    at: usize,
    name: &'t str,
}

/// What is before a node.
#[derive(Clone, Copy)]
pub(crate) struct Properties<'t> {
    pub(crate) anchor: Option<Anchor<'t>>,
    /// The offset of the tag `!!str`.
    pub(crate) tag: Option<usize>,
}

impl Properties<'_> {
    /// Whether there are none.
    pub(crate) fn is_empty(&self) -> bool {
        self.anchor.is_none() && self.tag.is_none()
    }
}

/// What the scalars in the value of a key mean, which is in no value whose texts count.
fn meaning_of(key: &str) -> Meaning
    ensures { result ≡ meaning_at key.now }
{
    if TEXTS.contains(&key) {
        Meaning::Texts
    } else if FLAGS.contains(&key) {
        Meaning::Flag
    } else if NAMES.contains(&key) {
        Meaning::Named
    } else {
        Meaning::Core
    }
}

/// What the scalars in the value of a key mean, in a value where they mean this.
pub(crate) fn meaning_below(around: Meaning, key: &str) -> Meaning
    ensures { result ≡ meaning_in around key.now }
{
    match around {
        Meaning::Core | Meaning::Flag => meaning_of(key),
        other => other,
    }
}

/// Whether a name of an anchor may have this byte. Readers differ on others.
pub(crate) fn is_name(byte: u8) -> bool
    ensures { result ≡ is_of_names byte }
{
    byte.is_ascii_alphanumeric() || byte == b'_' || byte == b'-'
}

impl<'t> Parser<'t> {
    /// Returns a reader at the start of a text, which notes how far these steps lead.
    pub(crate) fn new(alloc: Global, text: &'t str, steps: &'t [Step]) -> Parser<'t> {
        Parser {
            alloc,
            cursor: Cursor::new(text),
            anchors: Anchors::new(alloc),
            path: Path::new(steps),
            rows: Rows::new(alloc),
            open: None,
            meaning: Meaning::Core,
            may_repeat: false,
        }
    }

    /// Allows a key twice between braces, as in JSON. The last one counts.
    pub(crate) fn let_repeat(&mut self) {
        self.may_repeat = true;
    }

    /// Refuses a key between braces that is there already, if it mustn't be.
    pub(crate) fn refuse_repeated(&self, members: &Members, key: &Key) -> Result<(), Stop> {
        if self.may_repeat {
            return Ok(());
        }
        members.refuse_twice(key)
    }

    /// Notes what the scalars in the value of a key mean, and returns what they meant before.
    pub(crate) fn begin_value(&mut self, key: &str) -> Meaning {
        let before = self.meaning;
        self.meaning = meaning_below(before, key);
        before
    }

    /// Goes on as it was before a value.
    pub(crate) fn end_value(&mut self, before: Meaning) {
        self.meaning = before;
    }

    /// Reads the name behind `&` or `*`, which ends before a gap or, in a flow collection, before one of its
    /// signs.
    pub(crate) fn name(&mut self, reason: Reason) -> Result<&'t str, Stop> {
        let start = self.cursor.at().saturating_add(1);
        self.cursor.step();
        for _ in start..self.cursor.len() {
            if !is_name(self.cursor.byte()) {
                break;
            }
            self.cursor.step();
        }
        if self.cursor.at() <= start {
            return Err(self.cursor.stop(reason));
        }
        self.cursor.slice(start, self.cursor.at())
    }

    /// Reads an anchor and the tag `!!str`, in any order, if they are there, and the blanks behind them. Another tag is
    /// refused.
    pub(crate) fn properties(&mut self) -> Result<Properties<'t>, Stop> {
        let tag = self.tag()?;
        let anchor = self.anchor()?;
        let tag = match tag {
            None => self.tag()?,
            Some(tag) => Some(tag),
        };
        Ok(Properties { anchor, tag })
    }

    /// Reads the tag `!!str`, if a tag is here, and the blanks behind it.
    fn tag(&mut self) -> Result<Option<usize>, Stop> {
        let at = self.cursor.at();
        if self.cursor.byte() != b'!' {
            return Ok(None);
        }
        for byte in b"!!str" {
            if self.cursor.byte() != *byte {
                return Err(Stop::At {
                    at,
                    reason: Reason::Tag,
                });
            }
            self.cursor.step();
        }
        if !is_gap(self.cursor.byte()) {
            return Err(Stop::At {
                at,
                reason: Reason::Tag,
            });
        }
        self.rows.add(Kind::Tag, at, self.cursor.at())?;
        self.cursor.skip_blanks();
        Ok(Some(at))
    }

    /// Reads an anchor, if there is one, and the blanks behind it.
    fn anchor(&mut self) -> Result<Option<Anchor<'t>>, Stop> {
        let at = self.cursor.at();
        if self.cursor.byte() != b'&' {
            return Ok(None);
        }
        let name = self.name(Reason::Anchor)?;
        if !is_gap(self.cursor.byte()) {
            return Err(self.cursor.stop(Reason::Anchor));
        }
        self.rows.add(Kind::Anchor, at, self.cursor.at())?;
        self.cursor.skip_blanks();
        Ok(Some(Anchor { at, name }))
    }

    /// Refuses an alias that has properties, and a collection that has a tag.
    pub(crate) fn check_properties(&self, properties: Properties<'_>) -> Result<(), Stop> {
        let byte = self.cursor.byte();
        if let Some(at) = properties.tag {
            if matches!(byte, b'[' | b'{' | b'*' | b'&') {
                return Err(Stop::At {
                    at,
                    reason: Reason::Tag,
                });
            }
        }
        if properties.anchor.is_some() && byte == b'*' {
            return Err(self.cursor.stop(Reason::Anchor));
        }
        Ok(())
    }

    /// Notes that the next scalar is the text that is written, if it has a tag, and returns what it meant before.
    pub(crate) fn begin_tagged(&mut self, properties: Properties<'_>) -> Meaning {
        let before = self.meaning;
        if properties.tag.is_some() {
            self.meaning = Meaning::Tagged;
        }
        before
    }

    /// Keeps a value under its anchor, if it has one.
    pub(crate) fn anchored(
        &mut self,
        anchor: Option<Anchor<'t>>,
        value: Value,
    ) -> Result<Value, Stop> {
        if let Some(anchor) = anchor {
            self.anchors.define(anchor.name, anchor.at, &value)?;
        }
        Ok(value)
    }

    /// A copy of what an alias names, which may have so many levels.
    pub(crate) fn alias(&mut self, levels: usize) -> Result<Value, Stop> {
        let at = self.cursor.at();
        let name = self.name(Reason::Alias)?;
        self.rows.add(Kind::Alias, at, self.cursor.at())?;
        let wants_texts = self.meaning == Meaning::Texts;
        self.anchors.copy(name, at, levels, wants_texts)
    }

    /// Reads a plain scalar, and says what it means. Where texts are wanted only null isn't its own text, and behind a tag
    /// not even that.
    pub(crate) fn plain_value(&mut self, context: ScalarContext) -> Result<Value, Stop> {
        let at = self.cursor.at();
        let text = self.plain(context)?;
        self.rows.add(Kind::Scalar, at, self.cursor.at())?;
        let resolved = match self.meaning {
            Meaning::Tagged => return Ok(Value::String(text)),
            Meaning::Flag => resolve_flag(text.as_str()),
            Meaning::Core | Meaning::Named | Meaning::Texts => resolve(text.as_str()),
        };
        let wants_texts = self.meaning == Meaning::Texts;
        match resolved {
            Ok(Some(Value::Null)) => Ok(Value::Null),
            Ok(Some(value)) if !wants_texts => Ok(value),
            Err(reason) if !wants_texts => Err(Stop::At { at, reason }),
            _ => Ok(Value::String(text)),
        }
    }

    /// The value of a node of which nothing is written but its properties.
    pub(crate) fn empty_value(&mut self, properties: Properties<'_>) -> Result<Value, Stop> {
        let none = self.no_value()?;
        if properties.tag.is_some() {
            Ok(Value::String(String::new(self.alloc)))
        } else {
            Ok(none)
        }
    }

    /// The value of a node of which nothing is written.
    pub(crate) fn no_value(&mut self) -> Result<Value, Stop> {
        let at = self.cursor.at();
        self.rows.add(Kind::Empty, at, at)?;
        Ok(Value::Null)
    }

    /// Reads a scalar in quotes where a value is.
    pub(crate) fn quoted_value(&mut self) -> Result<Value, Stop> {
        let at = self.cursor.at();
        let text = self.quoted()?;
        self.rows.add(Kind::Scalar, at, self.cursor.at())?;
        Ok(Value::String(text))
    }

    /// Goes over one byte, which is a piece of this kind.
    pub(crate) fn sign(&mut self, kind: Kind) -> Result<(), Stop> {
        let at = self.cursor.at();
        self.cursor.step();
        self.rows.add(kind, at, self.cursor.at())
    }
}
