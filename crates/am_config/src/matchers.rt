//! Matchers of an `alertmanager.yml`.
ghost use Rattle.std.specs.Prelude.{◌≡◌, ◌++◌, ℕ, [], List, IfOk, IsTrue, OnOk, map, string_bytes};
ghost use Rattle.serde_json.specs.View.{members_view, view};
ghost use Rattle.am_alerts.specs.declared.matcher.Operator.{Operator};
ghost use Rattle.am_json.specs.Decoding.{IsObject};
ghost use Rattle.am_json.specs.Translated.{IsTranslated};
ghost use Rattle.am_config.specs.Collects.{Adds, Collects};
ghost use Rattle.am_config.specs.Matchers.{AreInArray, AreInText, AreMatchers, ArePairs, IsPair, IsTranslatedText, at_comma, fields_of};
ghost use Rattle.am_config.specs.Matchers.{matchers_in, unbraced, unless_empty, with_front, without_first};
ghost use Rattle.std.specs.Str.{trim};
ghost use Rattle.am_config.specs.Said.{SaysOr};

use crate::collected::keep;
use crate::optional::non_null;
use crate::scalar::matched_text_of;
use am_alerts::limits::MAX_MATCHERS;
use am_alerts::matcher::{Matcher, MatcherFault, MatcherParts, Operator};
use am_alerts::text::Text;
use am_json::fault::{FaultKind, InputFault};
use am_json::faults::Faults;
use am_json::matcher_text::parts_of_text;
use am_json::reader::{Object, Reader};
use am_json::translated::translated_matcher;
use serde_json::Value;
use std::alloc::{AllocError, Global};

/// The members that hold the matchers of a route, or of one side of an inhibition rule.
#[derive(Clone, Copy)]
pub(crate) struct MatcherMembers {
    /// An object of texts that labels equal.
    pub(crate) equal: &'static str,
    /// An object of patterns.
    pub(crate) like: &'static str,
    /// An array of texts, each of which holds matchers.
    pub(crate) texts: &'static str,
}

/// Reads all matchers. One that is behind the thirty-second is refused, and ends its member.
pub(crate) fn read_matchers(
    faults: &mut Faults,
    object: &Object<'_, '_>,
    members: &MatcherMembers,
) -> Result<Vec<Matcher>, InputFault>
    ensures { IfOk result (λ matchers. Collects faults.old faults.new
        (AreMatchers (fields_of members.now) (members_view object.now.members) matchers.items)) }
{
    let mut matchers = Vec::new(object.alloc());
    read_pairs(
        faults,
        object,
        members.equal,
        Operator::Equal,
        &mut matchers,
    )?;
    read_pairs(faults, object, members.like, Operator::Like, &mut matchers)?;
    read_texts(faults, object, members.texts, &mut matchers)?;
    Ok(matchers)
}

/// Adds the matchers of an object with a value for each name.
fn read_pairs(
    faults: &mut Faults,
    object: &Object<'_, '_>,
    name: &str,
    op: Operator,
    matchers: &mut Vec<Matcher>,
) -> Result<(), InputFault>
    ensures { OnOk result (Collects faults.old faults.new (Adds matchers.old.items matchers.new.items
        (SaysOr (IsObject (ArePairs op)) [] name.now (members_view object.now.members)))) }
{
    let Some(member) = non_null(object, name) else {
        return Ok(());
    };
    let Some(pairs) = keep(faults, member.object())? else {
        return Ok(());
    };
    for (label, value) in pairs.members().iter() {
        let reader = pairs.member(label.as_str(), value);
        if !has_capacity(faults, matchers, &reader)? {
            return Ok(());
        }
        let read = matcher_of_pair(&reader, label.as_str(), op, value);
        let Some(matcher) = keep(faults, read)? else {
            continue;
        };
        matchers.push(matcher)?;
    }
    Ok(())
}

/// Adds the matchers of an array of texts.
fn read_texts(
    faults: &mut Faults,
    object: &Object<'_, '_>,
    name: &str,
    matchers: &mut Vec<Matcher>,
) -> Result<(), InputFault>
    ensures { OnOk result (Collects faults.old faults.new (Adds matchers.old.items matchers.new.items
        (SaysOr AreInArray [] name.now (members_view object.now.members)))) }
{
    let Some(member) = non_null(object, name) else {
        return Ok(());
    };
    let Some(items) = keep(faults, member.array())? else {
        return Ok(());
    };
    for (index, value) in items.iter().enumerate() {
        if !read_text(faults, &member.item(index, value), matchers)? {
            return Ok(());
        }
    }
    Ok(())
}

/// Adds the matchers of one text; answers whether there was capacity for them.
fn read_text(
    faults: &mut Faults,
    item: &Reader<'_, '_>,
    matchers: &mut Vec<Matcher>,
) -> Result<bool, InputFault>
    ensures { IfOk result (λ has_capacity. Collects faults.old faults.new
        (IsTrue has_capacity × Adds matchers.old.items matchers.new.items (AreInText (view item.now.value)))) }
{
    let Some(text) = keep(faults, item.text())? else {
        return Ok(true);
    };
    let texts = split(item.alloc(), text)?;
    let all = texts.as_slice();
    for written in all {
        if !has_capacity(faults, matchers, item)? {
            return Ok(false);
        }
        let Some(matcher) = keep(faults, matcher_of_text(item, written.as_str()))? else {
            continue;
        };
        matchers.push(matcher)?;
    }
    Ok(true)
}

/// Whether there can be another matcher, which is rejected where there can't be.
fn has_capacity(
    faults: &mut Faults,
    matchers: &[Matcher],
    reader: &Reader<'_, '_>,
) -> Result<bool, InputFault>
    ensures { IfOk result (λ has_capacity. Collects faults.old faults.new (IsTrue has_capacity)) }
{
    if matchers.len() < MAX_MATCHERS {
        return Ok(true);
    }
    faults.push(reader.refuse(FaultKind::BadValue))?;
    Ok(false)
}

fn matcher_of_pair(
    reader: &Reader<'_, '_>,
    name: &str,
    op: Operator,
    value: &Value,
) -> Result<Matcher, InputFault>
    ensures { IfOk result (IsPair op name.now (view value.now)) }
{
    let parts = MatcherParts {
        name: Text::new(reader.alloc(), name)?,
        op,
        value: matched_text_of(reader, value)?,
    };
    matcher_of(reader, parts)
}

fn matcher_of_text(reader: &Reader<'_, '_>, written: &str) -> Result<Matcher, InputFault>
    ensures { IfOk result (IsTranslatedText written.now) }
{
    match parts_of_text(reader.alloc(), written)? {
        None => Err(reader.refuse(FaultKind::BadValue)),
        Some(parts) => matcher_of(reader, parts),
    }
}

/// The matcher of these parts, whose pattern is Go's.
fn matcher_of(reader: &Reader<'_, '_>, parts: MatcherParts) -> Result<Matcher, InputFault>
    ensures { IfOk result (IsTranslated parts) }
{
    match translated_matcher(reader.alloc(), parts) {
        Ok(matcher) => Ok(matcher),
        Err(MatcherFault::NoMemory) => Err(InputFault::NoMemory),
        Err(_) => Err(reader.refuse(FaultKind::BadValue)),
    }
}

/// The texts of single matchers in one text: it can be in braces, and a comma outside quotes ends a
/// matcher. One can be behind the last.
fn split(alloc: Global, text: &str) -> Result<Vec<String>, AllocError>
    ensures { IfOk result (λ texts. map string_bytes texts.items ≡ matchers_in text.now) }
{
    let mut ended = Vec::new(alloc);
    let mut begun = String::new(alloc);
    let mut quoting = Quoting {
        is_open: false,
        is_escaped: false,
    };
    let mut rest = without_braces(text);
    while let Some((before, behind)) = rest.split_once(',') {
        begun.push_str(before)?;
        quoting = quoting.behind(before);
        end_piece(alloc, &mut ended, &mut begun, quoting.is_open)?;
        rest = behind;
    }
    begun.push_str(rest)?;
    push_last(alloc, &mut ended, begun.as_str())?;
    Ok(ended)
}

/// Adds the last piece without the blanks around it. Only blanks are none.
fn push_last(alloc: Global, ended: &mut Vec<String>, piece: &str) -> Result<(), AllocError>
    ensures { OnOk result (map string_bytes ended.new.items ≡ map string_bytes ended.old.items ++ unless_empty (trim piece.now)) }
{
    let last = piece.trim();
    if last.is_empty() {
        return Ok(());
    }
    ended.push(String::from_str(alloc, last)?)?;
    Ok(())
}

/// A text without the braces around it, of which each can be missing.
fn without_braces(text: &str) -> &str
    ensures { result.now ≡ unbraced text.now }
{
    let inner = without_opening(text);
    match inner.strip_suffix('}') {
        None => inner,
        Some(closed) => closed,
    }
}

fn without_opening(text: &str) -> &str
    ensures { result.now ≡ without_first 123 text.now }
{
    match text.strip_prefix('{') {
        None => text,
        Some(inner) => inner,
    }
}

/// Ends a piece at a comma, or adds the comma to it where quotes are open.
fn end_piece(
    alloc: Global,
    ended: &mut Vec<String>,
    begun: &mut String,
    is_open: bool,
) -> Result<(), AllocError>
    ensures { OnOk result ((next : List (List ℕ))
        → map string_bytes ended.old.items ++ with_front (string_bytes begun.old) (at_comma is_open next)
        ≡ map string_bytes ended.new.items ++ with_front (string_bytes begun.new) next) }
{
    if is_open {
        return begun.push(',');
    }
    let piece = std::mem::replace(begun, String::new(alloc));
    ended.push(piece)?;
    Ok(())
}

/// Whether quotes are open in a text of matchers.
#[derive(Clone, Copy)]
struct Quoting {
    is_open: bool,
    /// Whether a backslash keeps the next quote from opening or closing them.
    is_escaped: bool,
}

impl Quoting {
    ghost use Rattle.std.specs.Prelude.{◌≡◌};
    ghost use Rattle.am_config.specs.Matchers.{quoting_after, quoting_behind};

    /// What it is behind a text.
    fn behind(self, text: &str) -> Quoting
        ensures { result ≡ quoting_after self text.now }
    {
        let bytes = text.as_bytes();
        let mut quoting = self;
        for byte in bytes {
            quoting = quoting.behind_byte(*byte);
        }
        quoting
    }

    fn behind_byte(self, byte: u8) -> Quoting
        ensures { result ≡ quoting_behind self byte }
    {
        let Quoting {
            is_open,
            is_escaped,
        } = self;
        match byte {
            b'\\' => Quoting {
                is_open,
                is_escaped: !is_escaped,
            },
            b'"' if !is_escaped => Quoting {
                is_open: !is_open,
                is_escaped: false,
            },
            _ => Quoting {
                is_open,
                is_escaped: false,
            },
        }
    }
}
