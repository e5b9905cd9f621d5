//! What the bytes of a scalar mean.
ghost use Rattle.std.specs.Prelude.{◌≡◌, ◌&&◌, ◌++◌, ◌<◌, ◌≤◌, Some, IfOk, IfSome, OnOk, drop, fold, nat_lt, pos, slice_index};
ghost use Rattle.std.specs.Prelude.{slice_index_or, string_bytes};
ghost use Rattle.std.specs.Char.{digit_value};
ghost use Rattle.std.specs.Float.{binary64};
ghost use Rattle.std.specs.Float.Ieee.{of_int};
ghost use Rattle.std.specs.Float.Parse.{completes_number, float_scan_step, without_sign};
ghost use Rattle.std.specs.Str.Parse.{digits_value, without_leading_plus};
ghost use Rattle.serde_json.specs.Find.{of_float};
ghost use Rattle.serde_json.specs.View.{number_view, view};
ghost use Rattle.am_yaml.specs.Scalars.{IsCore, IsMeant, can_begin as can_begin_plain, can_end, can_follow as can_follow_in_plain};
ghost use Rattle.am_yaml.specs.Scalars.{closes as closes_at_end, double_after, ends_after, ends_word as ends_a_word, folded};
ghost use Rattle.am_yaml.specs.Scalars.{found_after, has_radix, is_indented as is_an_indented, is_number as is_a_number};
ghost use Rattle.am_yaml.specs.Scalars.{is_one_line as is_on_one_line, is_plain as is_a_plain, is_reserved as is_a_reserved};
ghost use Rattle.am_yaml.specs.Scalars.{is_whole as is_a_whole, line_after, no_pairs, no_words, number_of, pairs_after, pending_after};
ghost use Rattle.am_yaml.specs.Scalars.{plain_after, quote_after, says_false, says_null, says_true, words_after};
ghost use Rattle.am_yaml.specs.Scalars.{is_false_word, is_no_word, is_off_word, is_on_word, is_true_word, is_yes_word};
ghost use Rattle.am_yaml.specs.Escapes.{settled, skipped, with_character};
ghost use Rattle.am_yaml.specs.Folding.{words_of};

use crate::bytes::{both, is_sign_in_flow, is_space};
use crate::parser::Meaning;
use serde_json::{Number, Value};
use std::alloc::{AllocError, Global};
use std::num::nearest_u64_to_f64;

fn is_reserved(byte: u8) -> bool
    ensures { result ≡ is_a_reserved byte }
{
    byte == b'#'
        || byte == b'&'
        || byte == b'*'
        || byte == b'!'
        || byte == b'|'
        || byte == b'>'
        || byte == b'\''
        || byte == b'"'
        || byte == b'%'
        || byte == b'@'
        || byte == b'`'
}

/// Whether the byte ends a word. (Behind the end of a text, 0 is read.)
pub(crate) fn ends_word(byte: u8) -> bool
    ensures { result ≡ ends_a_word byte }
{
    is_space(byte) || byte == 0
}

fn can_begin(flow: bool, byte: u8, next: u8) -> bool
    ensures { result ≡ can_begin_plain flow byte next }
{
    if byte == b'-' {
        !ends_word(next) && !(flow && is_sign_in_flow(next))
    } else if byte == b'?' || byte == b':' {
        !flow && !ends_word(next)
    } else {
        !is_reserved(byte) && !is_sign_in_flow(byte) && !ends_word(byte)
    }
}

fn can_follow(flow: bool, before: u8, byte: u8) -> bool
    ensures { result ≡ can_follow_in_plain flow before byte }
{
    !(before == b':' && (is_space(byte) || (flow && is_sign_in_flow(byte))))
        && !(is_space(before) && byte == b'#')
        && !(flow && (is_sign_in_flow(byte) || byte == b'?'))
}

/// The last byte of a plain scalar behind one more byte, if each byte of it can be there.
fn plain_behind(flow: bool, last: Option<u8>, byte: u8) -> Option<u8>
    ensures { result ≡ plain_after flow last byte }
{
    match last {
        None => None,
        Some(before) => {
            if can_follow(flow, before, byte) {
                Some(byte)
            } else {
                None
            }
        }
    }
}

fn goes_on(flow: bool, next: u8, bytes: &[u8]) -> bool
    ensures { result ≡ can_end flow next (fold (plain_after flow) (Some 0) bytes.now) }
{
    let mut last = Some(0u8);
    for byte in bytes {
        last = plain_behind(flow, last, *byte);
    }
    match last {
        None => false,
        Some(last) => {
            !is_space(last)
                && !(last == b':' && (ends_word(next) || (flow && is_sign_in_flow(next))))
        }
    }
}

pub(crate) fn byte_at(bytes: &[u8], at: usize) -> u8
    ensures { result ≡ slice_index bytes.now at }
{
    if at < bytes.len() { bytes[at] } else { 0 }
}

/// The second byte, or the one behind them.
fn second_or(next: u8, bytes: &[u8]) -> u8
    ensures { result ≡ slice_index_or bytes.now 1 next }
{
    if bytes.len() > 1 { bytes[1] } else { next }
}

/// Whether the bytes can be a plain scalar before a byte behind them.
pub(crate) fn is_plain(flow: bool, next: u8, bytes: &[u8]) -> bool
    ensures { result ≡ is_a_plain flow next bytes.now }
{
    can_begin(flow, byte_at(bytes, 0), second_or(next, bytes)) && goes_on(flow, next, bytes)
}

/// How far the lines of a scalar are indented.
#[derive(Clone, Copy, PartialEq, Eq)]
pub(crate) enum Line {
    /// Within a line.
    Within,
    /// Behind so many spaces at a line's start, which are counted up to the least number.
    Spaces(usize),
    /// A line began with too few.
    Short,
}

impl Line {
    fn after(self, least: usize, byte: u8) -> Line
        ensures { result ≡ line_after least self byte }
    {
        match self {
            Line::Within => {
                if byte == b'\n' {
                    Line::Spaces(0)
                } else {
                    Line::Within
                }
            }
            Line::Spaces(count) => {
                if byte == b'\n' {
                    Line::Spaces(0)
                } else if count < least {
                    if byte == b' ' {
                        Line::Spaces(count + 1)
                    } else {
                        Line::Short
                    }
                } else {
                    Line::Within
                }
            }
            Line::Short => Line::Short,
        }
    }
}

/// Whether further lines of the bytes begin with so many spaces.
pub(crate) fn is_indented(least: usize, bytes: &[u8]) -> bool
    ensures { result ≡ is_an_indented least bytes.now }
{
    let mut line = Line::Within;
    for byte in bytes {
        line = line.after(least, *byte);
    }
    match line {
        Line::Within | Line::Spaces(_) => true,
        Line::Short => false,
    }
}

/// Whether the bytes have no line's end.
pub(crate) fn is_one_line(bytes: &[u8]) -> bool
    ensures { result ≡ is_on_one_line bytes.now }
{
    let mut all = true;
    for byte in bytes {
        all = both(all, *byte != b'\n');
    }
    all
}

/// How many lines ended behind the last word of a folded text.
#[derive(Clone, Copy, PartialEq, Eq)]
pub(crate) enum Ends {
    NoEnd,
    OneEnd,
    MoreEnds,
}

impl Ends {
    fn after(self, byte: u8) -> Ends
        ensures { result ≡ ends_after self byte }
    {
        match self {
            Ends::NoEnd => {
                if byte == b'\n' {
                    Ends::OneEnd
                } else {
                    Ends::NoEnd
                }
            }
            Ends::OneEnd => {
                if byte == b'\n' {
                    Ends::MoreEnds
                } else {
                    Ends::OneEnd
                }
            }
            Ends::MoreEnds => Ends::MoreEnds,
        }
    }
}

/// A text of folded lines as far as it was read.
#[derive(Drop)]
pub(crate) struct Folding {
    text: Vec<u8>,
    /// What is between the last word and the next.
    pending: Vec<u8>,
    ends: Ends,
}

impl Folding {
    /// Nothing.
    pub(crate) fn new(alloc: Global) -> Folding
        ensures { words_of result ≡ no_words }
    {
        Folding {
            text: Vec::new(alloc),
            pending: Vec::new(alloc),
            ends: Ends::NoEnd,
        }
    }

    /// Takes what is behind the last word into the text.
    pub(crate) fn settle(&mut self) -> Result<(), AllocError>
        ensures { OnOk result (words_of self.new ≡ settled (words_of self.old)) }
    {
        self.text.extend_from_slice(self.pending.as_slice())?;
        self.pending.clear();
        self.ends = Ends::NoEnd;
        Ok(())
    }

    /// Goes over a line's end that is nothing.
    pub(crate) fn skip_end(&mut self)
        ensures { words_of self.new ≡ skipped (words_of self.old) }
    {
        self.pending.clear();
        self.ends = Ends::OneEnd;
    }

    /// Adds a character to the text.
    pub(crate) fn add_character(&mut self, character: char) -> Result<(), AllocError>
        ensures { OnOk result (words_of self.new ≡ with_character (words_of self.old) character) }
    {
        let mut encoded = String::new(*self.text.allocator());
        encoded.push(character)?;
        self.text.extend_from_slice(encoded.as_bytes())
    }

    /// Returns the text.
    pub(crate) fn end(self) -> Result<Vec<u8>, AllocError>
        ensures { IfOk result (λ text. text.items ≡ (words_of self).text ++ (words_of self).pending) }
    {
        let Folding {
            mut text,
            pending,
            ends: _,
        } = self;
        text.extend_from_slice(pending.as_slice())?;
        Ok(text)
    }

    /// Adds a byte.
    pub(crate) fn add(&mut self, byte: u8) -> Result<(), AllocError>
        ensures { OnOk result (words_of self.new ≡ words_after (words_of self.old) byte) }
    {
        if is_space(byte) {
            self.add_space(byte)
        } else {
            self.text.extend_from_slice(self.pending.as_slice())?;
            self.text.push(byte)?;
            self.pending.clear();
            self.ends = Ends::NoEnd;
            Ok(())
        }
    }

    /// Adds a space.
    fn add_space(&mut self, byte: u8) -> Result<(), AllocError>
        ensures text { self.new.text.items ≡ self.old.text.items }
        ensures pending { OnOk result (self.new.pending.items ≡ pending_after self.old.ends self.old.pending.items byte) }
        ensures ends { OnOk result (self.new.ends ≡ ends_after self.old.ends byte) }
    {
        let ends = self.ends;
        match ends {
            Ends::NoEnd => {
                if byte == b'\n' {
                    self.pending.clear();
                    self.pending.push(b' ')?;
                } else {
                    self.pending.push(byte)?;
                }
            }
            Ends::OneEnd => {
                if byte == b'\n' {
                    self.pending.clear();
                    self.pending.push(b'\n')?;
                }
            }
            Ends::MoreEnds => {
                if byte == b'\n' {
                    self.pending.push(b'\n')?;
                }
            }
        }
        self.ends = ends.after(byte);
        Ok(())
    }
}

/// Returns the text of folded lines.
pub(crate) fn unfold(alloc: Global, bytes: &[u8]) -> Result<Vec<u8>, AllocError>
    ensures { IfOk result (λ text. text.items ≡ folded bytes.now) }
{
    let mut folding = Folding::new(alloc);
    for byte in bytes {
        folding.add(*byte)?;
    }
    folding.end()
}

/// What the last byte between single quotes is.
#[derive(Clone, Copy, PartialEq, Eq)]
pub(crate) enum Quote {
    /// No quote without its pair.
    Closed,
    /// The first of two.
    Open,
    /// A quote was alone.
    Alone,
}

impl Quote {
    fn after(self, byte: u8) -> Quote
        ensures { result ≡ quote_after self byte }
    {
        match self {
            Quote::Closed => {
                if byte == b'\'' {
                    Quote::Open
                } else {
                    Quote::Closed
                }
            }
            Quote::Open => {
                if byte == b'\'' {
                    Quote::Closed
                } else {
                    Quote::Alone
                }
            }
            Quote::Alone => Quote::Alone,
        }
    }
}

fn add_paired(found: &mut Vec<u8>, quote: Quote, byte: u8) -> Result<(), AllocError>
    ensures { OnOk result (found.new.items ≡ found_after quote found.old.items byte) }
{
    match quote {
        Quote::Closed => {
            if byte != b'\'' {
                found.push(byte)?;
            }
        }
        Quote::Open => found.push(b'\'')?,
        Quote::Alone => (),
    }
    Ok(())
}

/// Returns the bytes between single quotes, with one quote for each two, unless one is alone.
pub(crate) fn unpair(alloc: Global, bytes: &[u8]) -> Result<Option<Vec<u8>>, AllocError>
    ensures { IfOk result (λ found. IfSome found (λ v. fold pairs_after no_pairs bytes.now
        ≡ record { found = v.items; quote = Quote.Closed })) }
{
    let mut found = Vec::new(alloc);
    let mut quote = Quote::Closed;
    for byte in bytes {
        add_paired(&mut found, quote, *byte)?;
        quote = quote.after(*byte);
    }
    match quote {
        Quote::Closed => Ok(Some(found)),
        Quote::Open | Quote::Alone => Ok(None),
    }
}

/// How far the bytes behind a double quote were read.
#[derive(Clone, Copy, PartialEq, Eq)]
pub(crate) enum Double {
    Inside,
    /// Behind a backslash.
    Escaped,
    /// Behind the quote that closes it.
    Ended,
    /// Something is behind that quote.
    Wrong,
}

impl Double {
    fn after(self, byte: u8) -> Double
        ensures { result ≡ double_after self byte }
    {
        match self {
            Double::Inside => {
                if byte == b'"' {
                    Double::Ended
                } else if byte == b'\\' {
                    Double::Escaped
                } else {
                    Double::Inside
                }
            }
            Double::Escaped => Double::Inside,
            Double::Ended | Double::Wrong => Double::Wrong,
        }
    }
}

/// Whether the bytes behind a double quote end with the one that closes it.
pub(crate) fn closes(bytes: &[u8]) -> bool
    ensures { result ≡ closes_at_end bytes.now }
{
    let mut double = Double::Inside;
    for byte in bytes {
        double = double.after(*byte);
    }
    match double {
        Double::Ended => true,
        Double::Inside | Double::Escaped | Double::Wrong => false,
    }
}

fn is_null(text: &str) -> bool
    ensures { result ≡ says_null text.now }
{
    matches!(text, "" | "~" | "null" | "Null" | "NULL")
}

fn is_true(wanted: bool, text: &str) -> bool
    ensures { result ≡ says_true wanted text.now }
{
    is_among_true(text) || (wanted && (is_among_yes(text) || is_among_on(text)))
}

fn is_among_true(text: &str) -> bool
    ensures { result ≡ is_true_word text.now }
{
    matches!(text, "true" | "True" | "TRUE")
}

fn is_among_yes(text: &str) -> bool
    ensures { result ≡ is_yes_word text.now }
{
    matches!(text, "y" | "Y" | "yes" | "Yes" | "YES")
}

fn is_among_on(text: &str) -> bool
    ensures { result ≡ is_on_word text.now }
{
    matches!(text, "on" | "On" | "ON")
}

fn is_false(wanted: bool, text: &str) -> bool
    ensures { result ≡ says_false wanted text.now }
{
    is_among_false(text) || (wanted && (is_among_no(text) || is_among_off(text)))
}

fn is_among_false(text: &str) -> bool
    ensures { result ≡ is_false_word text.now }
{
    matches!(text, "false" | "False" | "FALSE")
}

fn is_among_no(text: &str) -> bool
    ensures { result ≡ is_no_word text.now }
{
    matches!(text, "n" | "N" | "no" | "No" | "NO")
}

fn is_among_off(text: &str) -> bool
    ensures { result ≡ is_off_word text.now }
{
    matches!(text, "off" | "Off" | "OFF")
}

fn is_whole(bytes: &[u8]) -> bool
    ensures { result ≡ is_a_whole bytes.now }
{
    let mut all = true;
    for byte in bytes {
        all = both(all, byte.is_ascii_digit());
    }
    !bytes.is_empty() && all
}

/// Whether the text is a number in the core schema except `0o` and `0x`.
fn is_decimal(bytes: &[u8]) -> bool
    ensures { result ≡ completes_number 0 (without_sign bytes.now) }
{
    let first = byte_at(bytes, 0);
    let rest = if first == b'+' || first == b'-' {
        &bytes[1..]
    } else {
        bytes
    };
    let mut state = 0u8;
    for byte in rest {
        state = scan_step(state, *byte);
    }
    state == 1 || state == 3 || state == 6
}

fn scan_step(state: u8, byte: u8) -> u8
    ensures { result ≡ float_scan_step state byte }
{
    if byte.is_ascii_digit() {
        if state < 2 {
            1
        } else if state < 4 {
            3
        } else if state < 7 {
            6
        } else {
            7
        }
    } else if byte == b'.' {
        if state < 2 {
            if state == 0 { 2 } else { 3 }
        } else {
            7
        }
    } else if byte == b'e' || byte == b'E' {
        if state == 1 || state == 3 { 4 } else { 7 }
    } else if (byte == b'+' || byte == b'-') && state == 4 {
        5
    } else {
        7
    }
}

fn is_digit(radix: u32, byte: u8) -> bool
    requires { (0 < radix) × (radix ≤ 36) }
    ensures { result ≡ nat_lt (digit_value byte) radix }
{
    match byte {
        b'0'..=b'9' => u32::from(byte - b'0') < radix,
        b'a'..=b'z' => u32::from(byte - b'a') + 10 < radix,
        b'A'..=b'Z' => u32::from(byte - b'A') + 10 < radix,
        _ => false,
    }
}

fn has_radix_digits(letter: u8, radix: u32, bytes: &[u8]) -> bool
    requires { (0 < radix) × (radix ≤ 36) }
    ensures { result ≡ has_radix letter radix bytes.now }
{
    if byte_at(bytes, 0) != b'0' || byte_at(bytes, 1) != letter || bytes.len() <= 2 {
        return false;
    }
    let digits = &bytes[2..];
    let mut all = true;
    for byte in digits {
        all = both(all, is_digit(radix, *byte));
    }
    all
}

fn is_number(bytes: &[u8]) -> bool
    ensures { result ≡ is_a_number bytes.now }
{
    is_decimal(bytes) || has_radix_digits(b'o', 8, bytes) || has_radix_digits(b'x', 16, bytes)
}

fn radix_number(text: &str, radix: u32) -> Option<Number>
    requires { (2 ≤ radix) × (radix ≤ 36) }
    ensures { IfSome result (λ n. of_float (of_int binary64 (pos (digits_value radix (without_leading_plus (drop 2 text.now)))))
        ≡ Some (number_view n)) }
{
    let digits = text.get(2..)?;
    match u64::from_str_radix(digits, radix) {
        Ok(value) => Number::from_f64(nearest_u64_to_f64(value)),
        Err(_) => None,
    }
}

/// Returns the number that a text writes.
fn number(text: &str) -> Option<Number>
    ensures { IfSome result (λ n. number_of text.now ≡ Some (number_view n)) }
{
    let bytes = text.as_bytes();
    if is_whole(bytes) {
        return match text.parse::<u64>() {
            Ok(value) => Some(Number::from(value)),
            Err(_) => None,
        };
    }
    if byte_at(bytes, 0) == b'-' && is_whole(&bytes[1..]) && text != "-0" {
        return match text.parse::<i64>() {
            Ok(value) => Some(Number::from(value)),
            Err(_) => None,
        };
    }
    if has_radix_digits(b'o', 8, bytes) {
        return radix_number(text, 8);
    }
    if has_radix_digits(b'x', 16, bytes) {
        return radix_number(text, 16);
    }
    match text.parse::<f64>() {
        Ok(value) => Number::from_f64(value),
        Err(_) => None,
    }
}

fn core_value(wanted: bool, text: String) -> Option<Value>
    ensures { IfSome result (λ value. IsCore wanted (string_bytes text) (view value)) }
{
    if is_null(text.as_str()) {
        Some(Value::Null)
    } else if is_true(wanted, text.as_str()) {
        Some(Value::Bool(true))
    } else if is_false(wanted, text.as_str()) {
        Some(Value::Bool(false))
    } else if is_number(text.as_bytes()) {
        match number(text.as_str()) {
            Some(number) => Some(Value::Number(number)),
            None => None,
        }
    } else {
        Some(Value::String(text))
    }
}

/// Returns the value of a plain scalar of this text.
pub(crate) fn plain_meaning(meaning: Meaning, text: String) -> Option<Value>
    ensures { IfSome result (λ value. IsMeant meaning (string_bytes text) (view value)) }
{
    match meaning {
        Meaning::Core | Meaning::Named => core_value(false, text),
        Meaning::Flag => core_value(true, text),
        Meaning::Texts => {
            if is_null(text.as_str()) {
                Some(Value::Null)
            } else {
                Some(Value::String(text))
            }
        }
        Meaning::Tagged => Some(Value::String(text)),
    }
}
