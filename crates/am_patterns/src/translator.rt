//! Writes the translation of a pattern while it reads it.
//!
//! No step writes more than 34 bytes, and 30 for each character that it reads.
ghost use Rattle.std.specs.Prelude.{◌≡◌, ◌+◌, ◌*◌, ◌≤◌, length, min, string_len, IfOk, OnOk};
ghost use Rattle.am_patterns.specs.Growth.{MayGrow};

use crate::class::{self, Member, read_member};
use crate::code::{push_all, push_code, push_if, push_range};
use crate::fault::{FaultKind, Stop, Wrong};
use crate::flags::{FlagGroup, Flags};
use crate::group::{Opening, read_opening};
use crate::item::{Item, read_item};
use crate::pattern::MAX_GROUPS;
use crate::property::{self, PropertyKind};
use crate::repetition::{MAX_COUNT, Repetition, read_repetition};
use crate::text::{after, before, find_last_pair, find_pair, is_at};
use std::alloc::{AllocError, Global};

/// What a repetition would repeat. The number is the greatest product of counts in it.
#[derive(Clone, Copy)]
enum Last {
    Nothing,
    Item(u32),
    /// What a repetition repeats that begins at an index.
    Repeated(u32, usize),
}

impl Last {
    fn product(self) -> u32 {
        match self {
            Last::Nothing => 1,
            Last::Item(product) => product,
            Last::Repeated(product, _) => product,
        }
    }
}

/// A group that is open.
#[derive(Clone, Copy)]
struct Group {
    /// Where it begins.
    at: usize,
    /// The flags around it.
    flags: Flags,
    /// The greatest product of counts before it.
    product: u32,
}

/// A translation so far.
#[derive(Drop)]
pub(crate) struct Translator {
    out: String,
    groups: Vec<Group>,
    /// The flags that hold in the pattern.
    flags: Flags,
    /// The flags that hold in the translation. They change with the next item.
    written: Flags,
    last: Last,
    /// The greatest product of counts in the group before the last item.
    product: u32,
    /// Where the last `:]` of the pattern begins. No class of POSIX begins behind it, so none is
    /// searched for there: that would take quadratic time.
    last_posix_end: usize,
}

impl Translator {
    pub(crate) fn new(alloc: Global) -> Translator
        ensures { string_len result.out ≡ 0 }
    {
        Translator {
            out: String::new(alloc),
            groups: Vec::new(alloc),
            flags: Flags::START,
            written: Flags::START,
            last: Last::Nothing,
            product: 1,
            last_posix_end: 0,
        }
    }

    /// Writes the translation of a whole pattern.
    pub(crate) fn run(mut self, text: &[char]) -> Result<String, Stop>
        ensures { IfOk result (λ out. string_len out ≤ string_len self.out + 64 * length text.now) }
    {
        self.last_posix_end = find_last_pair(text, ':', ']').unwrap_or(0);
        let mut rest = text;
        while let [first, ..] = rest {
            let at = text.len().saturating_sub(rest.len());
            let count = self.step(*first, rest, at)?;
            rest = after(rest, count.max(1).min(rest.len()));
        }
        if let Some(group) = self.groups.last() {
            return Err(Stop::Wrong(Wrong {
                kind: FaultKind::MissingParenthesis,
                start: group.at,
                end: text.len(),
            }));
        }
        Ok(self.out)
    }

    /// Reads what begins with a character, and says how many it has.
    fn step(&mut self, first: char, rest: &[char], at: usize) -> Result<usize, Stop>
        ensures { IfOk result (λ count. MayGrow (string_len self.old.out) (string_len self.new.out) (min count (length rest.now))) }
    {
        match first {
            '(' => self.open(rest, at),
            '[' => self.class(rest, at),
            '\\' => self.backslash(rest, at),
            '*' | '+' | '?' | '{' => self.operator(rest, at),
            _ => {
                self.single(first, at)?;
                Ok(1)
            }
        }
    }

    /// Reads a character that nothing belongs to.
    fn single(&mut self, c: char, at: usize) -> Result<(), Stop>
        ensures { OnOk result (string_len self.new.out ≤ string_len self.old.out + 30) }
    {
        match c {
            ')' => self.close(at),
            '|' => self.bar(),
            '.' | '^' | '$' => {
                self.begin_item()?;
                self.out.push(c)?;
                Ok(())
            }
            _ => self.code(c as u32),
        }
    }

    /// Writes the flags that have changed, and begins an item.
    fn begin_item(&mut self) -> Result<(), AllocError>
        ensures { OnOk result (string_len self.new.out ≤ string_len self.old.out + 12) }
    {
        self.write_flags()?;
        self.product = self.product.max(self.last.product());
        self.last = Last::Item(1);
        Ok(())
    }

    fn write_flags(&mut self) -> Result<(), AllocError>
        ensures { OnOk result (string_len self.new.out ≤ string_len self.old.out + 12) }
    {
        if self.flags == self.written {
            return Ok(());
        }
        self.out.push_str("(?")?;
        self.flags.push_change(self.written, &mut self.out)?;
        push_if(&mut self.out, true, ')')?;
        self.written = self.flags;
        Ok(())
    }

    fn code(&mut self, code: u32) -> Result<(), Stop>
        ensures { OnOk result (string_len self.new.out ≤ string_len self.old.out + 30) }
    {
        self.begin_item()?;
        push_code(&mut self.out, code)?;
        Ok(())
    }

    fn open(&mut self, rest: &[char], at: usize) -> Result<usize, Stop>
        ensures { IfOk result (λ count. MayGrow (string_len self.old.out) (string_len self.new.out) (min count (length rest.now))) }
    {
        let opening = match read_opening(rest, self.flags) {
            Ok(opening) => opening,
            Err(wrong) => return Err(Stop::Wrong(wrong.behind(at))),
        };
        match opening {
            Opening::Capture(length) => {
                self.begin_group(at)?;
                push_if(&mut self.out, true, '(')?;
                Ok(length)
            }
            Opening::Flags(group) => {
                self.set_flags(group, at)?;
                Ok(group.length)
            }
        }
    }

    fn set_flags(&mut self, group: FlagGroup, at: usize) -> Result<(), Stop>
        ensures { OnOk result (string_len self.new.out ≤ string_len self.old.out + 24) }
    {
        if !group.is_open {
            self.flags = group.flags;
            return Ok(());
        }
        self.begin_group(at)?;
        self.out.push_str("(?")?;
        group.flags.push_change(self.written, &mut self.out)?;
        push_if(&mut self.out, true, ':')?;
        self.written = group.flags;
        self.flags = group.flags;
        Ok(())
    }

    fn begin_group(&mut self, at: usize) -> Result<(), Stop>
        ensures { OnOk result (string_len self.new.out ≤ string_len self.old.out + 12) }
    {
        if self.groups.len() >= MAX_GROUPS {
            return Err(Stop::Wrong(Wrong {
                kind: FaultKind::TooDeep,
                start: at,
                end: at.saturating_add(1),
            }));
        }
        self.begin_item()?;
        self.groups.push(Group {
            at,
            flags: self.flags,
            product: self.product,
        })?;
        self.last = Last::Nothing;
        self.product = 1;
        Ok(())
    }

    fn close(&mut self, at: usize) -> Result<(), Stop>
        ensures { OnOk result (string_len self.new.out ≤ string_len self.old.out + 1) }
    {
        let Some(group) = self.groups.pop() else {
            return Err(Stop::Wrong(Wrong {
                kind: FaultKind::UnexpectedParenthesis,
                start: at,
                end: at.saturating_add(1),
            }));
        };
        push_if(&mut self.out, true, ')')?;
        self.last = Last::Item(self.product.max(self.last.product()));
        self.product = group.product;
        self.flags = group.flags;
        self.written = group.flags;
        Ok(())
    }

    fn bar(&mut self) -> Result<(), Stop>
        ensures { OnOk result (string_len self.new.out ≤ string_len self.old.out + 1) }
    {
        push_if(&mut self.out, true, '|')?;
        self.product = self.product.max(self.last.product());
        self.last = Last::Nothing;
        Ok(())
    }

    fn operator(&mut self, rest: &[char], at: usize) -> Result<usize, Stop>
        ensures { IfOk result (λ count. MayGrow (string_len self.old.out) (string_len self.new.out) (min count (length rest.now))) }
    {
        let Some(repetition) = read_repetition(rest) else {
            self.code('{' as u32)?;
            return Ok(1);
        };
        if !repetition.is_sound() {
            return Err(wrong_at(FaultKind::InvalidCount, at, repetition.length));
        }
        let is_marked = is_at(rest, repetition.length, '?');
        let length = repetition.length.saturating_add(usize::from(is_marked));
        self.repeat(repetition, at, length)?;
        push_all(&mut self.out, before(rest, length))?;
        Ok(length)
    }

    /// Repeats the last item.
    fn repeat(&mut self, repetition: Repetition, at: usize, length: usize) -> Result<(), Stop>
        ensures { OnOk result (string_len self.new.out ≤ string_len self.old.out) }
    {
        let product = match self.last {
            Last::Nothing => return Err(wrong_at(FaultKind::MissingArgument, at, length)),
            Last::Repeated(_, start) => {
                return Err(Stop::Wrong(Wrong {
                    kind: FaultKind::NestedRepetition,
                    start,
                    end: at.saturating_add(length),
                }));
            }
            Last::Item(part) => repetition.product(part),
        };
        if repetition.is_multiple() && product > MAX_COUNT {
            return Err(wrong_at(FaultKind::InvalidCount, at, length));
        }
        self.last = Last::Repeated(product, at);
        Ok(())
    }

    fn backslash(&mut self, rest: &[char], at: usize) -> Result<usize, Stop>
        ensures { IfOk result (λ count. MayGrow (string_len self.old.out) (string_len self.new.out) (min count (length rest.now))) }
    {
        let item = match read_item(rest) {
            Ok(item) => item,
            Err(wrong) => return Err(Stop::Wrong(wrong.behind(at))),
        };
        if let Some(test) = item.test() {
            self.begin_item()?;
            self.out.push_str(test)?;
            return Ok(2);
        }
        match item {
            Item::Quoted => self.quoted(after(rest, 2)),
            Item::Code(code, length) => {
                self.code(code)?;
                Ok(length)
            }
            Item::Set(set) => {
                self.begin_item()?;
                self.out.push_str(set.text())?;
                Ok(2)
            }
            Item::Property(property) => {
                self.begin_item()?;
                self.push_property(property.kind, before(rest, property.length))?;
                Ok(property.length)
            }
            _ => Ok(2),
        }
    }

    /// Writes characters that represent themselves up to `\E`.
    fn quoted(&mut self, rest: &[char]) -> Result<usize, Stop>
        ensures { IfOk result (λ count. MayGrow (string_len self.old.out) (string_len self.new.out) (min count (length rest.now))) }
    {
        let end = find_pair(rest, '\\', 'E');
        let text = before(rest, end.unwrap_or(rest.len()));
        self.codes(text)?;
        Ok(quoted_length(text.len(), end.is_some()))
    }

    /// Writes characters that represent themselves.
    fn codes(&mut self, text: &[char]) -> Result<(), Stop>
        ensures { OnOk result (string_len self.new.out ≤ string_len self.old.out + 30 * length text.now) }
    {
        for c in text {
            self.code(*c as u32)?;
        }
        Ok(())
    }

    /// Writes a class of Unicode that a text writes.
    fn push_property(&mut self, kind: PropertyKind, text: &[char]) -> Result<(), AllocError>
        ensures { OnOk result (string_len self.new.out ≤ string_len self.old.out + 21 + 4 * length text.now) }
    {
        let (negated, from, to) = match kind {
            PropertyKind::Set(set) => return self.out.push_str(set.text()),
            PropertyKind::Named { negated, from, to } => (negated, from, to),
        };
        let name = after(before(text, to), from);
        self.out.push_str(property::start_text(negated))?;
        if name.len() == 1 && !is_at(text, 2, '{') {
            return push_all(&mut self.out, name);
        }
        push_if(&mut self.out, true, '{')?;
        push_all(&mut self.out, name)?;
        push_if(&mut self.out, true, '}')
    }

    /// Reads from a bracket on.
    fn class(&mut self, text: &[char], at: usize) -> Result<usize, Stop>
        ensures { IfOk result (λ count. MayGrow (string_len self.old.out) (string_len self.new.out) (min count (length text.now))) }
    {
        self.begin_item()?;
        let is_negated = is_at(text, 1, '^');
        let start = if is_negated { 2 } else { 1 };
        self.out.push_str(class::start_text(is_negated))?;
        let mut rest = after(text, start);
        while let [first, ..] = rest {
            let read = text.len().saturating_sub(rest.len());
            if *first == ']' && read > start {
                push_if(&mut self.out, true, ']')?;
                return Ok(read.saturating_add(1));
            }
            let count = self.member(rest, at.saturating_add(read))?;
            rest = after(rest, count.max(1).min(rest.len()));
        }
        Err(wrong_at(FaultKind::MissingBracket, at, text.len()))
    }

    /// Reads a part of what is in brackets.
    fn member(&mut self, rest: &[char], at: usize) -> Result<usize, Stop>
        ensures { IfOk result (λ count. string_len self.new.out ≤ string_len self.old.out + 21 + 4 * min count (length rest.now)) }
    {
        let member = match read_member(rest, at < self.last_posix_end) {
            Ok(member) => member,
            Err(wrong) => return Err(Stop::Wrong(wrong.behind(at))),
        };
        match member {
            Member::Posix(length) => {
                push_all(&mut self.out, before(rest, length))?;
                Ok(length)
            }
            Member::Property(property) => {
                self.push_property(property.kind, before(rest, property.length))?;
                Ok(property.length)
            }
            Member::Set(set) => {
                self.out.push_str(set.text())?;
                Ok(2)
            }
            Member::Range { low, high, length } => {
                push_range(&mut self.out, low, high)?;
                Ok(length)
            }
        }
    }
}

/// How many characters a quotation of so many has with what begins and ends it.
fn quoted_length(count: usize, is_ended: bool) -> usize
    ensures { count ≤ result }
{
    if is_ended {
        count.saturating_add(4)
    } else {
        count.saturating_add(2)
    }
}

fn wrong_at(kind: FaultKind, at: usize, length: usize) -> Stop {
    Stop::Wrong(Wrong::of_first(kind, length).behind(at))
}
