//! Going down a JSON value with its pointer.
//!
//! A reader carries the value, its pointer and the mode. The strict mode rejects what the
//! lenient one ignores, and rejects at the value at fault. Of two faults the same one is reported
//! in both, except unknown fields, which come first. Contracts see the value and the mode.
//!
//! A type that is read (`FromJson`) has a relation `decodes_to` between a JSON value and itself,
//! with a line for each field and its default. The reader of a list hands the relation of its items
//! on. It is a relation and not a function: a reference to a text and a built pattern have no value
//! to compute. What decodes to a value that is `never_refused` is read, unless there is no memory.
ghost use Rattle.std.specs.Prelude.{◌≡◌, ◌≢◌, ◌<◌, ◌≤◌, [], length, Some, IfErr, IfOk, IfSome, IsErrAnd, MatchOption};
ghost use Rattle.std.specs.Prelude.{List, ℕ, IsTrue, find, is_ok, is_some, map, not, option_map, string_bytes, vec_len};
ghost use Rattle.std.specs.List.{list_all};
ghost use Rattle.std.specs.BTreeMap.{keys};
ghost use Rattle.std.specs.Option.{option_copied};
ghost use Rattle.std.specs.Result.{result_ok};
ghost use Rattle.serde_json.specs.Data.{Data, no_items, item, string};
ghost use Rattle.serde_json.specs.Find.{as_array, as_bool, as_null, as_object, as_str, get_member};
ghost use Rattle.serde_json.specs.Read.{read as read_text};
ghost use Rattle.serde_json.specs.View.{items_view, members_view, view};
ghost use Rattle.std.specs.Borrow.{Bor};
ghost use Rattle.am_json.specs.Read.{Excludes, HasItems, IsRefusedBy, RefusesText, are_named, has_only, is_one_of, number_in};
ghost use Rattle.am_json.specs.Configured.{text_members};
ghost use Rattle.am_json.specs.Decoding.{Has, HasOr, IsList, IsText};

use crate::fault::{FaultKind, InputFault, ParseFault};
use crate::pointer::JsonPointer;
use am_alerts::text::Text;
use serde_json::{Map, Value};
use std::alloc::Global;
use std::marker::Model;

/// How much a reader takes, and where it refuses.
#[derive(Clone, Copy, PartialEq, Eq)]
pub enum Mode {
    /// Members of unknown names are passed over. What is made of several values is refused at the value
    /// that holds them.
    Lenient,
    /// A member of an unknown name is refused, and so is each value at its very own pointer. Labels can be
    /// an object of texts, and a matcher can be one text.
    Strict,
}

/// A JSON value and its pointer.
#[derive(Drop)]
pub struct Reader<'v, 'p> {
    alloc: Global,
    value: &'v Value,
    pointer: JsonPointer<'p>,
    mode: Mode,
}

/// A JSON object and its pointer.
#[derive(Drop)]
pub struct Object<'v, 'p> {
    alloc: Global,
    members: &'v Map<String, Value>,
    pointer: JsonPointer<'p>,
    mode: Mode,
}

impl<'v, 'p> Model for Reader<'v, 'p> {
    ghost use Rattle.std.specs.Coded.{codes};
    ghost use Rattle.serde_json.specs.contracts.value.Value as json;
    ghost use Rattle.am_json.specs.Read.{ReaderData};

    ghost Value = { ReaderData };

    ghost coded = { Prim.hlevel (codes, json.the_row.coded) };

    ghost view = { λ r. record { value = r.value.now; mode = r.mode } };
}

impl<'v, 'p> Model for Object<'v, 'p> {
    ghost use Rattle.std.specs.Coded.{codes};
    ghost use Rattle.serde_json.specs.contracts.value.Value as json;
    ghost use Rattle.am_json.specs.Read.{ObjectData};

    ghost Value = { ObjectData };

    ghost coded = { Prim.hlevel (codes, json.the_row.coded) };

    ghost view = { λ o. record { members = o.members.now.entries; mode = o.mode } };
}

/// What is read from a JSON value.
pub trait FromJson<'v>: Drop + Sized {
    ghost use Rattle.std.specs.Prelude.{⊤, Bool, false};
    ghost use Rattle.serde_json.specs.Data.{Data};
    ghost use Rattle.am_json.specs.declared.reader.Mode.{Mode};

    // What a JSON value says in a mode; where nothing is said here, nothing is known of it.
    ghost decodes_to: { Mode → Data → Self → Type 0 } = { λ _ _ _. ⊤ };

    // Whether what says this is never refused; where nothing is said here, it can be.
    ghost never_refused: { Self → Bool } = { λ _. false };

    /// Reads it. The first fault is answered, at its pointer.
    fn read(reader: &Reader<'v, '_>) -> Result<Self, InputFault>
        ensures decoded { IfOk result (decodes_to reader.now.mode (view reader.now.value)) }
        ensures refused { IfErr result (Excludes (λ x.
            decodes_to reader.now.mode (view reader.now.value) x × IsTrue (never_refused x))) };
}

/// The JSON value that these bytes are.
pub fn parse(alloc: Global, input: &[u8]) -> Result<Value, ParseFault>
    ensures value { IfOk result (λ value. read_text input.now ≡ Some (view value)) }
    ensures refused { IfErr result (RefusesText input.now) }
{
    match Value::from_slice(alloc, input) {
        Ok(value) => Ok(value),
        Err(refused) if refused.is_memory() => Err(ParseFault::NoMemory),
        Err(refused) => Err(ParseFault::NotJson {
            line: refused.line(),
            column: refused.column(),
        }),
    }
}

impl<'v, 'p> Reader<'v, 'p> {
    /// The value as a whole, which is read in the lenient mode.
    pub fn top(alloc: Global, value: &'v Value) -> Reader<'v, 'p>
        ensures value { result.value ≡ value.now }
        ensures mode { result.mode ≡ Mode.Lenient }
    {
        Reader {
            alloc,
            value,
            pointer: JsonPointer::Root,
            mode: Mode::Lenient,
        }
    }

    /// The value as a whole, which is read in the strict mode.
    pub fn strict(alloc: Global, value: &'v Value) -> Reader<'v, 'p>
        ensures value { result.value ≡ value.now }
        ensures mode { result.mode ≡ Mode.Strict }
    {
        Reader {
            alloc,
            value,
            pointer: JsonPointer::Root,
            mode: Mode::Strict,
        }
    }

    /// The allocator of what is read.
    pub fn alloc(&self) -> Global {
        self.alloc
    }

    /// The mode of reading.
    pub fn mode(&self) -> Mode
        ensures { result ≡ self.now.mode }
    {
        self.mode
    }

    /// Where this value is.
    pub fn pointer(&self) -> &JsonPointer<'p> {
        &self.pointer
    }

    /// The fault that refuses a value at a pointer below this one; in the lenient mode, this value.
    pub fn refuse_at(&self, below: &JsonPointer<'_>, fault_kind: FaultKind) -> InputFault
        ensures { IsRefusedBy fault_kind result }
    {
        match self.mode {
            Mode::Lenient => self.refuse(fault_kind),
            Mode::Strict => below.refuse(self.alloc, fault_kind),
        }
    }

    /// The fault that refuses this value.
    pub fn refuse(&self, fault_kind: FaultKind) -> InputFault
        ensures { IsRefusedBy fault_kind result }
    {
        self.pointer.refuse(self.alloc, fault_kind)
    }

    /// Whether the value is an object.
    pub fn is_object(&self) -> bool
        ensures { result ≡ is_some (as_object (view self.now.value)) }
    {
        self.value.is_object()
    }

    /// Whether the value is a text.
    pub fn is_text(&self) -> bool
        ensures { result ≡ is_some (as_str (view self.now.value)) }
    {
        self.value.is_string()
    }

    /// Whether the value is `null`.
    pub fn is_null(&self) -> bool
        ensures { result ≡ is_some (as_null (view self.now.value)) }
    {
        self.value.is_null()
    }

    /// The object that this value is, or `Kind`.
    pub fn object(&self) -> Result<Object<'v, 'p>, InputFault>
        ensures members { option_map (λ o. members_view o.members) (result_ok result) ≡ as_object (view self.now.value) }
        ensures mode { IfOk result (λ object. object.mode ≡ self.now.mode) }
        ensures refused { IfErr result (IsRefusedBy FaultKind.WrongType) }
    {
        match self.value.as_object() {
            None => Err(self.refuse(FaultKind::WrongType)),
            Some(members) => Ok(Object {
                alloc: self.alloc,
                members,
                pointer: self.pointer,
                mode: self.mode,
            }),
        }
    }

    /// A whole number from 0 to 2^64 - 1, written without point or exponent, or `Kind`.
    pub fn number(&self) -> Result<u64, InputFault>
        ensures number { result_ok result ≡ number_in (view self.now.value) }
        ensures refused { IfErr result (IsRefusedBy FaultKind.WrongType) }
    {
        match self.value.as_u64() {
            None => Err(self.refuse(FaultKind::WrongType)),
            Some(number) => Ok(number),
        }
    }

    /// A number that is at most so great, or else `Value`.
    pub fn number_up_to(&self, most: u64) -> Result<u64, InputFault>
        ensures number { IfOk result (λ number. number_in (view self.now.value) ≡ Some number) }
        ensures bound { IfOk result (λ number. number ≤ most) }
        ensures refused { IfErr result (λ fault. MatchOption (number_in (view self.now.value))
            (IsRefusedBy FaultKind.WrongType fault) (λ n. (most < n) × IsRefusedBy FaultKind.BadValue fault)) }
    {
        let number = self.number()?;
        if number > most {
            return Err(self.refuse(FaultKind::BadValue));
        }
        Ok(number)
    }

    /// `true` or `false`, or `Kind`.
    pub fn flag(&self) -> Result<bool, InputFault>
        ensures flag { result_ok result ≡ as_bool (view self.now.value) }
        ensures refused { IfErr result (IsRefusedBy FaultKind.WrongType) }
    {
        match self.value.as_bool() {
            None => Err(self.refuse(FaultKind::WrongType)),
            Some(flag) => Ok(flag),
        }
    }

    /// The text that this value is, or `Kind`.
    pub fn text(&self) -> Result<&'v str, InputFault>
        ensures text { option_map (λ t. t.now) (result_ok result) ≡ as_str (view self.now.value) }
        ensures refused { IfErr result (IsRefusedBy FaultKind.WrongType) }
    {
        match self.value.as_str() {
            None => Err(self.refuse(FaultKind::WrongType)),
            Some(text) => Ok(text),
        }
    }

    /// The items of an array, each read wholly before the next. `Kind` where there is no array.
    pub fn list<T: FromJson<'v>>(&self) -> Result<Vec<T>, InputFault>
        ensures count { IfOk result (λ items. HasItems (view self.now.value) (vec_len items)) }
        ensures decoded { IfOk result (λ items. IsList (T.decodes_to self.now.mode) (view self.now.value) items.items) }
        ensures refused { IfErr result (Excludes (λ (items : List T).
            IsList (T.decodes_to self.now.mode) (view self.now.value) items × IsTrue (list_all T.never_refused items))) }
    {
        let mut items = Vec::new(self.alloc);
        let values = self.array()?;
        for (index, value) in values.iter().enumerate() {
            items.push(T::read(&self.item(index, value))?)?;
        }
        Ok(items)
    }

    /// The items of an array that has at most so many, or else `Value`. They are counted before the
    /// first is read: each can want much memory.
    pub fn list_up_to<T: FromJson<'v>>(&self, most: usize) -> Result<Vec<T>, InputFault>
        ensures count { IfOk result (λ items. HasItems (view self.now.value) (vec_len items)) }
        ensures decoded { IfOk result (λ items. IsList (T.decodes_to self.now.mode) (view self.now.value) items.items) }
        ensures bound { IfOk result (λ items. vec_len items ≤ most) }
        ensures too_many { (count : ℕ) → HasItems (view self.now.value) count → most < count
            → IsErrAnd result (IsRefusedBy FaultKind.BadValue) }
        ensures refused { IfErr result (Excludes (λ (items : List T).
            IsList (T.decodes_to self.now.mode) (view self.now.value) items
            × IsTrue (list_all T.never_refused items) × (length items ≤ most))) }
    {
        if self.array()?.len() > most {
            return Err(self.refuse(FaultKind::BadValue));
        }
        self.list::<T>()
    }

    /// The items of an array of length two, or `Kind`.
    pub fn pair<'q>(&'q self) -> Result<(Reader<'v, 'q>, Reader<'v, 'q>), InputFault>
        ensures items { IfOk result (λ pair. as_array (view self.now.value)
            ≡ Some (item (view pair.0.value) (item (view pair.1.value) no_items))) }
        ensures mode { IfOk result (λ pair. (pair.0.mode ≡ self.now.mode) × (pair.1.mode ≡ self.now.mode)) }
        ensures refused { IfErr result (IsRefusedBy FaultKind.WrongType) }
        ensures no_pair { IfErr result (λ _. (first second : Data) →
            as_array (view self.now.value) ≢ Some (item first (item second no_items))) }
    {
        match self.array()? {
            [first, second] => Ok((self.item(0, first), self.item(1, second))),
            _ => Err(self.refuse(FaultKind::WrongType)),
        }
    }

    /// The texts of an array of length three, or `Kind`.
    pub fn three_texts(&self) -> Result<(&'v str, &'v str, &'v str), InputFault>
        ensures texts { IfOk result (λ texts. as_array (view self.now.value)
            ≡ Some (item (string texts.0.now) (item (string texts.1.now) (item (string texts.2.now) no_items)))) }
        ensures refused { IfErr result (IsRefusedBy FaultKind.WrongType) }
        ensures no_texts { IfErr result (λ _. (first second third : List ℕ) → as_array (view self.now.value)
            ≢ Some (item (string first) (item (string second) (item (string third) no_items)))) }
    {
        match self.array()? {
            [first, second, third] => {
                let first = self.item(0, first).text()?;
                let second = self.item(1, second).text()?;
                Ok((first, second, self.item(2, third).text()?))
            }
            _ => Err(self.refuse(FaultKind::WrongType)),
        }
    }

    /// The values in an array, or `Kind`.
    pub fn array(&self) -> Result<&'v [Value], InputFault>
        ensures items { option_map (λ s. items_view s.now) (result_ok result) ≡ as_array (view self.now.value) }
        ensures refused { IfErr result (IsRefusedBy FaultKind.WrongType) }
    {
        match self.value.as_array() {
            None => Err(self.refuse(FaultKind::WrongType)),
            Some(items) => Ok(items.as_slice()),
        }
    }

    /// The reader of this value, which is the item at an index of the array here.
    pub fn item<'q>(&'q self, index: usize, value: &'v Value) -> Reader<'v, 'q>
        ensures value { result.value ≡ value.now }
        ensures mode { result.mode ≡ self.now.mode }
    {
        Reader {
            alloc: self.alloc,
            value,
            pointer: self.pointer.item(index),
            mode: self.mode,
        }
    }
}

impl<'v> Object<'v, '_> {
    /// The allocator of what is read.
    pub fn alloc(&self) -> Global {
        self.alloc
    }

    /// The mode of reading.
    pub fn mode(&self) -> Mode
        ensures { result ≡ self.now.mode }
    {
        self.mode
    }

    /// In the strict mode refuses, as `Unknown`, the first member, by name, that has none of these
    /// names.
    pub fn only(&self, names: &[&str]) -> Result<(), InputFault>
        ensures known { is_ok result ≡ has_only self.now.mode (map (λ name. name.now) names.now) (members_view self.now.members) }
        ensures refused { IfErr result (IsRefusedBy FaultKind.Unknown) }
    {
        match self.mode {
            Mode::Lenient => Ok(()),
            Mode::Strict => self.refuse_unnamed(names),
        }
    }

    /// Refuses the first member, by name, that has none of these names.
    fn refuse_unnamed(&self, names: &[&str]) -> Result<(), InputFault>
        ensures known { is_ok result ≡ are_named (map (λ name. name.now) names.now) (members_view self.now.members) }
        ensures refused { IfErr result (IsRefusedBy FaultKind.Unknown) }
    {
        match unnamed(self.members, names) {
            None => Ok(()),
            Some(name) => {
                let member = self.pointer.member(name.as_str());
                Err(member.refuse(self.alloc, FaultKind::Unknown))
            }
        }
    }

    /// The names of the members with their texts, by name. `Kind` for a member that is none.
    pub fn texts(&self) -> Result<Vec<(&'v str, &'v str)>, InputFault>
        ensures texts { IfOk result (λ texts. members_view self.now.members ≡ text_members texts.items) }
        ensures refused { IfErr result (Excludes (λ (texts : List (Bor (List ℕ) × Bor (List ℕ))).
            members_view self.now.members ≡ text_members texts)) }
    {
        let mut texts = Vec::new(self.alloc);
        for (name, value) in self.members.iter() {
            let member = self.member(name.as_str(), value);
            texts.push((name.as_str(), member.text()?))?;
        }
        Ok(texts)
    }

    /// A member, if it is there.
    pub fn optional<'q>(&'q self, name: &'q str) -> Option<Reader<'v, 'q>>
        ensures value { option_map (λ r. view r.value) result ≡ get_member name.now (members_view self.now.members) }
        ensures mode { IfSome result (λ r. r.mode ≡ self.now.mode) }
    {
        match member_of(self.members, name) {
            None => None,
            Some(value) => Some(self.member(name, value)),
        }
    }

    /// All members, by name.
    pub fn members(&self) -> &'v Map<String, Value>
        ensures { result.now.entries ≡ self.now.members }
    {
        self.members
    }

    /// The reader of this value, which is the member of a name of the object here.
    pub fn member<'q>(&'q self, name: &'q str, value: &'v Value) -> Reader<'v, 'q>
        ensures value { result.value ≡ value.now }
        ensures mode { result.mode ≡ self.now.mode }
    {
        Reader {
            alloc: self.alloc,
            value,
            pointer: self.pointer.member(name),
            mode: self.mode,
        }
    }

    /// A member that must be there, or `Missing`.
    pub fn required<'q>(&'q self, name: &'q str) -> Result<Reader<'v, 'q>, InputFault>
        ensures value { option_map (λ r. view r.value) (result_ok result)
            ≡ get_member name.now (members_view self.now.members) }
        ensures mode { IfOk result (λ r. r.mode ≡ self.now.mode) }
        ensures refused { IfErr result (IsRefusedBy FaultKind.Missing) }
    {
        match self.optional(name) {
            None => Err(
                self.pointer
                    .member(name)
                    .refuse(self.alloc, FaultKind::Missing),
            ),
            Some(member) => Ok(member),
        }
    }

    /// A number, or what it is if the member isn't there.
    pub fn number_or(&self, name: &str, absent: u64) -> Result<u64, InputFault>
        ensures value { MatchOption (get_member name.now (members_view self.now.members)) (result ≡ Ok absent)
            (λ member. result_ok result ≡ number_in member) }
        ensures refused { IfErr result (IsRefusedBy FaultKind.WrongType) }
    {
        match self.optional(name) {
            None => Ok(absent),
            Some(member) => member.number(),
        }
    }

    /// A flag, or what it is if the member isn't there.
    pub fn flag_or(&self, name: &str, absent: bool) -> Result<bool, InputFault>
        ensures value { MatchOption (get_member name.now (members_view self.now.members)) (result ≡ Ok absent)
            (λ member. result_ok result ≡ as_bool member) }
        ensures refused { IfErr result (IsRefusedBy FaultKind.WrongType) }
    {
        match self.optional(name) {
            None => Ok(absent),
            Some(member) => member.flag(),
        }
    }

    /// The items of an array, or none if the member isn't there.
    pub fn list_or_none<T: FromJson<'v>>(&self, name: &str) -> Result<Vec<T>, InputFault>
        ensures count { IfOk result (λ items.
            MatchOption (get_member name.now (members_view self.now.members)) (items.items ≡ [])
            (λ member. HasItems member (vec_len items))) }
        ensures decoded { IfOk result (λ items.
            HasOr (IsList (T.decodes_to self.now.mode)) [] name.now (members_view self.now.members) items.items) }
        ensures refused { IfErr result (Excludes (λ (items : List T).
            HasOr (IsList (T.decodes_to self.now.mode)) [] name.now (members_view self.now.members) items
            × IsTrue (list_all T.never_refused items))) }
    {
        match self.optional(name) {
            None => Ok(Vec::new(self.alloc)),
            Some(member) => member.list::<T>(),
        }
    }

    /// The items of an array that has at most so many, or none if the member isn't there.
    pub fn list_up_to<T: FromJson<'v>>(&self, name: &str, most: usize) -> Result<Vec<T>, InputFault>
        ensures decoded { IfOk result (λ items.
            HasOr (IsList (T.decodes_to self.now.mode)) [] name.now (members_view self.now.members) items.items) }
        ensures bound { IfOk result (λ items. vec_len items ≤ most) }
        ensures refused { IfErr result (Excludes (λ (items : List T).
            HasOr (IsList (T.decodes_to self.now.mode)) [] name.now (members_view self.now.members) items
            × IsTrue (list_all T.never_refused items) × (length items ≤ most))) }
    {
        match self.optional(name) {
            None => Ok(Vec::new(self.alloc)),
            Some(member) => member.list_up_to::<T>(most),
        }
    }

    /// A copy of a text that must be there, or `Missing`.
    pub fn required_text(&self, name: &str) -> Result<Text, InputFault>
        ensures decoded { IfOk result (Has IsText name.now (members_view self.now.members)) }
        ensures refused { IfErr result (Excludes (Has IsText name.now (members_view self.now.members))) }
    {
        Ok(Text::new(self.alloc, self.required(name)?.text()?)?)
    }
}

/// The value of a member, if it is there.
fn member_of<'v>(members: &'v Map<String, Value>, name: &str) -> Option<&'v Value>
    ensures { option_map (λ v. view v.now) result
        ≡ get_member name.now (members_view members.now.entries) }
{
    members.get(name)
}

/// The first member, by name, that has none of these names.
fn unnamed<'m>(members: &'m Map<String, Value>, names: &[&str]) -> Option<&'m String>
    ensures { option_copied result ≡ find (λ name. not (is_one_of names.now (string_bytes name))) (keys members.now) }
{
    members.keys().find(|name| !is_one_of(names, name.as_str()))
}

/// Whether a name is one of these.
pub fn is_one_of(names: &[&str], name: &str) -> bool
    ensures { result ≡ is_one_of names.now name.now }
{
    names.iter().any(|known| *known == name)
}

impl<'v> FromJson<'v> for Text {
    ghost use Rattle.std.specs.Prelude.{true};
    ghost use Rattle.am_json.specs.Decoding.{IsText};

    ghost decodes_to = { λ mode value text. IsText value text };

    ghost never_refused = { λ _. true };

    fn read(reader: &Reader<'v, '_>) -> Result<Text, InputFault> {
        Ok(Text::new(reader.alloc(), reader.text()?)?)
    }
}
