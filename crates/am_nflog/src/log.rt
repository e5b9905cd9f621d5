//! `NfLog`: the table of rows by group and integration.
//!
//! A known key stays known, also when its row was collected, so a row that is put again keeps its
//! index. `forget` alone drops keys. Invariant: the keys differ. `get`, `put` and `reserve` cost one
//! look-up by hash, and `merge` two.
//! `NfLog::new` can't fail today; it returns a `Result` as all that is made on an allocator does.
//! Hashes start from a seed (`am_seed`), on which no row depends.
ghost use Rattle.std.specs.Prelude.{◌≡◌, ◌<◌, ◌↔◌, ◌||◌, [], length, filter, is_some, nat_lt, IsTrue, IfOk, OnOk, OnErr, IsOk, IsOkAnd};
ghost use Rattle.std.specs.Prelude.{slice_get, Some};
ghost use Rattle.std.specs.List.{list_any};
ghost use Rattle.std.specs.Option.{option_copied};
ghost use Rattle.am_nflog.specs.Log.{is_known, row_of, rows_of, with_key, with_row, is_later, merged, without_unused};
ghost use Rattle.am_nflog.specs.Log.{collected, expired_count, is_expired, HasDistinctKeys};

use crate::key::LogKey;
use crate::row::LogRow;
use am_seed::Seed;
use indexmap::IndexMap;
use std::alloc::{AllocError, Global};
use std::hash::Hash;
use std::marker::Model;

/// The notification log: distinct keys that are known, each with a row or none.
///
/// Contracts see it as the list of its known keys in the order in which they came, each with its row.
#[derive(Debug, Drop)]
pub struct NfLog<G: Eq + Hash, N: Ord> {
    slots: IndexMap<LogKey<G>, Option<LogRow<N>>, Seed>,
}

impl<G: Eq + Hash, N: Ord> Model for NfLog<G, N> {
    ghost use Rattle.std.specs.Prelude.{List, Option};
    ghost use Rattle.am_nflog.specs.declared.key.LogKey.{LogKey};
    ghost use Rattle.am_nflog.specs.declared.row.LogRow.{LogRow};

    ghost Value = { List (LogKey G × Option (LogRow N)) };

    ghost use Rattle.am_nflog.specs.Log.{HasDistinctKeys};

    ghost view = { λ log. log.slots.entries };

    ghost invariant = { λ log. HasDistinctKeys G.eq log.slots.entries };
}

impl<G: Eq + Hash, N: Ord> NfLog<G, N> {
    /// An empty log, in which no key is known. It takes no memory: the first key does.
    ///
    /// The hashes of its keys start from this seed. Whoever writes keys and knows it can make them collide.
    pub fn new(alloc: Global, seed: Seed) -> Result<Self, AllocError>
        ensures { IsOkAnd result (λ log. log ≡ []) }
    {
        let slots = IndexMap::with_hasher(alloc, seed);
        Ok(NfLog { slots })
    }

    /// How many keys are known.
    pub fn len(&self) -> usize
        ensures len { result ≡ length self.now }
        ensures distinct { HasDistinctKeys G.eq self.now }
    {
        self.slots.len()
    }

    /// Whether no key is known.
    pub fn is_empty(&self) -> bool
        ensures { IsTrue result ↔ (self.now ≡ []) }
    {
        self.slots.is_empty()
    }

    /// The row of a key. It is there until it is collected, also past its expiry.
    pub fn get(&self, key: &LogKey<G>) -> Option<&LogRow<N>>
        ensures row { option_copied result ≡ row_of G.eq self.now key.now }
        ensures distinct { HasDistinctKeys G.eq self.now }
    {
        self.slots.get(key)?.as_ref()
    }

    /// The known key at index `i`, with its row. Keys are in the order in which they came.
    pub fn row(&self, i: usize) -> (&LogKey<G>, Option<&LogRow<N>>)
        requires { i < length self.now }
        ensures { slice_get self.now i ≡ Some (result.0.now, option_copied result.1) }
    {
        let (key, row) = self.slots.get_index(i).unwrap();
        (key, row.as_ref())
    }
}

impl<G: Eq + Hash + Drop, N: Ord + Drop> NfLog<G, N> {
    /// Makes a key known, from now on. A new key comes last and has no row, and no row changes.
    ///
    /// It takes memory only for a new key. On an error the log is as it was.
    pub fn reserve(&mut self, key: LogKey<G>) -> Result<(), AllocError>
        ensures ok { OnOk result (self.new ≡ with_key G.eq self.old key) }
        ensures err { OnErr result (self.new ≡ self.old) }
        ensures known_succeeds { IsTrue (is_known G.eq self.old key) → IsOk result }
        ensures distinct { HasDistinctKeys G.eq self.new }
    {
        if self.slots.contains_key(&key) {
            return Ok(());
        }
        self.slots.insert(key, None)?;
        Ok(())
    }

    /// Puts a row at a known key, in place of the one that was there, if any. It takes no memory.
    pub fn put(&mut self, key: &LogKey<G>, row: LogRow<N>)
        requires { IsTrue (is_known G.eq self.old key.now) }
        ensures put { self.new ≡ with_row G.eq self.old key.now row }
        ensures distinct { HasDistinctKeys G.eq self.new }
    {
        let slot = self.slots.get_mut(key).unwrap();
        *slot = Some(row);
    }

    /// Puts a row at a key, known or not, unless the key has a row of the same time or a later one. Answers whether it did.
    ///
    /// It is how Alertmanager's log takes a row of another log (`nflog.Log.Merge`), past its check of the expiry. It takes memory only
    /// for a new key. On an error the log is as it was.
    pub fn merge(&mut self, key: LogKey<G>, row: LogRow<N>) -> Result<bool, AllocError>
        ensures put { IfOk result (λ put. put ≡ is_later row (row_of G.eq self.old key)) }
        ensures ok { OnOk result (self.new ≡ merged G.eq self.old key row) }
        ensures err { OnErr result (self.new ≡ self.old) }
        ensures known_succeeds { IsTrue (is_known G.eq self.old key) → IsOk result }
        ensures distinct { HasDistinctKeys G.eq self.new }
    {
        if !is_later(&row, self.get(&key)) {
            return Ok(false);
        }
        self.slots.insert(key, Some(row))?;
        Ok(true)
    }

    /// Removes the rows whose expiry is at or before `t`, in milliseconds, and answers how many went. Their keys stay known.
    pub fn collect(&mut self, t: u64) -> usize
        ensures collected { self.new ≡ collected t self.old }
        ensures count { result ≡ expired_count t self.old }
        ensures order { rows_of self.new ≡ filter (λ entry. nat_lt t entry.1.expiry) (rows_of self.old) }
        ensures distinct { HasDistinctKeys G.eq self.new }
    {
        let mut gone = 0;
        for i in 0..self.slots.len() {
            if is_expired(&self.slots[i], t) {
                self.slots[i] = None;
                gone += 1;
            }
        }
        gone
    }

    /// Forgets the keys that have no row, but those of these groups. It takes no memory.
    pub fn forget(&mut self, groups: &[G])
        ensures forgotten { self.new ≡ without_unused G.eq groups.now self.old }
        ensures rows { rows_of self.new ≡ rows_of self.old }
        ensures distinct { HasDistinctKeys G.eq self.new }
    {
        self.slots.retain(
            |key: &LogKey<G>, row: &mut Option<LogRow<N>>| -> bool
                ensures { (result ≡ (is_some row.old || list_any (λ g. G.eq g key.now.group) groups.entry.now)) × (row.new ≡ row.old) }
            { is_used(key, row, groups) },
        );
    }
}

// Whether a row is of a later time than a key's own, if the key has one.
fn is_later<N: Ord>(row: &LogRow<N>, own: Option<&LogRow<N>>) -> bool
    ensures { result ≡ is_later row.now (option_copied own.entry) }
{
    match own {
        Some(own) => own.time < row.time,
        None => true,
    }
}

// Whether there is a row whose expiry is reached.
fn is_expired<N: Ord>(row: &Option<LogRow<N>>, t: u64) -> bool
    ensures { result ≡ is_expired t row.now }
{
    match row {
        Some(row) => row.expiry <= t,
        None => false,
    }
}

// Whether a key has a row, or is of one of these groups.
fn is_used<G: PartialEq, N: Ord>(key: &LogKey<G>, row: &Option<LogRow<N>>, groups: &[G]) -> bool
    ensures { result ≡ (is_some row.now || list_any (λ g. G.eq g key.now.group) groups.now) }
{
    row.is_some() || groups.contains(&key.group)
}
