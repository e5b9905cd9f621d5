//! Log entries that had expired when flushes began.
ghost use Rattle.std.specs.Prelude.{◌≡◌, ◌*◌, min, ◌&&◌, ◌==◌, ℕ, IfOk, None, OnOk, if◌then◌else◌};
ghost use Rattle.std.specs.Prelude.{nat_lt, option_copied};
ghost use Rattle.std.specs.HashMap.{get};
ghost use Rattle.std.specs.Option.{option_or};
ghost use Rattle.am_model.specs.Configured.{route_of};
ghost use Rattle.am_model.specs.look_back.Past.{Past};
ghost use Rattle.am_timeline.specs.Entries.{same_flush_key};
ghost use Rattle.am_timeline.specs.Expiry.{count_integrations, expired, expired_before, expiry_of, flush_group, if_reached};
ghost use Rattle.am_timeline.specs.LastEntry.{expiry_in};
ghost use Rattle.am_timeline.specs.Log.{Follows, same_log_key};

use crate::logbook::log::{LastEntry, Log, LogKey, add_record, empty_log, next_time};
use am_model::config::Config;
use am_model::group::GroupName;
use am_model::record::{Record, Reply};
use am_seed::Seed;
use std::alloc::{AllocError, Global};
use std::collections::HashMap;

/// The index of a flush's begin in the history, and the position of an integration.
#[derive(Clone, Copy, PartialEq, Eq, Hash)]
pub struct FlushKey {
    pub index: usize,
    pub integration: usize,
}

/// Returns when the entries expired whose lack flushes of a history found: the last ones, by a logged success or a loaded row,
/// that had expired when the flush began.
pub fn expired_entries(
    alloc: Global,
    seed: Seed,
    config: &Config,
    history: &[Record],
) -> Result<HashMap<FlushKey, u64, Seed>, AllocError>
    ensures { IfOk result (λ table. (index integration : ℕ)
        → get same_flush_key table (record { index = index; integration = integration })
        ≡ expired config.now history.now index integration) }
{
    let mut log = empty_log(alloc, seed);
    let mut table = HashMap::with_hasher(alloc, seed);
    for (index, added) in history.iter().enumerate() {
        add_expired(alloc, config, &log, index, added, &mut table)?;
        add_record(alloc, added, &mut log)?;
    }
    Ok(table)
}

/// Adds the entries that had expired when a record began a flush, if it does.
fn add_expired(
    alloc: Global,
    config: &Config,
    log: &Log<'_>,
    index: usize,
    added: &Record,
    table: &mut HashMap<FlushKey, u64, Seed>,
) -> Result<(), AllocError>
    ensures { OnOk result ((past : Past) → Follows log.now past → (p i : ℕ)
        → get same_flush_key table.new (record { index = p; integration = i })
        ≡ option_or (if index == p then expired_before config.now i past added.now else None)
        (get same_flush_key table.old (record { index = p; integration = i }))) }
{
    match flush_group(&added.reply) {
        None => Ok(()),
        Some(group) => {
            let t = next_time(log.clock, &added.call);
            let flush = Flush { index, group, t };
            add_each(alloc, config, &flush, &log.logged, table)
        }
    }
}

/// The group of the flush that a reply begins.
fn flush_group(reply: &Reply) -> Option<&GroupName>
    ensures { option_copied result ≡ flush_group reply.now }
{
    match reply {
        Reply::Flush { group, .. } => Some(group),
        _ => None,
    }
}

/// A flush that begins.
#[derive(Drop)]
struct Flush<'h> {
    /// The index of its begin in the history.
    index: usize,
    group: &'h GroupName,
    /// When it begins, in milliseconds.
    t: u64,
}

/// Adds the entries of the integrations of a group's receiver that had expired when a flush of the group began.
fn add_each(
    alloc: Global,
    config: &Config,
    flush: &Flush<'_>,
    logged: &HashMap<LogKey, LastEntry, Seed>,
    table: &mut HashMap<FlushKey, u64, Seed>,
) -> Result<(), AllocError>
    ensures { OnOk result ((p i : ℕ) → get same_flush_key table.new (record { index = p; integration = i })
        ≡ option_or (if (flush.now.index == p) && nat_lt i (count_integrations config.now flush.now.group.now)
        then expiry_of config.now flush.now.group.now flush.now.t
        (get same_log_key logged.now (record { group = flush.now.group.now; integration = i })) else None)
        (get same_flush_key table.old (record { index = p; integration = i }))) }
{
    let count = config.integrations_of(flush.group).len();
    for integration in 0..count {
        let expiry = expiry_of(alloc, config, flush, integration, logged)?;
        add_entry(flush.index, integration, expiry, table)?;
    }
    Ok(())
}

/// Adds an entry that had expired, if it had.
fn add_entry(
    index: usize,
    integration: usize,
    expiry: Option<u64>,
    table: &mut HashMap<FlushKey, u64, Seed>,
) -> Result<(), AllocError>
    ensures { OnOk result ((p i : ℕ) → get same_flush_key table.new (record { index = p; integration = i })
        ≡ option_or (if (index == p) && (integration == i) then expiry else None)
        (get same_flush_key table.old (record { index = p; integration = i }))) }
{
    if let Some(expiry) = expiry {
        table.insert(FlushKey { index, integration }, expiry)?;
    }
    Ok(())
}

/// When the last entry of a flush's group and an integration expired, if there is one and it had expired when the flush began.
fn expiry_of(
    alloc: Global,
    config: &Config,
    flush: &Flush<'_>,
    integration: usize,
    logged: &HashMap<LogKey, LastEntry, Seed>,
) -> Result<Option<u64>, AllocError>
    ensures { IfOk result (λ expiry. expiry ≡ expiry_of config.now flush.now.group.now flush.now.t
        (get same_log_key logged.now (record { group = flush.now.group.now; integration = integration }))) }
{
    let key = LogKey {
        group: flush.group.copy(alloc)?,
        integration,
    };
    match logged.get(&key) {
        None => Ok(None),
        Some(entry) => Ok(if_reached(config, flush.group, flush.t, *entry)),
    }
}

/// When an entry of a group expires, if that is reached at `t`.
fn if_reached(config: &Config, group: &GroupName, t: u64, entry: LastEntry) -> Option<u64>
    ensures { result ≡ if_reached t (expiry_in config.now group.now entry) }
{
    let expiry = match entry {
        LastEntry::Logged(at) => at.checked_add(kept_for(config, group))?,
        LastEntry::Loaded(expiry) => expiry,
    };
    if expiry <= t { Some(expiry) } else { None }
}

/// How long an entry of a group is kept, in milliseconds.
fn kept_for(config: &Config, group: &GroupName) -> u64
    ensures { result ≡ min config.now.retention (2 * (route_of config.now group.now).repeat_interval) }
{
    let twice = config.route_of(group).repeat_interval.saturating_mul(2);
    config.retention.min(twice)
}
