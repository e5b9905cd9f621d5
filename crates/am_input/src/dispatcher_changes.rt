//! The reloads and restarts of a story, with their configurations.
//!
//! A restart has the configuration that holds then. It is read once more, since a configuration has no copies.
ghost use Rattle.std.specs.Prelude.{◌≡◌, ◌∷◌, ◌++◌, ◌||◌, [], IfErr, IfOk, IsTrue, List, None, OnOk, Some, codes, false, map};
ghost use Rattle.std.specs.List.{list_all};
ghost use Rattle.serde_json.specs.View.{members_view};
ghost use Rattle.am_json.specs.Configured.{config_compares_texts};
ghost use Rattle.am_json.specs.Decoding.{HasNone};
ghost use Rattle.am_json.specs.declared.fault.InputFault.TheVariants.{NoMemory};
ghost use Rattle.am_input.specs.Clocks.{AreClocksOf};
ghost use Rattle.am_input.specs.Configured.{file_in};
ghost use Rattle.am_input.specs.DispatcherChanges.{AreDispatcherChangesIn, AreDispatcherChangesWithoutRegexes};
ghost use Rattle.am_input.specs.DispatcherChanges.{AreDecodedBy, IsConfigAt, DecodesAt, is_ours};
ghost use Rattle.am_input.specs.Request.{RefusesAll, end_for};
ghost use Rattle.am_plans.specs.DispatcherChange.{ItemData, item_of, reload_in};
ghost use Rattle.am_terms.specs.declared.dispatcher_change.DispatcherChange.{DispatcherChange};

use crate::configured::{Configured, read_configured, read_reload};
use crate::input::Changes;
use crate::zone_files::ZoneFiles;
use am_config::dropped::IgnoredSettings;
use am_json::fault::InputFault;
use am_json::faults::Refusal;
use am_json::reader::Object;
use am_plans::dispatcher_change::{DispatcherChangeItem, Reload, read_items};
use am_terms::dispatcher_change::{Carryover, DispatcherChange};
use std::alloc::Global;

/// The reloads and restarts of a story, and what their configurations come with.
#[derive(Drop)]
pub struct HandedOver {
    /// In the order of their times.
    pub dispatcher_changes: Vec<DispatcherChange>,
    /// What of Alertmanager's configurations is ignored.
    pub ignored: IgnoredSettings,
    /// Whether routes name time intervals that have no clocks.
    pub lacks_hours: bool,
}

impl HandedOver {
    /// No reloads and no restarts.
    pub(crate) fn nothing(alloc: Global) -> HandedOver
        ensures dispatcher_changes { result.dispatcher_changes.items ≡ [] }
        ensures lacks { result.lacks_hours ≡ false }
    {
        HandedOver {
            dispatcher_changes: Vec::new(alloc),
            ignored: IgnoredSettings::nothing(),
            lacks_hours: false,
        }
    }

    /// Adds a reload or a restart under a configuration.
    pub(crate) fn add(
        &mut self,
        at: u64,
        carryover: Carryover,
        configured: Configured,
    ) -> Result<(), InputFault>
        ensures added { OnOk result (self.new.dispatcher_changes.items
            ≡ self.old.dispatcher_changes.items ++ record { at = at; config = configured.config; carryover = carryover } ∷ []) }
        ensures lacks { OnOk result (self.new.lacks_hours ≡ (self.old.lacks_hours || configured.lacks_hours)) }
        ensures starved { IfErr result (λ fault. fault ≡ NoMemory) }
    {
        let Configured {
            config,
            ignored,
            lacks_hours,
        } = configured;
        self.dispatcher_changes.push(DispatcherChange {
            at,
            config,
            carryover,
        })?;
        self.ignored = both(self.ignored, ignored);
        self.lacks_hours = either(self.lacks_hours, lacks_hours);
        Ok(())
    }
}

pub(crate) fn either(one: bool, other: bool) -> bool
    ensures { result ≡ (one || other) }
{
    one || other
}

/// Reads the reloads and restarts of a story that ends at `until`.
pub(crate) fn read_dispatcher_changes<Z: ZoneFiles>(
    top: &Object<'_, '_>,
    changes: Changes<'_>,
    until: u64,
    files: &mut Z,
) -> Result<HandedOver, Refusal>
    requires ends { end_for changes.overrides.until (members_view top.now.members) ≡ Some until }
    ensures decoded { IfOk result (λ read.
        AreDispatcherChangesIn top.now.mode (file_in changes.entry) until (members_view top.now.members) read.dispatcher_changes.items) }
    ensures timed { file_in changes.entry ≡ None → HasNone (codes "alertmanager") (members_view top.now.members)
        → (dispatcher_changes : List DispatcherChange)
        → AreDispatcherChangesWithoutRegexes top.now.mode (file_in changes.entry) until (members_view top.now.members) dispatcher_changes
        → IfOk result (λ read. read.lacks_hours ≡ false) }
    ensures refused { file_in changes.entry ≡ None → HasNone (codes "alertmanager") (members_view top.now.members)
        → IfErr result (RefusesAll
        (AreDispatcherChangesWithoutRegexes top.now.mode (file_in changes.entry) until (members_view top.now.members))) }
{
    let items = read_items(top, until)?;
    Ok(read_configs(top, items.as_slice(), changes, until, files)?)
}

/// Reads the configuration of each.
fn read_configs<Z: ZoneFiles>(
    top: &Object<'_, '_>,
    items: &[DispatcherChangeItem<'_>],
    changes: Changes<'_>,
    until: u64,
    files: &mut Z,
) -> Result<HandedOver, Refusal>
    requires ends { end_for changes.overrides.until (members_view top.now.members) ≡ Some until }
    ensures decoded { IfOk result (λ read. AreDecodedBy
        (IsConfigAt (AreClocksOf until (members_view top.now.members)) (file_in changes.entry) top.now.mode (members_view top.now.members))
        None (map item_of items.now) read.dispatcher_changes.items) }
    ensures timed { file_in changes.entry ≡ None → HasNone (codes "alertmanager") (members_view top.now.members)
        → IsTrue (list_all (λ (item : ItemData). is_ours item.reload) (map item_of items.now))
        → IfOk result (λ read. read.lacks_hours ≡ false) }
    ensures refused { file_in changes.entry ≡ None → HasNone (codes "alertmanager") (members_view top.now.members)
        → IsTrue (list_all (λ (item : ItemData). is_ours item.reload) (map item_of items.now))
        → IfErr result (RefusesAll (λ (dispatcher_changes : List DispatcherChange).
        AreDecodedBy
        (IsConfigAt (AreClocksOf until (members_view top.now.members)) (file_in changes.entry) top.now.mode (members_view top.now.members))
        None (map item_of items.now) dispatcher_changes
        × IsTrue (list_all (λ (h : DispatcherChange). config_compares_texts h.config) dispatcher_changes))) }
{
    let mut read = HandedOver::nothing(top.alloc());
    let mut last = None;
    for item in items {
        last = item.reload.or(last);
        let configured = read_at(top, last, changes, until, files)?;
        read.add(item.at, item.carryover, configured)?;
    }
    Ok(read)
}

/// Reads the configuration of the last reload, or that of the story where there was none. The story ends at `until`.
fn read_at<Z: ZoneFiles>(
    top: &Object<'_, '_>,
    last: Option<Reload<'_>>,
    changes: Changes<'_>,
    until: u64,
    files: &mut Z,
) -> Result<Configured, Refusal>
    requires ends { end_for changes.overrides.until (members_view top.now.members) ≡ Some until }
    ensures decoded { IfOk result (λ read.
        IsConfigAt (AreClocksOf until (members_view top.now.members)) (file_in changes.entry)
        top.now.mode (members_view top.now.members) (reload_in last.entry) read.config) }
    ensures timed { file_in changes.entry ≡ None → HasNone (codes "alertmanager") (members_view top.now.members)
        → IsTrue (is_ours (reload_in last.entry)) → IfOk result (λ read. read.lacks_hours ≡ false) }
    ensures refused { file_in changes.entry ≡ None → HasNone (codes "alertmanager") (members_view top.now.members)
        → IsTrue (is_ours (reload_in last.entry))
        → IfErr result (RefusesAll (DecodesAt top.now.mode (members_view top.now.members) (reload_in last.entry))) }
{
    let requested = changes.overrides.until;
    match last {
        None => read_configured(top, changes.config, requested, files),
        Some(reload) => read_reload(top, reload, requested, files),
    }
}

/// What is ignored of one configuration or of another.
pub(crate) fn both(one: IgnoredSettings, other: IgnoredSettings) -> IgnoredSettings {
    IgnoredSettings {
        global: one.global || other.global,
        tracing: one.tracing || other.tracing,
        templates: one.templates || other.templates,
        time_intervals: one.time_intervals || other.time_intervals,
        settings: one.settings || other.settings,
    }
}
