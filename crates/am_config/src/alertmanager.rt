//! Reads a whole `alertmanager.yml`, as JSON.
ghost use Rattle.std.specs.Prelude.{◌≡◌, [], IfErr, IfOk, IfSome, None};
ghost use Rattle.std.specs.Option.{option_copied};
ghost use Rattle.serde_json.specs.View.{view};
ghost use Rattle.am_json.specs.Faults.{HasFaults};
ghost use Rattle.am_config.specs.Receivers.{ReceiversAre};
ghost use Rattle.am_config.specs.Retention.{log_retention};
ghost use Rattle.am_config.specs.Routes.{RoutesAre, TimedRoutesAre};
ghost use Rattle.am_config.specs.Rules.{RulesAre};
ghost use Rattle.am_config.specs.Trees.{tree_in};
ghost use Rattle.am_model.specs.Config.{config_fault, greatest_limits};

use crate::collected::keep;
use crate::dropped::IgnoredSettings;
use crate::hours::Hours;
use crate::inhibit::read_rules;
use crate::optional::{has_items, non_null};
use crate::receiver::read_receivers;
use crate::route::{Routing, Tree, read_tree};
use crate::scalar::text_of;
use crate::settings::{Checking, keep_findings, keep_unknown};
use crate::times::{INTERVALS, MUTE, Times};
use am_alerts::route::Routes;
use am_alerts::sequence::Sequence;
use am_alerts::tree::TreeFault;
use am_json::fault::{FaultKind, InputFault};
use am_json::faults::{Faults, Refusal};
use am_json::reader::{Object, Reader};
use am_model::config::{Config, Limits, Receiver, Receivers};
use am_mute::inhibit::InhibitRule;
use am_settings::settings::Part;

/// The members of release 0.25, and `tracing` of later ones, which only concerns how things are sent.
const MEMBERS: [&str; 8] = [
    "global",
    "templates",
    "route",
    "receivers",
    "inhibit_rules",
    MUTE,
    INTERVALS,
    "tracing",
];

/// How long the notification log keeps an entry: 120 hours, in milliseconds.
const RETENTION: u64 = 432_000_000;

/// A configuration that was read.
#[derive(Drop)]
pub struct Alertmanager {
    pub config: Config,
    /// What else it says.
    pub dropped: IgnoredSettings,
    /// Whether a route names a time interval.
    pub timed: bool,
}

/// The parts of a configuration. They are whole where nothing was refused.
#[derive(Drop)]
struct Parts {
    tree: Tree,
    receivers: Vec<Receiver>,
    rules: Vec<InhibitRule>,
    timed: bool,
}

/// Reads Alertmanager's configuration. Where it can't be read exactly, or Alertmanager rejects it, all faults are
/// answered, in the order of reading: unknown members, `global`, `tracing`, `templates`, the times, the routes from the root
/// down, receivers and inhibition rules. Its limits are the greatest, and its log keeps an entry for 120 hours: the file says neither.
///
/// Without `hours` time intervals are read, but no route is muted by them; `timed` says whether one
/// would be. With it a location that isn't among its zones is refused, and clause `muted` says when
/// each route is muted.
pub fn read_alertmanager(
    reader: &Reader<'_, '_>,
    hours: Option<&Hours>,
    checking: Checking,
) -> Result<Alertmanager, Refusal>
    ensures sound { IfOk result (λ read. config_fault read.config ≡ None) }
    ensures limits { IfOk result (λ read. read.config.limits ≡ greatest_limits) }
    ensures retention { IfOk result (λ read. read.config.retention ≡ log_retention) }
    ensures routes { IfOk result (λ read. RoutesAre (view reader.now.value) read.config.routes) }
    ensures muted { IfOk result (λ read. TimedRoutesAre (option_copied hours.entry) (view reader.now.value) read.config.routes) }
    ensures receivers { IfOk result (λ read. ReceiversAre (view reader.now.value) read.config.receivers) }
    ensures rules { IfOk result (λ read. RulesAre (view reader.now.value) read.config.rules) }
    ensures reported { IfErr result HasFaults }
{
    let mut faults = Faults::none(reader.alloc());
    let mut dropped = IgnoredSettings::nothing();
    let parts = read_parts(&mut faults, &mut dropped, reader, hours, checking)?;
    let Some(parts) = parts else {
        return Err(refused(reader, faults));
    };
    if faults.is_empty() {
        return finish(reader, faults, dropped, parts);
    }
    Err(refused(reader, faults))
}

fn read_parts(
    faults: &mut Faults,
    dropped: &mut IgnoredSettings,
    reader: &Reader<'_, '_>,
    hours: Option<&Hours>,
    checking: Checking,
) -> Result<Option<Parts>, InputFault>
    ensures routes { IfOk result (λ parts. faults.new ≡ []
        → IfSome parts (λ p. TimedRoutesAre (option_copied hours.entry) (view reader.now.value) (tree_in p.tree))) }
    ensures receivers { IfOk result (λ parts. faults.new ≡ []
        → IfSome parts (λ p. ReceiversAre (view reader.now.value) p.receivers.items)) }
    ensures rules { IfOk result (λ parts. faults.new ≡ [] → IfSome parts (λ p. RulesAre (view reader.now.value) p.rules.items)) }
{
    let Some(top) = keep(faults, reader.object())? else {
        return Ok(None);
    };
    faults.only(&top, &MEMBERS)?;
    drop_parts(faults, dropped, &top, checking)?;
    let times = Times::read(faults, &top, hours)?;
    let mut routing = Routing::new(&top, times)?;
    let tree = read_tree(faults, &mut routing, &top)?;
    dropped.time_intervals = routing.times.has_unlisted();
    let receivers = read_receivers(faults, dropped, &top, checking)?;
    let rules = read_rules(faults, &top)?;
    let Some(tree) = tree else {
        return Ok(None);
    };
    Ok(Some(Parts {
        tree,
        receivers,
        rules,
        timed: routing.times.is_listed(),
    }))
}

/// Notes which members are dropped.
fn drop_parts(
    faults: &mut Faults,
    dropped: &mut IgnoredSettings,
    top: &Object<'_, '_>,
    checking: Checking,
) -> Result<(), InputFault> {
    if let Some(member) = non_null(top, "global") {
        if let Some(global) = faults.kept(member.object())? {
            match checking {
                Checking::AsAlertmanager => {
                    keep_findings(faults, &member, Part::Global, &global, None)?;
                },
                Checking::NamesAlone => keep_unknown(faults, Part::Global, &global)?,
            }
            dropped.global = !global.members().is_empty();
        }
    }
    if let Some(member) = non_null(top, "tracing") {
        dropped.tracing = faults.kept(member.object())?.is_some();
    }
    dropped.templates = has_items(faults, top, "templates")?;
    refuse_templates(faults, top)
}

/// Refuses what is in the list of templates and can be no file.
fn refuse_templates(faults: &mut Faults, top: &Object<'_, '_>) -> Result<(), InputFault> {
    let Some(member) = non_null(top, "templates") else {
        return Ok(());
    };
    let items = member.array().unwrap_or(&[]);
    for (index, value) in items.iter().enumerate() {
        faults.kept(text_of(&member.item(index, value), value))?;
    }
    Ok(())
}

/// The configuration of parts that are whole.
fn finish(
    reader: &Reader<'_, '_>,
    faults: Faults,
    dropped: IgnoredSettings,
    parts: Parts,
) -> Result<Alertmanager, Refusal>
    ensures sound { IfOk result (λ read. config_fault read.config ≡ None) }
    ensures limits { IfOk result (λ read. read.config.limits ≡ greatest_limits) }
    ensures retention { IfOk result (λ read. read.config.retention ≡ log_retention) }
    ensures routes { IfOk result (λ read. read.config.routes ≡ tree_in parts.tree) }
    ensures receivers { IfOk result (λ read. read.config.receivers ≡ parts.receivers.items) }
    ensures rules { IfOk result (λ read. read.config.rules ≡ parts.rules.items) }
    ensures reported { IfErr result HasFaults }
{
    let Parts {
        tree,
        receivers,
        rules,
        timed,
    } = parts;
    let Tree { root, routes } = tree;
    let routes = match Routes::nested(reader.alloc(), root, routes) {
        Ok(routes) => routes,
        Err(TreeFault::NoMemory) => return Err(Refusal::One(InputFault::NoMemory)),
        Err(TreeFault::Unfit(_)) => return Err(refused(reader, faults)),
    };
    let Ok(receivers) = Receivers::new(reader.alloc(), receivers) else {
        return Err(Refusal::One(InputFault::NoMemory));
    };
    let config = Config {
        routes,
        receivers,
        rules: Sequence::from(rules),
        retention: RETENTION,
        limits: Limits::greatest(),
    };
    match config.check() {
        Ok(()) => Ok(Alertmanager {
            config,
            dropped,
            timed,
        }),
        Err(_) => Err(refused(reader, faults)),
    }
}

/// The refusal for these faults; where there are none the configuration is refused as a whole.
fn refused(reader: &Reader<'_, '_>, mut faults: Faults) -> Refusal
    ensures { HasFaults result }
{
    if !faults.is_empty() {
        return Refusal::All(faults);
    }
    match faults.push(reader.refuse(FaultKind::BadValue)) {
        Ok(()) => Refusal::All(faults),
        Err(fault) => Refusal::One(fault),
    }
}
