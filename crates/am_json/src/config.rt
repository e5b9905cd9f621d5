//! The configuration of a dispatcher, from JSON.
//!
//! What is built of several values is checked once, by the type that it becomes. Only when that
//! fails, `refusal` looks for the pointer of the fault. So a retention of zero is a fault of the
//! whole configuration, and a `group_interval` or `repeat_interval` of zero is one of its own
//! value.
ghost use Rattle.std.specs.Prelude.{◌≡◌, ◌≢◌, ◌&&◌, IfErr, IfOk, IsTrue, None, codes};
ghost use Rattle.std.specs.List.{list_all};
ghost use Rattle.am_alerts.specs.RoutingTree.{level_fault, tree_of};
ghost use Rattle.am_model.specs.Config.{config_fault};
ghost use Rattle.am_json.specs.Configured.{DecodesToConfig, DecodesToLimits, HasParts, are_at_most, config_compares_texts};
ghost use Rattle.am_json.specs.Configured.{has_few_integrations, has_few_parts, limits_in, most_matchers};
ghost use Rattle.am_json.specs.Decoding.{IsNumber, IsObject, HasOr};
ghost use Rattle.am_json.specs.Read.{Excludes};
ghost use Rattle.serde_json.specs.View.{members_view, view};

use crate::duration::duration_or;
use crate::fault::InputFault;
use crate::reader::{FromJson, Mode, Object, Reader};
use crate::refusal::{refuse_config, refuse_receivers, refuse_routes};
use crate::route::read_root;
use am_alerts::limits::{MAX_CHILDREN, MAX_MATCHERS};
use am_alerts::route::{Child, Route, RouteFault, Routes};
use am_alerts::sequence::Sequence;
use am_model::config::{
    Config, ConfigFault, Integration, Limits, MAX_RECEIVERS, Receiver, Receivers,
};
use am_mute::inhibit::InhibitRule;

/// How long the notification log keeps an entry: 120 hours, in milliseconds.
const RETENTION: u64 = 432_000_000;

/// The greatest number of receivers of a scenario.
pub(crate) const FEW_RECEIVERS: usize = 64;

/// The greatest number of integrations of a receiver of a scenario.
pub(crate) const FEW_INTEGRATIONS: usize = 8;

/// The greatest number of inhibition rules of a scenario.
pub(crate) const FEW_RULES: usize = 256;

/// The greatest number of matchers in a list of a scenario.
pub(crate) const FEW_MATCHERS: usize = 32;

/// How many bytes the value of a label or of a matcher may have in a scenario.
pub(crate) const FEW_BYTES: usize = 1_024;

/// Reads a configuration. One that no dispatcher may have is refused.
pub fn read_config(reader: &Reader<'_, '_>) -> Result<Config, InputFault>
    ensures fault { IfOk result (λ config. config_fault config ≡ None) }
    ensures decoded { IfOk result (DecodesToConfig reader.now.mode (view reader.now.value)) }
    ensures refused { IfErr result (Excludes (λ config.
        DecodesToConfig reader.now.mode (view reader.now.value) config × IsTrue (config_compares_texts config))) }
{
    let config = read_parts(reader)?;
    match config.check() {
        Ok(()) if keeps_bounds(reader.mode(), &config) => Ok(config),
        Ok(()) => Err(refuse_config(reader, &config, ConfigFault::BadLimit)),
        Err(cause) => Err(refuse_config(reader, &config, cause)),
    }
}

/// The limits where a configuration says none, none of which it may pass.
///
/// A scenario of `am-run` keeps those of a small dispatcher: it gives the same report as ever.
pub(crate) fn limits_in(mode: Mode) -> Limits
    ensures { result ≡ limits_in mode }
{
    match mode {
        Mode::Lenient => Limits::default(),
        Mode::Strict => Limits::greatest(),
    }
}

/// How many matchers a list may have. A scenario of `am-run` keeps that of a small dispatcher.
pub fn most_matchers(mode: Mode) -> usize
    ensures { result ≡ most_matchers mode }
{
    match mode {
        Mode::Lenient => FEW_MATCHERS,
        Mode::Strict => MAX_MATCHERS,
    }
}

/// Whether a configuration is no larger than the mode allows.
fn keeps_bounds(mode: Mode, config: &Config) -> bool
    ensures { result ≡ (are_at_most (limits_in mode) config.now.limits && has_few_parts mode config.now) }
{
    keeps_limits(mode, config) && has_few_parts(mode, config)
}

/// Whether no limit of a configuration is above those of the mode.
fn keeps_limits(mode: Mode, config: &Config) -> bool
    ensures { result ≡ are_at_most (limits_in mode) config.now.limits }
{
    let greatest = limits_in(mode);
    let limits = &config.limits;
    limits.alerts <= greatest.alerts
        && limits.groups <= greatest.groups
        && limits.silences <= greatest.silences
        && limits.flushes <= greatest.flushes
        && limits.history <= greatest.history
}

/// Whether a configuration has no more receivers, integrations and rules than the mode allows.
///
/// A scenario of `am-run` keeps those of a small dispatcher.
fn has_few_parts(mode: Mode, config: &Config) -> bool
    ensures { result ≡ has_few_parts mode config.now }
{
    match mode {
        Mode::Strict => true,
        Mode::Lenient => {
            config.receivers.len() <= FEW_RECEIVERS
                && have_few_integrations(config.receivers.as_slice())
                && config.rules.len() <= FEW_RULES
        }
    }
}

/// Whether no receiver has more integrations than one of a scenario.
fn have_few_integrations(receivers: &[Receiver]) -> bool
    ensures { result ≡ list_all has_few_integrations receivers.now }
{
    receivers
        .iter()
        .all(|r| r.integrations.len() <= FEW_INTEGRATIONS)
}

/// Reads the parts of a configuration.
fn read_parts(reader: &Reader<'_, '_>) -> Result<Config, InputFault>
    ensures decoded { IfOk result (IsObject (HasParts reader.now.mode) (view reader.now.value)) }
    ensures refused { IfErr result (Excludes (λ config.
        DecodesToConfig reader.now.mode (view reader.now.value) config × IsTrue (config_compares_texts config))) }
{
    let config = reader.object()?;
    config.only(&[
        "retention",
        "limits",
        "receivers",
        "route",
        "children",
        "inhibit",
    ])?;
    let retention = duration_or(&config, "retention", RETENTION)?;
    let limits = read_limits(&config)?;
    let receivers = config.required("receivers")?.list::<Receiver>()?;
    let root = read_root(&config.required("route")?)?;
    let children = config.list_or_none::<Child>("children")?;
    let rules = config.list_or_none::<InhibitRule>("inhibit")?;
    if receivers.len() > MAX_RECEIVERS {
        return Err(refuse_receivers(reader));
    }
    let routes = make_routes(reader, root, children)?;
    let by_name = Receivers::new(reader.alloc(), receivers)?;
    Ok(Config {
        routes,
        receivers: by_name,
        rules: Sequence::from(rules),
        retention,
        limits,
    })
}

/// The routing tree of a root and its children. They are counted first, since names are compared
/// pairwise.
fn make_routes(
    reader: &Reader<'_, '_>,
    root: Route,
    children: Vec<Child>,
) -> Result<Routes, InputFault>
    ensures made { IfOk result (λ routes. routes ≡ tree_of root children.items) }
    ensures sound { IfOk result (λ routes. level_fault routes ≡ None) }
    ensures refused { IfErr result (λ _. level_fault (tree_of root children.items) ≢ None) }
{
    if children.len() > MAX_CHILDREN {
        return Err(refuse_routes(reader, RouteFault::TooMany));
    }
    match Routes::new(root, children) {
        Ok(routes) => Ok(routes),
        Err(cause) => Err(refuse_routes(reader, cause)),
    }
}

/// The limits of a configuration, or those of the mode where it has none.
fn read_limits(config: &Object<'_, '_>) -> Result<Limits, InputFault>
    ensures decoded { IfOk result (HasOr (DecodesToLimits config.now.mode) (limits_in config.now.mode) (codes "limits")
        (members_view config.now.members)) }
    ensures refused { IfErr result (Excludes (HasOr (DecodesToLimits config.now.mode) (limits_in config.now.mode) (codes "limits")
        (members_view config.now.members))) }
{
    match config.optional("limits") {
        None => Ok(limits_in(config.mode())),
        Some(member) => Limits::read(&member),
    }
}

impl<'v> FromJson<'v> for Limits {
    ghost use Rattle.std.specs.Prelude.{true};

    ghost decodes_to = { λ mode value limits. DecodesToLimits mode value limits };

    ghost never_refused = { λ _. true };

    fn read(reader: &Reader<'v, '_>) -> Result<Limits, InputFault> {
        let limits = reader.object()?;
        limits.only(&["names", "groups", "silences", "flushes", "history"])?;
        let most = limits_in(limits.mode());
        Ok(Limits {
            alerts: read_limit(&limits, "names", most.alerts)?,
            groups: read_limit(&limits, "groups", most.groups)?,
            silences: read_limit(&limits, "silences", most.silences)?,
            flushes: read_limit(&limits, "flushes", most.flushes)?,
            history: read_limit(&limits, "history", most.history)?,
        })
    }
}

fn read_limit(limits: &Object<'_, '_>, name: &str, absent: usize) -> Result<usize, InputFault>
    ensures decoded { IfOk result (HasOr IsNumber absent name.now (members_view limits.now.members)) }
    ensures refused { IfErr result (Excludes (HasOr IsNumber absent name.now (members_view limits.now.members))) }
{
    Ok(limits.number_or(name, absent as u64)? as usize)
}

impl<'v> FromJson<'v> for Receiver {
    ghost use Rattle.am_json.specs.Configured.{DecodesToReceiver};
    ghost use Rattle.std.specs.Prelude.{true};

    ghost decodes_to = { λ mode value receiver. DecodesToReceiver mode value receiver };

    ghost never_refused = { λ _. true };

    fn read(reader: &Reader<'v, '_>) -> Result<Receiver, InputFault> {
        let receiver = reader.object()?;
        receiver.only(&["name", "integrations"])?;
        let name = receiver.required_text("name")?;
        let integrations = receiver.required("integrations")?.list::<Integration>()?;
        Ok(Receiver {
            name,
            integrations: Sequence::from(integrations),
        })
    }
}

impl<'v> FromJson<'v> for Integration {
    ghost use Rattle.am_json.specs.Configured.{DecodesToIntegration};
    ghost use Rattle.std.specs.Prelude.{true};

    ghost decodes_to = { λ mode value integration. DecodesToIntegration mode value integration };

    ghost never_refused = { λ _. true };

    fn read(reader: &Reader<'v, '_>) -> Result<Integration, InputFault> {
        let integration = reader.object()?;
        integration.only(&["kind", "send_resolved"])?;
        let kind = integration.required_text("kind")?;
        let send_resolved = integration.flag_or("send_resolved", true)?;
        Ok(Integration {
            kind,
            send_resolved,
        })
    }
}
