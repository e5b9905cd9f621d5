//! Names on the command line that no configuration of a story has.
ghost use Rattle.std.specs.Prelude.{◌≡◌, IfErr, IfOk, IsSome, IsTrue};
ghost use Rattle.std.specs.List.{list_any};
ghost use Rattle.std.specs.Str.{bytes_eq};
ghost use Rattle.serde_json.specs.View.{view};
ghost use Rattle.am_console.specs.Complaints.{is_rejection};
ghost use Rattle.am_model.specs.Config.{has_receiver};
ghost use Rattle.am_plans.specs.Configs.{configs_of};
ghost use Rattle.am_rehearse.specs.Ended.{LacksName, NamesUnknown, has_route, some_has_receiver, some_has_route};

use am_alerts::route::Child;
use am_command_line::exit_status::ExitStatus;
use am_command_line::request::Selection;
use am_command_line::spelling::Nearest;
use am_commands::system_zones::SystemZones;
use am_console::console::{Console, Document};
use am_input::input::{Changes, Input, read_input};
use am_model::config::Config;
use am_terms::dispatcher_change::DispatcherChange;
use std::alloc::{AllocError, Global};
use std::rt::Files;

/// Refuses a receiver or a route that the command line names if no configuration of the story has it, not even a reload. The error is
/// the status. A story that isn't readable is left to the play, which says why.
pub(crate) fn refuse_unknown<R: Files + Eprint + AllocGlobal>(
    rt: &R,
    console: &Console,
    selection: &Selection<'_>,
    story: &Document<'_>,
    changes: Changes<'_>,
) -> Result<(), ExitStatus>
    ensures complains { IfErr result (λ status. IsTrue (is_rejection status)) }
    ensures refused { IfErr result (λ status. status ≡ ExitStatus.Rejected
        → NamesUnknown selection.now changes.entry (view story.now.value)) }
{
    if selection.receiver.is_none() && selection.group.is_none() {
        return Ok(());
    }
    let mut files = SystemZones::new(rt);
    let Ok(input) = read_input(rt.alloc(), &story.value, changes, &mut files) else {
        return Ok(());
    };
    match words_on_unknown(rt.alloc(), selection, &input) {
        Ok(None) => Ok(()),
        Ok(Some(words)) => {
            let _ = eprintln!(rt; "am-rehearse: {words}");
            Err(ExitStatus::Rejected)
        }
        Err(_) => Err(console.complain_of_memory(rt)),
    }
}

/// Says which name no configuration has, if there is one, and which is probably meant.
fn words_on_unknown(
    alloc: Global,
    selection: &Selection<'_>,
    input: &Input,
) -> Result<Option<String>, AllocError>
    ensures { IfOk result (λ words. IsSome words
        → LacksName selection.now (configs_of input.now.rehearsal.config input.now.dispatcher_changes.items)) }
{
    let configs = configs_of(alloc, input)?;
    let configs = configs.as_slice();
    let own = &input.rehearsal.config;
    let later = input.dispatcher_changes.as_slice();
    if let Some(name) = selection.receiver {
        if !some_has_receiver(own, later, name) {
            let meant = nearest_receiver(alloc, configs, name)?;
            return Ok(Some(words(alloc, "--receiver: receiver", name, meant)?));
        }
    }
    if let Some(name) = selection.group {
        if !some_has_route(own, later, name) {
            let meant = nearest_route(alloc, configs, name)?;
            return Ok(Some(words(alloc, "--group: route", name, meant)?));
        }
    }
    Ok(None)
}

/// Returns the configuration that a story starts with, and those of its reloads.
fn configs_of(alloc: Global, input: &Input) -> Result<Vec<&Config>, AllocError> {
    let mut configs = Vec::new(alloc);
    configs.push(&input.rehearsal.config)?;
    for change in input.dispatcher_changes.as_slice() {
        configs.push(&change.config)?;
    }
    Ok(configs)
}

/// Returns whether a story's own configuration, or one of its reloads, has a receiver of this name.
fn some_has_receiver(own: &Config, later: &[DispatcherChange], name: &str) -> bool
    ensures { result ≡ some_has_receiver (configs_of own.now later.now) name.now }
{
    own.receivers.has(name) || later_has_receiver(later, name)
}

fn later_has_receiver(later: &[DispatcherChange], name: &str) -> bool
    ensures { result ≡ list_any (λ change. has_receiver change.config.receivers name.now) later.now }
{
    later.iter().any(|change| change.config.receivers.has(name))
}

/// Returns whether a story's own configuration, or one of its reloads, has a route of this name.
fn some_has_route(own: &Config, later: &[DispatcherChange], name: &str) -> bool
    ensures { result ≡ some_has_route (configs_of own.now later.now) name.now }
{
    has_route(own, name) || later_has_route(later, name)
}

fn later_has_route(later: &[DispatcherChange], name: &str) -> bool
    ensures { result ≡ list_any (λ change. has_route change.config name.now) later.now }
{
    later.iter().any(|change| has_route(&change.config, name))
}

/// Returns whether a configuration has a route of this name.
fn has_route(config: &Config, name: &str) -> bool
    ensures { result ≡ has_route config.now name.now }
{
    let routes = &config.routes;
    routes.root().name.as_str() == name || is_child(routes.children(), name)
}

fn is_child(children: &[Child], name: &str) -> bool
    ensures { result ≡ list_any (λ child. bytes_eq child.route.name name.now) children.now }
{
    children
        .iter()
        .any(|child| child.route.name.as_str() == name)
}

/// Returns the receiver whose name is nearest to this one, if one is near.
fn nearest_receiver<'n>(
    alloc: Global,
    configs: &[&'n Config],
    name: &'n str,
) -> Result<Option<&'n str>, AllocError> {
    let mut nearest = Nearest::to(name);
    for config in configs {
        for receiver in config.receivers.as_slice() {
            nearest.consider(alloc, receiver.name.as_str())?;
        }
    }
    Ok(nearest.found())
}

/// Returns the route whose name is nearest to this one, if one is near.
fn nearest_route<'n>(
    alloc: Global,
    configs: &[&'n Config],
    name: &'n str,
) -> Result<Option<&'n str>, AllocError> {
    let mut nearest = Nearest::to(name);
    for config in configs {
        nearest.consider(alloc, config.routes.root().name.as_str())?;
        for child in config.routes.children() {
            nearest.consider(alloc, child.route.name.as_str())?;
        }
    }
    Ok(nearest.found())
}

/// Says that an option names nothing, and what is probably meant.
fn words(
    alloc: Global,
    option: &str,
    name: &str,
    meant: Option<&str>,
) -> Result<String, AllocError> {
    match meant {
        None => format!(in alloc; "{option} `{name}` isn't defined"),
        Some(meant) => format!(in alloc;
            "{option} `{name}` isn't defined; did you mean `{meant}`?"
        ),
    }
}
