//! `am-rehearse routes`: shows the routing tree, or the routes of a label set.
ghost use Rattle.std.specs.Prelude.{◌≡◌, ◌≢◌, ◌⊎◌, false, map, option_map, true};
ghost use Rattle.serde_json.specs.View.{view};
ghost use Rattle.am_commands.specs.AskedRoutes.{PrintsAsked, RejectsAsked, ShowsLabels, is_verified};
ghost use Rattle.am_commands.specs.LabelWords.{AreNoLabels};
ghost use Rattle.am_commands.specs.Lines.{Adds};
ghost use Rattle.am_commands.specs.RouteLines.{ShowsTree};
ghost use Rattle.am_commands.specs.ShownRoutes.{PrintsRoutes, RejectsRoutes, ShowsRoutes};

use crate::config::configured;
use crate::label_words::labels_of;
use crate::route_lines::{reached_by, tree_text};
use crate::times::written_routes;
use crate::wrapped::read_configuration;
use am_alerts::route::Routes;
use am_command_line::exit_status::ExitStatus;
use am_config::written::WrittenRoutes;
use am_console::console::{Console, Document};
use am_console::files::PaintedOutput;
use am_json::device::Sink;
use std::rt::Files;

/// What is asked of the routes of a file.
#[derive(Clone, Copy)]
pub struct RoutesRequest<'r, 'a> {
    pub file: &'a str,
    pub labels: &'r [&'a str],
    pub verify: Option<&'a str>,
}

/// Prints the routes, and returns the status.
///
/// It is `Done` only if the routes of the configuration in a file were written: those that the labels reach, and their receivers are those
/// that are to be verified; or without labels the tree. It is `Differs` only if they were written, and the receivers are others.
pub fn routes<R: Files + Eprint + AllocGlobal>(
    rt: &R,
    console: &mut Console,
    request: RoutesRequest<'_, '_>,
) -> ExitStatus
    ensures done { result ≡ ExitStatus.Done → PrintsRoutes (map (λ word. word.now) request.entry.labels.now)
        (option_map (λ text. text.now) request.entry.verify) true
        (⟦<PaintedOutput as Sink>⟧.taken console.old.output) (⟦<PaintedOutput as Sink>⟧.taken console.new.output) }
    ensures differs { result ≡ ExitStatus.Differs → PrintsRoutes (map (λ word. word.now) request.entry.labels.now)
        (option_map (λ text. text.now) request.entry.verify) false
        (⟦<PaintedOutput as Sink>⟧.taken console.old.output) (⟦<PaintedOutput as Sink>⟧.taken console.new.output) }
{
    match read_configuration(rt, console, request.file) {
        Ok(document) => show_routes(rt, console, &document, request),
        Err(status) => status,
    }
}

/// Prints the routes of the configuration that a document's value has, and returns the status.
///
/// It is `Done` and `Differs` only as `routes` is, and `Rejected` only for a cause (`RejectsRoutes`).
pub fn show_routes<R: Files + Eprint + AllocGlobal>(
    rt: &R,
    console: &mut Console,
    document: &Document<'_>,
    request: RoutesRequest<'_, '_>,
) -> ExitStatus
    ensures done { result ≡ ExitStatus.Done → ShowsRoutes (map (λ word. word.now) request.entry.labels.now)
        (option_map (λ text. text.now) request.entry.verify) true (view document.now.value)
        (⟦<PaintedOutput as Sink>⟧.taken console.old.output) (⟦<PaintedOutput as Sink>⟧.taken console.new.output) }
    ensures differs { result ≡ ExitStatus.Differs → ShowsRoutes (map (λ word. word.now) request.entry.labels.now)
        (option_map (λ text. text.now) request.entry.verify) false (view document.now.value)
        (⟦<PaintedOutput as Sink>⟧.taken console.old.output) (⟦<PaintedOutput as Sink>⟧.taken console.new.output) }
    ensures rejected { result ≡ ExitStatus.Rejected → RejectsRoutes (map (λ word. word.now) request.entry.labels.now)
        (option_map (λ text. text.now) request.entry.verify) (view document.now.value) }
{
    let configured = match configured(rt, console, document) {
        Ok(configured) => configured,
        Err(status) => return status,
    };
    let status = print_routes(rt, console, document, &configured.config.routes, request);
    drop(configured);
    status
}

/// Prints the routes that the labels of a request reach, or all, and returns the status.
fn print_routes<R: Eprint + AllocGlobal>(
    rt: &R,
    console: &mut Console,
    document: &Document<'_>,
    routes: &Routes,
    request: RoutesRequest<'_, '_>,
) -> ExitStatus
    ensures done { result ≡ ExitStatus.Done → PrintsAsked (map (λ word. word.now) request.entry.labels.now)
        (option_map (λ text. text.now) request.entry.verify) routes.now true
        (⟦<PaintedOutput as Sink>⟧.taken console.old.output) (⟦<PaintedOutput as Sink>⟧.taken console.new.output) }
    ensures differs { result ≡ ExitStatus.Differs → PrintsAsked (map (λ word. word.now) request.entry.labels.now)
        (option_map (λ text. text.now) request.entry.verify) routes.now false
        (⟦<PaintedOutput as Sink>⟧.taken console.old.output) (⟦<PaintedOutput as Sink>⟧.taken console.new.output) }
    ensures rejected { result ≡ ExitStatus.Rejected → RejectsAsked (map (λ word. word.now) request.entry.labels.now)
        (option_map (λ text. text.now) request.entry.verify) }
{
    let Ok(written) = written_routes(rt.alloc(), &document.value) else {
        return console.complain_of_memory(rt);
    };
    if !request.labels.is_empty() {
        return print_reached(rt, console, routes, &written, request);
    }
    if request.verify.is_some() {
        let _ = eprintln!(rt; "am-rehearse: --verify needs labels, such as severity=critical");
        return ExitStatus::Rejected;
    }
    print_tree(rt, console, routes, &written)
}

/// Prints the routing tree, and returns the status.
fn print_tree<R: Eprint + AllocGlobal>(
    rt: &R,
    console: &mut Console,
    routes: &Routes,
    written: &WrittenRoutes<'_>,
) -> ExitStatus
    ensures done { result ≡ ExitStatus.Done → Adds (ShowsTree routes.now)
        (⟦<PaintedOutput as Sink>⟧.taken console.old.output) (⟦<PaintedOutput as Sink>⟧.taken console.new.output) }
    ensures only { (result ≢ ExitStatus.Differs) × (result ≢ ExitStatus.Rejected) }
{
    match tree_text(rt.alloc(), routes, written) {
        Ok(text) => console.print(rt, text.as_str()),
        Err(_) => console.complain_of_memory(rt),
    }
}

/// Prints the routes that a label set reaches, verifies their receivers if that is asked for, and returns the status.
fn print_reached<R: Eprint + AllocGlobal>(
    rt: &R,
    console: &mut Console,
    routes: &Routes,
    written: &WrittenRoutes<'_>,
    request: RoutesRequest<'_, '_>,
) -> ExitStatus
    ensures done { result ≡ ExitStatus.Done → Adds (ShowsLabels (map (λ word. word.now) request.entry.labels.now)
        (option_map (λ text. text.now) request.entry.verify) routes.now true)
        (⟦<PaintedOutput as Sink>⟧.taken console.old.output) (⟦<PaintedOutput as Sink>⟧.taken console.new.output) }
    ensures differs { result ≡ ExitStatus.Differs → Adds (ShowsLabels (map (λ word. word.now) request.entry.labels.now)
        (option_map (λ text. text.now) request.entry.verify) routes.now false)
        (⟦<PaintedOutput as Sink>⟧.taken console.old.output) (⟦<PaintedOutput as Sink>⟧.taken console.new.output) }
    ensures rejected { result ≡ ExitStatus.Rejected → AreNoLabels (map (λ word. word.now) request.entry.labels.now) }
{
    let labels = match labels_of(rt, console, request.labels) {
        Ok(labels) => labels,
        Err(status) => return status,
    };
    let Ok(reached) = reached_by(rt.alloc(), routes, written, &labels) else {
        return console.complain_of_memory(rt);
    };
    match console.print(rt, reached.lines.as_str()) {
        ExitStatus::Done => verified(rt, request.verify, reached.receivers.as_str()),
        unwritten => unwritten,
    }
}

/// Returns the status by what is verified, and says what differs.
fn verified<R: Eprint>(rt: &R, verify: Option<&str>, receivers: &str) -> ExitStatus
    ensures done { result ≡ ExitStatus.Done → is_verified (option_map (λ text. text.now) verify.entry) receivers.now ≡ true }
    ensures differs { result ≡ ExitStatus.Differs → is_verified (option_map (λ text. text.now) verify.entry) receivers.now ≡ false }
    ensures only { (result ≡ ExitStatus.Done) ⊎ (result ≡ ExitStatus.Differs) }
{
    let Some(wanted) = verify else {
        return ExitStatus::Done;
    };
    if wanted == receivers {
        return ExitStatus::Done;
    }
    let _ = eprintln!(rt; "am-rehearse: the label set reaches {receivers}, not {wanted}");
    ExitStatus::Differs
}
