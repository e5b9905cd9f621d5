//! `am-rehearse check`: says what configurations hold, or all that is wrong in them.
use crate::config::configured;
use crate::faults::{accept, accept_alone};
use crate::folders::add_files;
use crate::lint::Warnings;
use crate::once::accept_inputs;
use crate::reload_files::read_reload_files;
use crate::story_warnings::push_story_warnings;
use crate::times::written_routes;
use crate::warnings::push_warnings;
use crate::wrapped::read_configuration;
use am_alerts::route::Routes;
use am_command_line::exit_status::ExitStatus;
use am_console::console::{Console, Document, shown};
use am_input::configured::{Configured, read_file};
use am_input::form::{Form, alertmanager_in, form_of, has_configuration};
use am_input::input::Overrides;
use am_model::config::Config;
use std::alloc::{AllocError, Global};
use std::rt::Files;

/// What `check` changes in a story.
const NOTHING: Overrides = Overrides {
    output: None,
    until: None,
};

/// Checks each file, and those of each folder, and returns the status: that of the first file that isn't accepted, if there is
/// one. A configuration that is given takes the place of that of each story.
pub fn check<R: Files + Eprint + AllocGlobal + Clone + Drop>(
    rt: &R,
    console: &mut Console,
    paths: &[&str],
    config: Option<&str>,
) -> ExitStatus {
    if let Err(refused) = accept_all(rt, console, paths, config) {
        return refused;
    }
    let Some(path) = config else {
        return check_each(rt, console, paths, None);
    };
    let config = match read_configuration(rt, console, path) {
        Ok(config) => config,
        Err(status) => return status,
    };
    match read_file(rt.alloc(), &config.value, None) {
        Ok(_configured) => check_each(rt, console, paths, Some(&config)),
        Err(refusal) => console.complain_of_refusal(rt, &config, refusal),
    }
}

/// Refuses standard input as two of the files. The error is the status.
fn accept_all<R: Eprint + AllocGlobal>(
    rt: &R,
    console: &Console,
    files: &[&str],
    config: Option<&str>,
) -> Result<(), ExitStatus> {
    let mut inputs = Vec::new(rt.alloc());
    if inputs.push(config.unwrap_or("")).is_err() {
        return Err(console.complain_of_memory(rt));
    }
    for file in files {
        if inputs.push(*file).is_err() {
            return Err(console.complain_of_memory(rt));
        }
    }
    accept_inputs(rt, inputs.as_slice())
}

/// Checks each file and folder, and returns the status.
fn check_each<R: Files + Eprint + AllocGlobal + Clone + Drop>(
    rt: &R,
    console: &mut Console,
    paths: &[&str],
    config: Option<&Document<'_>>,
) -> ExitStatus {
    let mut status = ExitStatus::Done;
    let mut lines = String::new(rt.alloc());
    for path in paths {
        if let Err(fault) = check_path(rt, console, path, config, &mut lines) {
            if status == ExitStatus::Done {
                status = fault;
            }
        }
    }
    match console.print(rt, lines.as_str()) {
        ExitStatus::Done => status,
        unwritten => unwritten,
    }
}

/// Adds what a file holds, or each file of a folder. The error is the status.
fn check_path<R: Files + Eprint + AllocGlobal + Clone + Drop>(
    rt: &R,
    console: &mut Console,
    path: &str,
    config: Option<&Document<'_>>,
    lines: &mut String,
) -> Result<(), ExitStatus> {
    let mut files = Vec::new(rt.alloc());
    add_files(rt, console, path, &mut files)?;
    let mut status = Ok(());
    for file in files.as_slice() {
        if let Err(fault) = check_file(rt, console, file.as_str(), config, lines) {
            if status.is_ok() {
                status = Err(fault);
            }
        }
    }
    status
}

/// Adds what a file holds. The error is the status.
fn check_file<R: Files + Eprint + AllocGlobal>(
    rt: &R,
    console: &mut Console,
    path: &str,
    config: Option<&Document<'_>>,
    lines: &mut String,
) -> Result<(), ExitStatus> {
    let mut document = read_configuration(rt, console, path)?;
    if form_of(&document.value) != Form::Story {
        return summarize(rt, console, &document, lines);
    }
    read_reload_files(rt, console, &mut document, NOTHING)?;
    if let Some(config) = config {
        return check_under(rt, console, &document, config, lines);
    }
    if has_configuration(&document.value) {
        drop(accept(rt, console, &document, None, NOTHING)?);
        return summarize(rt, console, &document, lines);
    }
    accept_alone(rt, console, &document, NOTHING)?;
    let file = shown(path);
    let added = match writeln!(lines, "{file}: accepted; a story without a configuration") {
        Ok(()) => push_of_story(rt.alloc(), &document, None, lines),
        Err(refused) => Err(refused),
    };
    match added {
        Ok(()) => Ok(()),
        Err(_) => Err(console.complain_of_memory(rt)),
    }
}

/// Adds the warnings of a story that has no configuration, or these routes of one that is given.
fn push_of_story(
    alloc: Global,
    story: &Document<'_>,
    routes: Option<&Routes>,
    lines: &mut String,
) -> Result<(), AllocError> {
    let file = shown(story.path);
    let mut warnings = Warnings::new(alloc, file, story.text.as_slice(), lines)?;
    push_story_warnings(alloc, &story.value, routes, &mut warnings)
}

/// Adds what the configuration of a file holds. The error is the status.
fn summarize<R: Files + Eprint + AllocGlobal>(
    rt: &R,
    console: &Console,
    document: &Document<'_>,
    lines: &mut String,
) -> Result<(), ExitStatus> {
    let configured = configured(rt, console, document)?;
    let added = push_summary(rt, document.path, document, &configured, lines);
    drop(configured);
    match added {
        Ok(()) => Ok(()),
        Err(_) => Err(console.complain_of_memory(rt)),
    }
}

/// Adds that a story is accepted under a configuration that is given to it. The error is the status.
fn check_under<R: Files + Eprint + AllocGlobal>(
    rt: &R,
    console: &Console,
    story: &Document<'_>,
    config: &Document<'_>,
    lines: &mut String,
) -> Result<(), ExitStatus> {
    let input = accept(rt, console, story, Some(config), NOTHING)?;
    let file = shown(story.path);
    let config = shown(config.path);
    let added = match writeln!(lines, "{file}: accepted; a story under {config}") {
        Ok(()) => push_of_story(
            rt.alloc(),
            story,
            Some(&input.rehearsal.config.routes),
            lines,
        ),
        Err(refused) => Err(refused),
    };
    drop(input);
    match added {
        Ok(()) => Ok(()),
        Err(_) => Err(console.complain_of_memory(rt)),
    }
}

/// Adds how many receivers, integrations, rules and routes there are, what is ignored and the warnings.
fn push_summary<R: AllocGlobal>(
    rt: &R,
    path: &str,
    document: &Document<'_>,
    configured: &Configured,
    lines: &mut String,
) -> Result<(), AllocError> {
    let file = shown(path);
    let config = &configured.config;
    let mut integrations = 0usize;
    for receiver in config.receivers.as_slice() {
        integrations = integrations.saturating_add(receiver.integrations.len());
    }
    let receivers = config.receivers.len();
    let rules = config.rules.len();
    let routes = config.routes.last();
    write!(
        lines,
        "{file}: accepted; receivers: {receivers}, integrations: {integrations}, "
    )?;
    write!(
        lines,
        "inhibition rules: {rules}, routes below the root: {routes}\n"
    )?;
    if configured.ignored.is_something() {
        let ignored = configured.ignored;
        write!(lines, "{file}: ignored: {ignored}\n")?;
    }
    push_warnings_of(rt.alloc(), document, config, lines)
}

/// Adds the warnings of a file with this configuration.
fn push_warnings_of(
    alloc: Global,
    document: &Document<'_>,
    config: &Config,
    lines: &mut String,
) -> Result<(), AllocError> {
    let file = shown(document.path);
    let mut written = Vec::new(alloc);
    if let Some(root) = alertmanager_in(&document.value).and_then(|file| file.get("route")) {
        written.push(root)?;
    }
    let below = written_routes(alloc, &document.value)?;
    for route in below.as_slice() {
        written.push(*route)?;
    }
    let mut warnings = Warnings::new(alloc, file, document.text.as_slice(), lines)?;
    push_warnings(alloc, config, written.as_slice(), &mut warnings)?;
    if form_of(&document.value) == Form::Story {
        let routes = Some(&config.routes);
        push_story_warnings(alloc, &document.value, routes, &mut warnings)?;
    }
    Ok(())
}
