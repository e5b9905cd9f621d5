//! The files that the reloads of a story name. The configurations in them are put into the story.
ghost use Rattle.std.specs.Prelude.{◌≡◌, IfErr, IsTrue};
ghost use Rattle.am_console.specs.Complaints.{is_complaint, is_rejection};

use crate::given::given_to;
use crate::wrapped::read_configuration;
use am_command_line::exit_status::ExitStatus;
use am_command_line::request::STANDARD_INPUT;
use am_console::console::{Console, Document};
use am_input::form::{Form, form_of, has_configuration};
use am_input::input::Overrides;
use serde_json::Value;
use std::alloc::{AllocError, Global};
use std::rt::Files;

/// A reload that names a file.
#[derive(Drop)]
struct ReloadFile {
    /// The JSON pointer of the reload.
    pointer: String,
    /// The path of the file.
    path: String,
}

/// Puts the configuration of each file that a reload of a story names into the story's value, in place of the name. A path
/// is from the story's folder on. The error is the status.
pub fn read_reload_files<R: Files + Eprint + AllocGlobal>(
    rt: &R,
    console: &mut Console,
    story: &mut Document<'_>,
    overrides: Overrides,
) -> Result<(), ExitStatus>
    ensures complains { IfErr result (λ status. IsTrue (is_complaint status)) }
    ensures silent { console.new.output ≡ console.old.output }
{
    let reloads = reloads_with_files(rt, console, story)?;
    for reload in &reloads {
        read_reload_file(rt, console, story, reload, overrides)?;
    }
    Ok(())
}

/// Returns the reloads of a story that name a file. The error is the status.
fn reloads_with_files<R: Eprint + AllocGlobal>(
    rt: &R,
    console: &Console,
    story: &Document<'_>,
) -> Result<Vec<ReloadFile>, ExitStatus>
    ensures { IfErr result (λ status. IsTrue (is_rejection status)) }
{
    let mut reloads = Vec::new(rt.alloc());
    let Some(member) = story.value.get("reload") else {
        return Ok(reloads);
    };
    let Some(values) = member.as_array() else {
        add_reload(rt, console, story, member, "/reload", &mut reloads)?;
        return Ok(reloads);
    };
    for (index, value) in values.iter().enumerate() {
        let Ok(pointer) = format!(in rt.alloc(); "/reload/{index}") else {
            return Err(console.complain_of_memory(rt));
        };
        add_reload(rt, console, story, value, pointer.as_str(), &mut reloads)?;
    }
    Ok(reloads)
}

/// Adds the reload at a JSON pointer, if it names a file. The error is the status.
fn add_reload<R: Eprint + AllocGlobal>(
    rt: &R,
    console: &Console,
    story: &Document<'_>,
    reload: &Value,
    pointer: &str,
    reloads: &mut Vec<ReloadFile>,
) -> Result<(), ExitStatus>
    ensures { IfErr result (λ status. IsTrue (is_rejection status)) }
{
    let Some(file) = reload.get("file") else {
        return Ok(());
    };
    let words = match file.as_str() {
        Some("") | None => "the path of a file is wanted here, such as new.yml",
        Some(_) if has_configuration(reload) => {
            "a reload has one configuration: `config`, `alertmanager` or `file`"
        }
        Some(file) => {
            return match push_reload(rt.alloc(), story.path, file, pointer, reloads) {
                Ok(()) => Ok(()),
                Err(_) => Err(console.complain_of_memory(rt)),
            };
        }
    };
    match format!(in rt.alloc(); "{pointer}/file") {
        Ok(pointer) => Err(console.complain_in_words(rt, story, pointer.as_str(), words)),
        Err(_) => Err(console.complain_of_memory(rt)),
    }
}

fn push_reload(
    alloc: Global,
    story: &str,
    file: &str,
    pointer: &str,
    reloads: &mut Vec<ReloadFile>,
) -> Result<(), AllocError> {
    let pointer = String::from_str(alloc, pointer)?;
    let path = path_from(alloc, story, file)?;
    reloads.push(ReloadFile { pointer, path })?;
    Ok(())
}

/// Returns the path of a file that a story names. It is never that of standard input.
fn path_from(alloc: Global, story: &str, file: &str) -> Result<String, AllocError> {
    let mut path = String::new(alloc);
    if !file.starts_with('/') {
        match story.rsplit_once('/') {
            Some((folder, _)) => {
                path.push_str(folder)?;
                path.push('/')?;
            }
            None if file == STANDARD_INPUT => path.push_str("./")?,
            None => {}
        }
    }
    path.push_str(file)?;
    Ok(path)
}

/// Puts the configuration of the file that a reload names into the story. The error is the status.
fn read_reload_file<R: Files + Eprint + AllocGlobal>(
    rt: &R,
    console: &mut Console,
    story: &mut Document<'_>,
    reload: &ReloadFile,
    overrides: Overrides,
) -> Result<(), ExitStatus>
    ensures complains { IfErr result (λ status. IsTrue (is_complaint status)) }
    ensures silent { console.new.output ≡ console.old.output }
{
    let mut config = read_configuration(rt, console, reload.path.as_str())?;
    drop(given_to(rt, console, story, &config, overrides)?);
    let Some((name, value)) = configuration_in(&mut config.value) else {
        return Ok(());
    };
    match put_configuration(rt.alloc(), &mut story.value, reload, name, value) {
        Ok(()) => Ok(()),
        Err(_) => Err(console.complain_of_memory(rt)),
    }
}

/// Takes the configuration out of a file, with the name that a reload gives it.
fn configuration_in(file: &mut Value) -> Option<(&'static str, Value)> {
    match form_of(file) {
        Form::Own => Some(("config", file.take())),
        Form::Alertmanager => Some(("alertmanager", file.take())),
        Form::Story if file.get("config").is_some() => {
            Some(("config", file.get_mut("config")?.take()))
        }
        Form::Story => Some(("alertmanager", file.get_mut("alertmanager")?.take())),
    }
}

/// Puts a configuration into a reload of a story, in place of the name of its file.
fn put_configuration(
    alloc: Global,
    story: &mut Value,
    reload: &ReloadFile,
    name: &str,
    value: Value,
) -> Result<(), AllocError> {
    let Some(reload) = story.pointer_mut(reload.pointer.as_str()) else {
        return Ok(());
    };
    let Some(fields) = reload.as_object_mut() else {
        return Ok(());
    };
    let name = String::from_str(alloc, name)?;
    fields.insert(name, value)?;
    let _ = fields.remove("file");
    Ok(())
}
