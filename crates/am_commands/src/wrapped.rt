//! Configurations that are in files of other programs: in a Secret or a ConfigMap of Kubernetes, in the values of a Helm chart, or in the
//! file of a Mimir tenant. `read_configuration` takes them out.
ghost use Rattle.std.specs.Prelude.{◌≡◌, IfErr, IsTrue};
ghost use Rattle.am_console.specs.Complaints.{is_complaint, is_rejection};

use am_command_line::exit_status::ExitStatus;
use am_command_line::explain::FileShape;
use am_command_line::request::FaultFormat;
use am_console::console::{Console, Document, shown};
use am_console::foreign::chart_config;
use am_yaml::document::{DocumentFault, read_document};
use am_yaml::locate::{Part, locate};
use base64::engine::general_purpose::STANDARD;
use serde_json::Value;
use std::alloc::{AllocError, Global};
use std::rt::Files;

/// A configuration in a file of another program.
#[derive(Clone, Copy)]
struct Wrapped<'v> {
    /// The names on the way to it.
    list: &'static str,
    name: &'v str,
    value: &'v Value,
    /// Whether it is a text in base64.
    is_encoded: bool,
}

/// What `Secret` and `ConfigMap` call a configuration.
const NAMES: [&str; 2] = ["alertmanager.yaml", "alertmanager.yml"];

/// Reads a file with a configuration. From a file of another program the configuration is taken out; its faults are at the lines of the
/// file where it is there as it is, and else at its own. The error is the status.
pub fn read_configuration<'p, R: Files + Eprint + AllocGlobal>(
    rt: &R,
    console: &mut Console,
    path: &'p str,
) -> Result<Document<'p>, ExitStatus>
    ensures complains { IfErr result (λ status. IsTrue (is_complaint status)) }
    ensures silent { console.new.output ≡ console.old.output }
{
    let document = console.read(rt, path)?;
    let taken = match wrapped_in(&document.value) {
        None => None,
        Some(wrapped) => taken_out(rt, console, &document, wrapped)?,
    };
    match taken {
        None => Ok(document),
        Some((text, value)) => Ok(Document {
            path,
            text,
            value: without_switch(value),
            shape: FileShape::Fields,
        }),
    }
}

/// Returns a configuration without `enabled`, by which a chart says whether it makes a file of the rest.
fn without_switch(value: Value) -> Value {
    let mut value = value;
    if let Some(members) = value.as_object_mut() {
        if members.get("enabled").is_some_and(Value::is_boolean) {
            let _ = members.remove("enabled");
        }
    }
    value
}

/// Returns the configuration in a file of another program, if it is one with exactly one.
fn wrapped_in(file: &Value) -> Option<Wrapped<'_>> {
    if file.get("apiVersion").is_some() {
        return match file.get("kind").and_then(Value::as_str) {
            Some("ConfigMap") => text_in(file, "data", false),
            Some("Secret") => text_in(file, "stringData", false).or(text_in(file, "data", true)),
            _ => None,
        };
    }
    if let Some(value) = file.get("alertmanager_config") {
        return Some(Wrapped {
            list: "",
            name: "alertmanager_config",
            value,
            is_encoded: false,
        });
    }
    let (list, value) = chart_config(file)?;
    Some(Wrapped {
        list,
        name: "config",
        value,
        is_encoded: false,
    })
}

/// Returns the configuration among the texts of an object of Kubernetes: the one of the usual name, or the only one in YAML.
fn text_in<'v>(file: &'v Value, list: &'static str, is_encoded: bool) -> Option<Wrapped<'v>> {
    let pointer = if list == "data" {
        "/data"
    } else {
        "/stringData"
    };
    let texts = file.get(list)?.as_object()?;
    let mut found: Option<Wrapped<'v>> = None;
    for (name, value) in texts.iter() {
        let wrapped = Wrapped {
            list: pointer,
            name: name.as_str(),
            value,
            is_encoded,
        };
        if NAMES.contains(&name.as_str()) {
            return Some(wrapped);
        }
        if name.ends_with(".yaml") || name.ends_with(".yml") {
            if found.is_some() {
                return None;
            }
            found = Some(wrapped);
        }
    }
    found
}

/// Returns the text and the value of a configuration in a file; none if it can't be taken out. The error is the status.
fn taken_out<R: Eprint + AllocGlobal>(
    rt: &R,
    console: &Console,
    document: &Document<'_>,
    wrapped: Wrapped<'_>,
) -> Result<Option<(Vec<u8>, Value)>, ExitStatus>
    ensures { IfErr result (λ status. IsTrue (is_rejection status)) }
{
    let Ok(inner) = inner_text(rt.alloc(), wrapped) else {
        return Err(console.complain_of_memory(rt));
    };
    let Some(inner) = inner else {
        return Ok(None);
    };
    let Ok(lines) = lines_of(rt.alloc(), document, wrapped) else {
        return Err(console.complain_of_memory(rt));
    };
    let read = read_document(rt.alloc(), inner.as_slice());
    let in_lines = read_document(rt.alloc(), lines.as_slice());
    let is_same = match (&read, &in_lines) {
        (Ok(value), Ok(same)) => value == same,
        _ => false,
    };
    match read {
        Ok(value) if is_same => Ok(Some((lines, value))),
        Ok(value) => {
            if !wrapped.value.is_string() {
                return Ok(None);
            }
            say_lines(rt, console, document.path, wrapped.name);
            Ok(Some((inner, value)))
        }
        Err(fault) => {
            if wrapped.is_encoded {
                say_lines(rt, console, document.path, wrapped.name);
                return Err(console.complain_of_text(rt, document.path, fault));
            }
            let fault = in_lines.err().unwrap_or(fault);
            Err(console.complain_of_text(rt, document.path, fault))
        }
    }
}

/// Says that lines count within a text of a file, unless faults are printed as JSON.
fn say_lines<R: Eprint>(rt: &R, console: &Console, path: &str, name: &str) {
    if matches!(console.format, FaultFormat::Text) {
        let file = shown(path);
        let _ = eprintln!(rt; "{file}: lines and columns are those of the {name} in it");
    }
}

/// Returns the text of a configuration in a file; none if it isn't one.
fn inner_text(alloc: Global, wrapped: Wrapped<'_>) -> Result<Option<Vec<u8>>, AllocError> {
    let Some(text) = wrapped.value.as_str() else {
        let json = wrapped.value.to_string(alloc)?;
        return Ok(Some(json.as_bytes().to_vec(alloc)?));
    };
    if !wrapped.is_encoded {
        return Ok(Some(text.as_bytes().to_vec(alloc)?));
    }
    let mut encoded = String::new(alloc);
    for character in text.chars() {
        if !character.is_ascii_whitespace() {
            encoded.push(character)?;
        }
    }
    match STANDARD.decode(alloc, encoded.as_bytes()) {
        Ok(decoded) => Ok(Some(decoded)),
        Err(base64::DecodeAllocError::OutOfMemory) => Err(AllocError),
        Err(_) => Ok(None),
    }
}

/// Returns the lines of a file that have the configuration in it, behind as many empty lines as are above them.
fn lines_of(
    alloc: Global,
    document: &Document<'_>,
    wrapped: Wrapped<'_>,
) -> Result<Vec<u8>, AllocError> {
    let Ok(text) = std::str::from_utf8(document.text.as_slice()) else {
        return Ok(Vec::new(alloc));
    };
    let pointer = format!(in alloc; "{}/{}", wrapped.list, wrapped.name)?;
    let location = locate(alloc, text, pointer.as_str(), Part::Value)?;
    let first = if wrapped.value.is_string() {
        location.line
    } else {
        location.line.saturating_sub(1)
    };
    let lines = block_behind(alloc, text, first)?;
    lines.as_bytes().to_vec(alloc)
}

/// Returns the block of YAML that begins behind so many lines of a text, behind as many empty lines: up to a line that is less
/// indented than its first one.
fn block_behind(alloc: Global, text: &str, lines: usize) -> Result<String, AllocError> {
    let mut block = String::new(alloc);
    let mut least: Option<usize> = None;
    for (index, line) in text.lines().enumerate() {
        if index >= lines && !line.trim().is_empty() {
            let indent = line.len().saturating_sub(line.trim_start().len());
            if indent < *least.get_or_insert(indent) {
                return Ok(block);
            }
            block.push_str(line)?;
        }
        block.push('\n')?;
    }
    Ok(block)
}
