//! What a command reads from and prints to.
ghost use Rattle.std.specs.Prelude.{◌≡◌, ◌≢◌, ◌<◌, ◌++◌, ◌↔◌, IfErr, IfOk, IsTrue};
ghost use Rattle.serde_json.specs.View.{view};
ghost use Rattle.am_console.specs.Complaints.{is_complaint, is_rejection};
ghost use Rattle.am_console.specs.Source.{IsNoJsonAt, IsReadAt, shown_name};

use crate::bounds::{bounds, wrong_of};
use crate::config_words::explain_config;
use crate::dispatcher_change_words::explain_dispatcher_change;
use crate::files::{FileFault, PaintedOutput, Unread, read};
use crate::foreign::foreign_words;
use crate::matcher_words::explain_matcher;
use crate::setting_words::explain_setting;
use crate::source::SourceText;
use crate::story_words::explain_story;
use crate::time_words::explain_times;
use am_command_line::complaint::Complaint;
use am_command_line::exit_status::ExitStatus;
use am_command_line::explain::{FileShape, Wrong, explain};
use am_command_line::request::{FaultFormat, STANDARD_INPUT};
use am_json::device::{Sink, Source, StandardInput};
use am_json::fault::{FaultKind, InputFault};
use am_json::faults::{Fault, Faults, Refusal};
use am_json::transfer::write_all;
use am_yaml::document::DocumentFault;
use am_yaml::fault::YamlFault;
use am_yaml::locate::{Part, locate};
use am_yaml::location::Location;
use serde_json::Value;
use std::alloc::{AllocError, Global};
use std::rt::Files;

/// How many bytes of text are gone over to find where faults are. The whole text is, for each fault, so of a long file
/// with many faults only the first ones get a line and a column.
const WALKED: usize = 8_388_608;

/// What a command reads from and prints to.
#[derive(Drop)]
pub struct Console {
    pub input: StandardInput,
    pub output: PaintedOutput,
    pub format: FaultFormat,
    /// Whether complaints have colors.
    pub is_colored: bool,
    /// Whether standard error is a terminal.
    pub is_terminal: bool,
}

/// A file with its text and the value that it is read as.
#[derive(Drop)]
pub struct Document<'p> {
    pub path: &'p str,
    pub text: Vec<u8>,
    pub value: Value,
    /// What the whole file has to be, for complaints.
    pub shape: FileShape,
}

/// Returns the name of a file as people see it.
pub fn shown(path: &str) -> &str
    ensures { result.now ≡ shown_name path.now }
{
    if path == STANDARD_INPUT {
        "<stdin>"
    } else {
        path
    }
}

impl Console {
    /// Writes a text to the standard output, and returns the status.
    pub fn print<R: Eprint>(&mut self, rt: &R, text: &str) -> ExitStatus
        ensures done { result ≡ ExitStatus.Done → ⟦<PaintedOutput as Sink>⟧.taken self.new.output
            ≡ ⟦<PaintedOutput as Sink>⟧.taken self.old.output ++ text.now }
        ensures unwritable { (result ≡ ExitStatus.Unwritable) ↔ (⟦<PaintedOutput as Sink>⟧.failed self.old.output
            < ⟦<PaintedOutput as Sink>⟧.failed self.new.output) }
        ensures only { result ≢ ExitStatus.Done → result ≡ ExitStatus.Unwritable }
        ensures unread { self.new.input ≡ self.old.input }
    {
        if write_all(&mut self.output, text.as_bytes()).is_ok() {
            return ExitStatus::Done;
        }
        let _ = eprintln!(rt; "am-rehearse: output not writable");
        ExitStatus::Unwritable
    }

    /// Reads a file as a value. Where that fails it complains, and the error is the status.
    pub fn read<'p, R: Files + Eprint + AllocGlobal>(
        &mut self,
        rt: &R,
        path: &'p str,
    ) -> Result<Document<'p>, ExitStatus>
        ensures read { IfOk result (λ document. IsReadAt path.now (⟦<StandardInput as Source>⟧.given self.old.input)
            (⟦<StandardInput as Source>⟧.given self.new.input) document.text.items (view document.value)) }
        ensures rejected { IfErr result (λ status. status ≡ ExitStatus.Rejected → IsNoJsonAt path.now
            (⟦<StandardInput as Source>⟧.given self.old.input) (⟦<StandardInput as Source>⟧.given self.new.input)) }
        ensures complains { IfErr result (λ status. IsTrue (is_complaint status)) }
        ensures silent { self.new.output ≡ self.old.output }
    {
        match read(rt, &mut self.input, path) {
            Ok(SourceText { text, value }) => Ok(Document {
                path,
                text,
                value,
                shape: FileShape::Fields,
            }),
            Err(Unread::File { fault }) => Err(self.complain_of_file(rt, path, fault)),
            Err(Unread::Text { fault }) => Err(self.complain_of_text(rt, path, fault)),
        }
    }

    /// Complains of a file that isn't read, and returns the status.
    pub fn complain_of_file<R: Eprint + AllocGlobal>(
        &self,
        rt: &R,
        path: &str,
        fault: FileFault,
    ) -> ExitStatus
        ensures complains { IsTrue (is_complaint result) }
        ensures only { result ≢ ExitStatus.Rejected }
    {
        if fault == FileFault::NoMemory {
            return self.complain_of_memory(rt);
        }
        match self.complain(rt, path, None, None, "file", fault.message()) {
            Ok(()) => fault.status(),
            Err(_) => self.complain_of_memory(rt),
        }
    }

    /// Complains of a text that is neither JSON nor YAML, and returns the status.
    pub fn complain_of_text<R: Eprint + AllocGlobal>(
        &self,
        rt: &R,
        path: &str,
        fault: DocumentFault,
    ) -> ExitStatus
        ensures { IsTrue (is_rejection result) }
    {
        let location = location_of(fault);
        let Ok(message) = message_of(rt, fault) else {
            return self.complain_of_memory(rt);
        };
        match self.complain(rt, path, location, None, "text", message.as_str()) {
            Ok(()) => ExitStatus::Rejected,
            Err(_) => self.complain_of_memory(rt),
        }
    }

    /// Complains of each fault of a document, at its location in the text, in the order of lines, and returns the status.
    pub fn complain_of_faults<R: Eprint + AllocGlobal>(
        &self,
        rt: &R,
        document: &Document<'_>,
        faults: &Faults,
    ) -> ExitStatus
        ensures { IsTrue (is_rejection result) }
    {
        match foreign_words(rt.alloc(), &document.value) {
            Ok(None) => {}
            Ok(Some(words)) => return self.complain_in_words(rt, document, "", words.as_str()),
            Err(_) => return self.complain_of_memory(rt),
        }
        if is_configuration(&document.value, faults.as_slice()) {
            return self.complain_in_words(rt, document, "", NO_STORY);
        }
        let said = match in_order(rt.alloc(), document, faults.as_slice()) {
            Ok(ordered) => self.complain_of_each(rt, document, ordered.as_slice()),
            Err(refused) => Err(refused),
        };
        match said {
            Ok(()) => ExitStatus::Rejected,
            Err(_) => self.complain_of_memory(rt),
        }
    }

    fn complain_of_each<R: Eprint + AllocGlobal>(
        &self,
        rt: &R,
        document: &Document<'_>,
        located: &[Located<'_>],
    ) -> Result<(), AllocError> {
        for Located { fault, location } in located {
            let pointer = fault.pointer.as_str();
            self.complain_of_value(rt, document, pointer, fault.fault_kind, *location)?;
        }
        Ok(())
    }

    /// Complains of all for which a document is refused, and returns the status.
    pub fn complain_of_refusal<R: Eprint + AllocGlobal>(
        &self,
        rt: &R,
        document: &Document<'_>,
        refusal: Refusal,
    ) -> ExitStatus
        ensures complains { IsTrue (is_rejection result) }
        ensures memory { refusal ≡ Refusal.One InputFault.NoMemory → result ≡ ExitStatus.NoMemory }
    {
        match refusal {
            Refusal::All(faults) => self.complain_of_faults(rt, document, &faults),
            Refusal::One(InputFault::NoMemory) => self.complain_of_memory(rt),
            Refusal::One(
                InputFault::Refused {
                    pointer,
                    fault_kind,
                },
            ) => self.complain_of_one(rt, document, pointer.as_str(), fault_kind),
        }
    }

    /// Complains of the one fault of a document, and returns the status. Where the configuration is missing, the file can be another
    /// program's.
    fn complain_of_one<R: Eprint + AllocGlobal>(
        &self,
        rt: &R,
        document: &Document<'_>,
        pointer: &str,
        fault_kind: FaultKind,
    ) -> ExitStatus
        ensures { IsTrue (is_rejection result) }
    {
        if pointer == "/config" {
            match foreign_words(rt.alloc(), &document.value) {
                Ok(None) => {}
                Ok(Some(words)) => return self.complain_in_words(rt, document, "", words.as_str()),
                Err(_) => return self.complain_of_memory(rt),
            }
        }
        match self.complain_at(rt, document, pointer, fault_kind) {
            Ok(()) => ExitStatus::Rejected,
            Err(_) => self.complain_of_memory(rt),
        }
    }

    /// Complains of a value of a document in these words, and returns the status.
    pub fn complain_in_words<R: Eprint + AllocGlobal>(
        &self,
        rt: &R,
        document: &Document<'_>,
        pointer: &str,
        words: &str,
    ) -> ExitStatus
        ensures { IsTrue (is_rejection result) }
    {
        let kind = FaultKind::BadValue;
        let said = match location_in(rt.alloc(), document, pointer, kind) {
            Err(refused) => Err(refused),
            Ok(location) => {
                let kind = wrong_of(kind).name();
                self.complain(rt, document.path, location, Some(pointer), kind, words)
            }
        };
        match said {
            Ok(()) => ExitStatus::Rejected,
            Err(_) => self.complain_of_memory(rt),
        }
    }

    /// Complains that there was no memory, and returns the status.
    pub fn complain_of_memory<R: Eprint>(&self, rt: &R) -> ExitStatus
        ensures { result ≡ ExitStatus.NoMemory }
    {
        let _ = eprintln!(rt; "am-rehearse: no memory");
        ExitStatus::NoMemory
    }

    /// Complains of a value of a document, at its location in the text.
    fn complain_at<R: Eprint + AllocGlobal>(
        &self,
        rt: &R,
        document: &Document<'_>,
        pointer: &str,
        fault_kind: FaultKind,
    ) -> Result<(), AllocError> {
        let location = location_in(rt.alloc(), document, pointer, fault_kind)?;
        self.complain_of_value(rt, document, pointer, fault_kind, location)
    }

    /// Complains of a value of a document, which is at this location of the text, if that is known.
    fn complain_of_value<R: Eprint + AllocGlobal>(
        &self,
        rt: &R,
        document: &Document<'_>,
        pointer: &str,
        fault_kind: FaultKind,
        location: Option<Location>,
    ) -> Result<(), AllocError> {
        let message = words_for(rt.alloc(), document, pointer, fault_kind)?;
        let kind = wrong_of(fault_kind).name();
        self.complain(
            rt,
            document.path,
            location,
            Some(pointer),
            kind,
            message.as_str(),
        )
    }

    /// Prints a complaint in a line.
    fn complain<R: Eprint + AllocGlobal>(
        &self,
        rt: &R,
        path: &str,
        location: Option<Location>,
        pointer: Option<&str>,
        kind: &str,
        message: &str,
    ) -> Result<(), AllocError> {
        let complaint = Complaint {
            file: shown(path),
            location,
            pointer,
            kind,
            message,
        };
        let line = match self.format {
            FaultFormat::Text => complaint.text(rt.alloc(), self.is_colored)?,
            FaultFormat::Json => complaint.json(rt.alloc())?,
        };
        let _ = eprintln!(rt; "{line}");
        Ok(())
    }
}

/// What is said of a configuration where a story is wanted.
const NO_STORY: &str =
    "this is a configuration, not a story; give it with --config, and a story of its alerts";

/// Returns whether a file with these faults is a configuration where a story is wanted: it has routes and receivers, which no
/// story has.
fn is_configuration(file: &Value, faults: &[Fault]) -> bool {
    let is_story_wanted = faults.iter().any(|fault| fault.pointer.as_str() == "/route"
        && fault.fault_kind == FaultKind::Unknown);
    is_story_wanted && file.get("receivers").is_some()
}

/// Returns what is wrong with the value at a JSON pointer, in words.
fn words_for(
    alloc: Global,
    document: &Document<'_>,
    pointer: &str,
    fault_kind: FaultKind,
) -> Result<String, AllocError> {
    let top = &document.value;
    if let Some(words) = explain_config(alloc, top, pointer, fault_kind)? {
        return Ok(words);
    }
    if let Some(words) = explain_times(alloc, top, pointer, fault_kind)? {
        return Ok(words);
    }
    if let Some(words) = explain_story(alloc, top, pointer, fault_kind)? {
        return Ok(words);
    }
    if let Some(words) = explain_dispatcher_change(alloc, top, pointer, fault_kind)? {
        return Ok(words);
    }
    if let Some(words) = explain_matcher(alloc, top, pointer, fault_kind)? {
        return Ok(words);
    }
    if let Some(words) = explain_setting(alloc, top, pointer, fault_kind)? {
        return Ok(words);
    }
    let wrong = wrong_of(fault_kind);
    explain(alloc, top, pointer, wrong, document.shape, &bounds())
}

/// A fault, and where its value is in the text, if that is known.
#[derive(Clone, Copy)]
struct Located<'f> {
    fault: &'f Fault,
    location: Option<Location>,
}

impl Located<'_> {
    /// Returns whether this fault is before another. One whose location isn't known is behind all.
    fn comes_before(&self, other: &Located<'_>) -> bool {
        match (self.location, other.location) {
            (Some(location), Some(other)) => {
                location.line < other.line
                    || location.line == other.line && location.column < other.column
            }
            (Some(_), None) => true,
            (None, _) => false,
        }
    }
}

/// Returns the faults of a document in the order of lines and columns. Of a long text only the first ones that were found
/// have a location; the others are behind them.
fn in_order<'f>(
    alloc: Global,
    document: &Document<'_>,
    faults: &'f [Fault],
) -> Result<Vec<Located<'f>>, AllocError> {
    let walked = (WALKED / document.text.len().max(1)).max(1);
    let mut ordered: Vec<Located<'f>> = Vec::new(alloc);
    for (index, fault) in faults.iter().enumerate() {
        let location = if index < walked {
            location_in(alloc, document, fault.pointer.as_str(), fault.fault_kind)?
        } else {
            None
        };
        let located = Located { fault, location };
        let end = ordered.len();
        let later = ordered.iter().position(|later| located.comes_before(later));
        ordered.insert(later.unwrap_or(end).min(end), located)?;
    }
    Ok(ordered)
}

/// Returns where a value of a document is in its text; of an unknown field where its name is.
fn location_in(
    alloc: Global,
    document: &Document<'_>,
    pointer: &str,
    fault_kind: FaultKind,
) -> Result<Option<Location>, AllocError> {
    let part = if wrong_of(fault_kind) == Wrong::Unknown {
        Part::Key
    } else {
        Part::Value
    };
    match std::str::from_utf8(document.text.as_slice()) {
        Ok(text) => Ok(Some(locate(alloc, text, pointer, part)?)),
        Err(_) => Ok(None),
    }
}

/// Returns where a text isn't read, if that is known.
fn location_of(fault: DocumentFault) -> Option<Location> {
    match fault {
        DocumentFault::NotText { line, column }
        | DocumentFault::NotJson { line, column }
        | DocumentFault::NotYaml {
            fault: YamlFault::Refused { line, column, .. },
        } => Some(Location { line, column }),
        DocumentFault::NotYaml { .. } | DocumentFault::NoMemory => None,
    }
}

/// Returns why a text isn't read, in words.
fn message_of<R: AllocGlobal>(rt: &R, fault: DocumentFault) -> Result<String, AllocError> {
    match fault {
        DocumentFault::NotYaml {
            fault: YamlFault::Refused { reason, .. },
        } => format!(in rt.alloc(); "{reason}"),
        fault => format!(in rt.alloc(); "{fault}"),
    }
}
