//! `am-rehearse story`: makes a story of what Prometheus or Alertmanager answers.
use crate::once::accept_inputs;
use crate::story_edits::edit_incident;
use am_alerts::duration::read_duration;
use am_command_line::exit_status::ExitStatus;
use am_command_line::explain::FileShape;
use am_command_line::request::StoryRequest;
use am_console::bounds::bounds;
use am_console::console::{Console, Document};
use am_incident::alertmanager::{read_alerts, read_silences};
use am_incident::incident::{Incident, SeenSilence};
use am_incident::prometheus::read_prometheus;
use am_json::fault::InputFault;
use am_json::faults::Refusal;
use am_json::reader::Reader;
use am_terms::rehearsal::MAX_UNTIL;
use serde_json::Value;
use std::rt::Files;

/// Prints the story, and returns the status.
pub fn story<R: Files + Eprint + AllocGlobal>(
    rt: &R,
    console: &mut Console,
    request: &StoryRequest<'_>,
) -> ExitStatus {
    match try_story(rt, console, request) {
        Ok(()) => ExitStatus::Done,
        Err(status) => status,
    }
}

fn try_story<R: Files + Eprint + AllocGlobal>(
    rt: &R,
    console: &mut Console,
    request: &StoryRequest<'_>,
) -> Result<(), ExitStatus> {
    let mut incident = incident_of(rt, console, request)?;
    edit_incident(rt, console, request, &mut incident)?;
    if incident.alerts.is_empty() {
        let _ = eprintln!(rt;
            "am-rehearse: the answer has no alert that fired; the story is empty"
        );
    }
    refuse_long(rt, console, &incident)?;
    if let Some(path) = request.silences {
        incident.silences = silences(rt, console, path)?;
    }
    if incident.join_repeats(rt.alloc()).is_err() {
        return Err(console.complain_of_memory(rt));
    }
    print(rt, console, &incident)
}

/// Reads the answer that the command line names. The error is the status.
fn incident_of<R: Files + Eprint + AllocGlobal>(
    rt: &R,
    console: &mut Console,
    request: &StoryRequest<'_>,
) -> Result<Incident, ExitStatus> {
    match (request.prometheus, request.alertmanager) {
        (Some(path), None) => {
            let gap = gap_of(rt, request.gap)?;
            accept_inputs(rt, &[path, request.silences.unwrap_or("")])?;
            prometheus(rt, console, path, gap)
        }
        (None, Some(path)) => {
            refuse_gap(rt, request.gap)?;
            accept_inputs(rt, &[path, request.silences.unwrap_or("")])?;
            alertmanager(rt, console, path)
        }
        _ => {
            let _ = eprintln!(rt;
                "am-rehearse: give either --prometheus FILE or --alertmanager FILE"
            );
            Err(ExitStatus::Rejected)
        }
    }
}

/// Refuses a gap where there are no samples. The error is the status.
fn refuse_gap<R: Eprint>(rt: &R, gap: Option<&str>) -> Result<(), ExitStatus> {
    if gap.is_none() {
        return Ok(());
    }
    let _ = eprintln!(rt; "am-rehearse: --gap is for --prometheus alone");
    Err(ExitStatus::Rejected)
}

/// Refuses what lasted longer than a story may. The error is the status.
fn refuse_long<R: Eprint + AllocGlobal>(
    rt: &R,
    console: &Console,
    incident: &Incident,
) -> Result<(), ExitStatus> {
    match incident.too_early(rt.alloc(), MAX_UNTIL) {
        Ok(None) => Ok(()),
        Ok(Some(start)) => {
            let days = bounds().days;
            let _ = eprintln!(rt;
                "am-rehearse: an alert fires from {start} on, and a story has at most {days} days"
            );
            Err(ExitStatus::Rejected)
        }
        Err(_) => Err(console.complain_of_memory(rt)),
    }
}

/// Reads what Prometheus answered. The error is the status.
fn prometheus<R: Files + Eprint + AllocGlobal>(
    rt: &R,
    console: &mut Console,
    path: &str,
    gap: Option<u64>,
) -> Result<Incident, ExitStatus> {
    let document = console.read(rt, path)?;
    refuse_error(rt, console, &document, "Prometheus")?;
    let read = read_prometheus(&Reader::top(rt.alloc(), &document.value), gap);
    accepted(rt, console, &document, read)
}

/// Reads what Alertmanager answered when it was asked for its alerts. The error is the status.
fn alertmanager<R: Files + Eprint + AllocGlobal>(
    rt: &R,
    console: &mut Console,
    path: &str,
) -> Result<Incident, ExitStatus> {
    let mut document = console.read(rt, path)?;
    document.shape = FileShape::List;
    refuse_error(rt, console, &document, "Alertmanager")?;
    let read = read_alerts(&Reader::top(rt.alloc(), &document.value));
    accepted(rt, console, &document, read)
}

/// Complains of an answer that is an error of this server, and says which. The error is the status.
fn refuse_error<R: Eprint + AllocGlobal>(
    rt: &R,
    console: &Console,
    document: &Document<'_>,
    server: &str,
) -> Result<(), ExitStatus> {
    match error_in(&document.value) {
        None => Ok(()),
        Some((pointer, said)) => Err(complain_of_error(
            rt, console, document, pointer, server, said,
        )),
    }
}

/// Returns where an answer says an error, and which, if it is one: `status` is `error`, or there are a `code` and a `message`.
fn error_in(answer: &Value) -> Option<(&'static str, &str)> {
    if answer.get("status").and_then(Value::as_str) == Some("error") {
        return match answer.get("error").and_then(Value::as_str) {
            Some(said) => Some(("/error", said)),
            None => Some(("/status", "it doesn't say which")),
        };
    }
    answer.get("code")?;
    Some(("/message", answer.get("message")?.as_str()?))
}

/// Complains of an error that a server says at this index of its answer, and returns the status.
fn complain_of_error<R: Eprint + AllocGlobal>(
    rt: &R,
    console: &Console,
    document: &Document<'_>,
    pointer: &str,
    server: &str,
    said: &str,
) -> ExitStatus {
    match format!(in rt.alloc(); "{server} answered with an error: {said}") {
        Ok(words) => console.complain_in_words(rt, document, pointer, words.as_str()),
        Err(_) => console.complain_of_memory(rt),
    }
}

/// Reads what Alertmanager answered when it was asked for its silences. The error is the status.
fn silences<R: Files + Eprint + AllocGlobal>(
    rt: &R,
    console: &mut Console,
    path: &str,
) -> Result<Vec<SeenSilence>, ExitStatus> {
    let mut document = console.read(rt, path)?;
    document.shape = FileShape::List;
    let read = read_silences(&Reader::top(rt.alloc(), &document.value));
    accepted(rt, console, &document, read)
}

/// Returns what was read of a document, or complains of its fault. The error is the status.
fn accepted<R: Eprint + AllocGlobal, T>(
    rt: &R,
    console: &Console,
    document: &Document<'_>,
    read: Result<T, InputFault>,
) -> Result<T, ExitStatus> {
    match read {
        Ok(read) => Ok(read),
        Err(fault) => Err(console.complain_of_refusal(rt, document, Refusal::One(fault))),
    }
}

/// Prints an incident as a story. The error is the status.
fn print<R: Files + Eprint + AllocGlobal>(
    rt: &R,
    console: &mut Console,
    incident: &Incident,
) -> Result<(), ExitStatus> {
    let Ok(text) = incident.story(rt.alloc(), MAX_UNTIL) else {
        return Err(console.complain_of_memory(rt));
    };
    match console.print(rt, text.as_str()) {
        ExitStatus::Done => Ok(()),
        status => Err(status),
    }
}

/// Returns the gap that the command line gives.
fn gap_of<R: Eprint>(rt: &R, gap: Option<&str>) -> Result<Option<u64>, ExitStatus> {
    let Some(text) = gap else {
        return Ok(None);
    };
    match read_duration(text) {
        Ok(gap) => Ok(Some(gap)),
        Err(_) => {
            let _ = eprintln!(rt; "am-rehearse: --gap: `{text}` is no duration; write 90s or 5m");
            Err(ExitStatus::Rejected)
        }
    }
}
