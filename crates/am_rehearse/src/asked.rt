//! What the command line of `play` says of all stories, and why it asks for nothing.
ghost use Rattle.std.specs.Prelude.{◌≡◌, IfErr, IfOk, option_map};
ghost use Rattle.am_rehearse.specs.Asked.{AsksFor, IsEnd, IsWrongEnd, IsWrongIn, IsWrongOutput, is_no_other, named_output, output_asked};

use am_alerts::duration::read_duration;
use am_command_line::request::PlayRequest;
use am_input::input::{Output, Overrides};
use am_terms::rehearsal::MAX_UNTIL;

/// Why a command line asks for nothing that can be played, whatever the stories are.
#[derive(Clone, Copy)]
pub enum RequestFault<'r> {
    /// `--no-failures` with `--all`, or with an output that isn't the notices.
    NotNotices,
    /// `--all` with an output that isn't the timeline.
    NotTimeline,
    /// The text of `--until` is no duration, or a longer one than a rehearsal can have.
    NoEnd { text: &'r str },
}

/// Returns what the command line says in place of the stories' own output and end. It has checked the name of the output.
pub fn overrides_asked<'r>(request: &PlayRequest<'r>) -> Result<Overrides, RequestFault<'r>>
    ensures asked { IfOk result (AsksFor request.now) }
    ensures refused { IfErr result (IsWrongIn request.now) }
{
    let output = match output_asked(request) {
        Ok(output) => output,
        Err(fault) => return Err(fault),
    };
    match until_asked(request.until) {
        Ok(until) => Ok(Overrides { output, until }),
        Err(fault) => Err(fault),
    }
}

/// Returns the output that takes the place of the stories' own, if one does.
fn output_asked<'r>(request: &PlayRequest<'r>) -> Result<Option<Output>, RequestFault<'r>>
    ensures asked { IfOk result (λ output. output ≡ output_asked request.now) }
    ensures refused { IfErr result (IsWrongOutput request.now) }
{
    if request.no_failures {
        if is_no_other(request.output, "notices") && !request.all {
            return Ok(Some(Output::Delivered));
        }
        return Err(RequestFault::NotNotices);
    }
    if request.all {
        if is_no_other(request.output, "timeline") {
            return Ok(Some(Output::Full));
        }
        return Err(RequestFault::NotTimeline);
    }
    match request.output {
        None => Ok(None),
        Some(name) => Ok(Some(output_named(name))),
    }
}

/// Returns whether no output is asked for, or the one of this name.
fn is_no_other(asked: Option<&str>, name: &str) -> bool
    ensures { result ≡ is_no_other name.now (option_map (λ text. text.now) asked.entry) }
{
    match asked {
        None => true,
        Some(asked) => asked == name,
    }
}

/// Returns the output of a name; the timeline, where it is another.
fn output_named(name: &str) -> Output
    ensures { result ≡ named_output name.now }
{
    match name {
        "notices" => Output::Notices,
        "json" => Output::Json,
        "html" => Output::Html,
        _ => Output::Timeline,
    }
}

/// Returns the end that takes the place of the stories' own, if one does.
pub(crate) fn until_asked(until: Option<&str>) -> Result<Option<u64>, RequestFault<'_>>
    ensures asked { IfOk result (IsEnd (option_map (λ text. text.now) until.entry)) }
    ensures refused { IfErr result (IsWrongEnd (option_map (λ text. text.now) until.entry)) }
{
    let Some(text) = until else {
        return Ok(None);
    };
    match read_duration(text) {
        Ok(until) if until <= MAX_UNTIL => Ok(Some(until)),
        _ => Err(RequestFault::NoEnd { text }),
    }
}
