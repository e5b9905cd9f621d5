//! What the command line of `play` wants to see of its stories.
ghost use Rattle.std.specs.Prelude.{◌≡◌, IfErr, IfOk, IsTrue, map, option_map};
ghost use Rattle.am_console.specs.Complaints.{is_rejection};
ghost use Rattle.am_console.specs.MatcherWords.{HasNoMatcher, WriteMatchers};
ghost use Rattle.am_rehearse.specs.Asked.{AsksFor, AsksToSee, IsEnd, IsWrong};

use crate::asked::{RequestFault, overrides_asked, until_asked};
use am_alerts::sequence::Sequence;
use am_alerts::text::Text;
use am_command_line::exit_status::ExitStatus;
use am_command_line::request::{PlayRequest, STANDARD_INPUT, Selection};
use am_commands::matchers::matchers_of;
use am_console::bounds::bounds;
use am_console::console::Console;
use am_input::input::Overrides;
use am_render::output_options::OutputOptions;
use am_seed::Seed;
use am_timeline::filtered::Filter;

/// Returns what the command line says in place of the stories' own output and end. The error is the status.
pub(crate) fn overrides_of<R: Eprint>(
    rt: &R,
    request: &PlayRequest<'_>,
) -> Result<Overrides, ExitStatus>
    ensures asked { IfOk result (AsksFor request.now) }
    ensures refused { IfErr result (λ status. (status ≡ ExitStatus.Rejected) × IsWrong request.now) }
{
    match overrides_asked(request) {
        Ok(overrides) => Ok(overrides),
        Err(fault) => Err(refuse_request(rt, fault)),
    }
}

/// Says why the command line asks for nothing, and returns the status.
fn refuse_request<R: Eprint>(rt: &R, fault: RequestFault<'_>) -> ExitStatus
    ensures { result ≡ ExitStatus.Rejected }
{
    match fault {
        RequestFault::NotNotices => {
            let _ = eprintln!(rt; "am-rehearse: --no-failures is for the notices alone");
        }
        RequestFault::NotTimeline => {
            let _ = eprintln!(rt; "am-rehearse: --all is for the timeline alone");
        }
        RequestFault::NoEnd { text } => {
            let days = bounds().days;
            let _ = eprintln!(rt;
                "am-rehearse: --until: `{text}` is no duration up to {days}d; write 5h or 2h30m"
            );
        }
    }
    ExitStatus::Rejected
}

/// Returns what of the rehearsal of the story of a file the command line wants to see. The error is the status.
pub(crate) fn options_of<R: Eprint + AllocGlobal>(
    rt: &R,
    seed: Seed,
    console: &Console,
    request: &PlayRequest<'_>,
    path: &str,
) -> Result<OutputOptions, ExitStatus>
    ensures asked { IfOk result (AsksToSee request.now) }
    ensures complains { IfErr result (λ status. IsTrue (is_rejection status)) }
    ensures refused { IfErr result (λ status. status ≡ ExitStatus.Rejected
        → HasNoMatcher (map (λ text. text.now) request.now.selection.alerts.items)) }
{
    let story = text_or_complain(rt, console, page_title(path))?;
    let config = text_of(rt, console, request.config)?;
    let filter = filter_of(rt, console, &request.selection)?;
    Ok(OutputOptions {
        filter,
        changes: request.selection.changes,
        junit: request.junit.is_some(),
        story,
        config,
        seed,
    })
}

/// Returns the filter that the command line gives. The error is the status.
fn filter_of<R: Eprint + AllocGlobal>(
    rt: &R,
    console: &Console,
    selection: &Selection<'_>,
) -> Result<Filter, ExitStatus>
    ensures receiver { IfOk result (λ filter. filter.receiver ≡ option_map (λ text. text.now) selection.now.receiver) }
    ensures route { IfOk result (λ filter. filter.route ≡ option_map (λ text. text.now) selection.now.group) }
    ensures alerts { IfOk result (λ filter. WriteMatchers (map (λ text. text.now) selection.now.alerts.items) filter.matchers) }
    ensures complains { IfErr result (λ status. IsTrue (is_rejection status)) }
    ensures refused { IfErr result (λ status. status ≡ ExitStatus.Rejected
        → HasNoMatcher (map (λ text. text.now) selection.now.alerts.items)) }
{
    let receiver = text_of(rt, console, selection.receiver)?;
    let route = text_of(rt, console, selection.group)?;
    let matchers = matchers_of(rt, console, "--alert", selection.alerts.as_slice())?;
    Ok(Filter {
        receiver,
        route,
        matchers: Sequence::from(matchers),
    })
}

/// Returns what a page of a story is called.
fn page_title(story: &str) -> &str {
    if story == STANDARD_INPUT {
        "Rehearsal"
    } else {
        story
    }
}

/// Returns a text of the command line, if there is one. The error is the status.
fn text_of<R: Eprint + AllocGlobal>(
    rt: &R,
    console: &Console,
    text: Option<&str>,
) -> Result<Option<Text>, ExitStatus>
    ensures copy { IfOk result (λ copy. copy ≡ option_map (λ text. text.now) text.entry) }
    ensures complains { IfErr result (λ status. status ≡ ExitStatus.NoMemory) }
{
    match text {
        None => Ok(None),
        Some(text) => Ok(Some(text_or_complain(rt, console, text)?)),
    }
}

/// Returns a copy of a text. The error is the status.
fn text_or_complain<R: Eprint + AllocGlobal>(
    rt: &R,
    console: &Console,
    text: &str,
) -> Result<Text, ExitStatus>
    ensures copy { IfOk result (λ copy. copy ≡ text.now) }
    ensures complains { IfErr result (λ status. status ≡ ExitStatus.NoMemory) }
{
    match Text::new(rt.alloc(), text) {
        Ok(text) => Ok(text),
        Err(_) => Err(console.complain_of_memory(rt)),
    }
}

/// Returns the end that the command line gives. The error is the status.
pub(crate) fn until_of<R: Eprint>(rt: &R, until: Option<&str>) -> Result<Option<u64>, ExitStatus>
    ensures asked { IfOk result (IsEnd (option_map (λ text. text.now) until.entry)) }
    ensures refused { IfErr result (λ status. status ≡ ExitStatus.Rejected) }
{
    match until_asked(until) {
        Ok(until) => Ok(until),
        Err(fault) => Err(refuse_request(rt, fault)),
    }
}
