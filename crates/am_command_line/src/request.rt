//! What the words of a command line ask for.
ghost use Rattle.std.specs.Prelude.{◌<◌, length, IfOk, IsOk};
ghost use Rattle.am_command_line.specs.Request.{IsPlainPlay};

use crate::command::command;
use clap::{ArgMatches, Error};
use std::alloc::{AllocError, Global};

/// The file name that means standard input.
pub const STANDARD_INPUT: &str = "-";

/// When colors are used.
#[derive(Clone, Copy)]
pub enum Color {
    Auto,
    Always,
    Never,
}

/// How faults are printed.
#[derive(Clone, Copy)]
pub enum FaultFormat {
    Text,
    Json,
}

/// How a command prints.
#[derive(Clone, Copy)]
pub struct Style {
    pub color: Color,
    pub format: FaultFormat,
}

/// Which lines of a timeline are printed, where not all are.
#[derive(Drop)]
pub struct Selection<'a> {
    /// The receiver of their groups.
    pub receiver: Option<&'a str>,
    /// The route of their groups.
    pub group: Option<&'a str>,
    /// Matchers. One alert of their groups matches all of them.
    pub alerts: Vec<&'a str>,
    /// Whether a flush is left out whose lines are all those of the flush before of its group.
    pub changes: bool,
}

/// Stories that are simulated, and what replaces parts of them.
#[derive(Drop)]
pub struct PlayRequest<'a> {
    /// A file, or a folder of files.
    pub story: &'a str,
    /// Further ones.
    pub others: Vec<&'a str>,
    pub config: Option<&'a str>,
    pub output: Option<&'a str>,
    pub until: Option<&'a str>,
    /// Whether failures are left out of the notices.
    pub no_failures: bool,
    /// Whether the timeline has a line for each flush.
    pub all: bool,
    pub selection: Selection<'a>,
    /// The file to which is written what became of the expectations.
    pub junit: Option<&'a str>,
    pub style: Style,
}

/// A story that is simulated under two configurations.
#[derive(Clone, Copy)]
pub struct CompareRequest<'a> {
    pub old: &'a str,
    pub new: &'a str,
    pub story: &'a str,
    pub until: Option<&'a str>,
    /// Whether status 6 reports a difference.
    pub exit_code: bool,
    pub style: Style,
}

/// Answers of which a story is made.
#[derive(Drop)]
pub struct StoryRequest<'a> {
    pub prometheus: Option<&'a str>,
    pub gap: Option<&'a str>,
    pub alertmanager: Option<&'a str>,
    pub silences: Option<&'a str>,
    /// External labels, such as `cluster=eu1`.
    pub labels: Vec<&'a str>,
    /// Matchers. An alert that matches one of them is left out.
    pub drops: Vec<&'a str>,
    pub style: Style,
}

/// What a command line asks for.
#[derive(Drop)]
pub enum Request<'a> {
    Play(PlayRequest<'a>),
    Compare(CompareRequest<'a>),
    Story(StoryRequest<'a>),
    Check {
        files: Vec<&'a str>,
        /// A configuration for the stories, in place of their own.
        config: Option<&'a str>,
        style: Style,
    },
    Routes {
        file: &'a str,
        labels: Vec<&'a str>,
        verify: Option<&'a str>,
        style: Style,
    },
    Json {
        files: Vec<&'a str>,
        style: Style,
    },
    Manual,
    Completions,
}

/// How is printed where nothing is said.
const PLAIN: Style = Style {
    color: Color::Auto,
    format: FaultFormat::Text,
};

/// Returns what the words of a command line ask for, the program's name first. Without a further word that is to play
/// the story on standard input. The error is the text of `--help` and `--version` too.
pub fn read_request<'a>(alloc: Global, words: &'a [String]) -> Result<Request<'a>, Error>
    ensures plain { IfOk result (λ request. length words.entry.now < 2 → IsPlainPlay request) }
    ensures ok { length words.entry.now < 2 → IsOk result }
{
    if words.len() < 2 {
        return Ok(Request::Play(PlayRequest {
            story: STANDARD_INPUT,
            others: Vec::new(alloc),
            config: None,
            output: None,
            until: None,
            no_failures: false,
            all: false,
            selection: Selection {
                receiver: None,
                group: None,
                alerts: Vec::new(alloc),
                changes: false,
            },
            junit: None,
            style: PLAIN,
        }));
    }
    parsed_request(alloc, words)
}

fn parsed_request<'a>(alloc: Global, words: &'a [String]) -> Result<Request<'a>, Error> {
    let command = command(alloc)?
        .subcommand_required(true)
        .arg_required_else_help(true);
    let matches = command.try_get_matches_from(words)?;
    Ok(request_of(alloc, &matches)?)
}

fn request_of<'a>(alloc: Global, matches: &ArgMatches<'a>) -> Result<Request<'a>, AllocError> {
    let Some((name, matches)) = matches.subcommand() else {
        return Ok(Request::Manual);
    };
    match name {
        "play" => Ok(Request::Play(play_request(alloc, matches)?)),
        "compare" => Ok(Request::Compare(compare_request(matches))),
        "story" => Ok(Request::Story(story_request(alloc, matches)?)),
        "check" => Ok(Request::Check {
            files: all_of(alloc, matches, "FILE")?,
            config: matches.get_str("config"),
            style: style_of(matches),
        }),
        "routes" => Ok(Request::Routes {
            file: text_of(matches, "FILE"),
            labels: all_of(alloc, matches, "LABEL=VALUE")?,
            verify: matches.get_str("verify"),
            style: style_of(matches),
        }),
        "json" => Ok(Request::Json {
            files: all_of(alloc, matches, "FILE")?,
            style: style_of(matches),
        }),
        "completions" => Ok(Request::Completions),
        _ => Ok(Request::Manual),
    }
}

fn play_request<'a>(
    alloc: Global,
    matches: &ArgMatches<'a>,
) -> Result<PlayRequest<'a>, AllocError> {
    Ok(PlayRequest {
        story: first_of(matches, "STORY"),
        others: others_of(alloc, matches, "STORY")?,
        config: matches.get_str("config"),
        output: matches.get_str("output"),
        until: matches.get_str("until"),
        no_failures: matches.get_flag("no-failures"),
        all: matches.get_flag("all"),
        selection: Selection {
            receiver: matches.get_str("receiver"),
            group: matches.get_str("group"),
            alerts: all_of(alloc, matches, "alert")?,
            changes: matches.get_flag("changes"),
        },
        junit: matches.get_str("junit"),
        style: style_of(matches),
    })
}

fn compare_request<'a>(matches: &ArgMatches<'a>) -> CompareRequest<'a> {
    CompareRequest {
        old: text_of(matches, "OLD"),
        new: text_of(matches, "NEW"),
        story: text_of(matches, "STORY"),
        until: matches.get_str("until"),
        exit_code: matches.get_flag("exit-code"),
        style: style_of(matches),
    }
}

fn story_request<'a>(
    alloc: Global,
    matches: &ArgMatches<'a>,
) -> Result<StoryRequest<'a>, AllocError> {
    Ok(StoryRequest {
        prometheus: matches.get_str("prometheus"),
        gap: matches.get_str("gap"),
        alertmanager: matches.get_str("alertmanager"),
        silences: matches.get_str("silences"),
        labels: all_of(alloc, matches, "label")?,
        drops: all_of(alloc, matches, "drop")?,
        style: style_of(matches),
    })
}

/// Returns the value of a required argument.
fn text_of<'a>(matches: &ArgMatches<'a>, name: &str) -> &'a str {
    matches.get_str(name).unwrap_or(STANDARD_INPUT)
}

/// Returns the first value of an argument that has one at least.
fn first_of<'a>(matches: &ArgMatches<'a>, name: &str) -> &'a str {
    match matches.get_strs(name) {
        None => STANDARD_INPUT,
        Some(values) => values.first().copied().unwrap_or(STANDARD_INPUT),
    }
}

/// Returns all values of an argument but the first.
fn others_of<'a>(
    alloc: Global,
    matches: &ArgMatches<'a>,
    name: &str,
) -> Result<Vec<&'a str>, AllocError> {
    let mut others = Vec::new(alloc);
    if let Some(values) = matches.get_strs(name) {
        for (index, value) in values.iter().enumerate() {
            if index > 0 {
                others.push(*value)?;
            }
        }
    }
    Ok(others)
}

fn all_of<'a>(
    alloc: Global,
    matches: &ArgMatches<'a>,
    name: &str,
) -> Result<Vec<&'a str>, AllocError> {
    let mut all = Vec::new(alloc);
    if let Some(values) = matches.get_strs(name) {
        for value in values {
            all.push(*value)?;
        }
    }
    Ok(all)
}

fn style_of(matches: &ArgMatches<'_>) -> Style {
    Style {
        color: match matches.get_str("color") {
            Some("always") => Color::Always,
            Some("never") => Color::Never,
            _ => Color::Auto,
        },
        format: match matches.get_str("format") {
            Some("json") => FaultFormat::Json,
            _ => FaultFormat::Text,
        },
    }
}
