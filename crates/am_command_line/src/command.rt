//! The definition of the command line, from which parsing, help, the manual page and completions come.
use crate::exit_status::STATUSES;
use clap::{Arg, ArgAction, Command};
use std::alloc::{AllocError, Global};

/// What `--output` takes.
pub const OUTPUTS: [&str; 4] = ["timeline", "notices", "json", "html"];

/// What `--color` takes.
pub const COLORS: [&str; 3] = ["auto", "always", "never"];

/// What `--format` takes.
pub const FORMATS: [&str; 2] = ["text", "json"];

/// The version that `--version` prints.
const VERSION: &str = "1.0.0";

const ABOUT: &str =
    "Rehearses an alertmanager.yml: simulates alerts, silences and outages on a clock";

/// What an argument takes.
#[derive(Clone, Copy)]
enum Takes {
    /// A value at its location, which must be there.
    One,
    /// Values at its location, one at least.
    Some,
    /// Values at its location, if there are any.
    Any,
    /// Nothing: it is an option that is given or not.
    Nothing,
    /// A value behind the option, which help calls by this name.
    Value(&'static str),
    /// Such a value. The option can be given again.
    Values(&'static str),
    /// Such a value, which is one of these.
    Among(&'static str, &'static [&'static str]),
    /// Such a value, which is one of these. The last text is the value of an option that isn't given.
    Else(&'static str, &'static [&'static str], &'static str),
}

/// An argument of a subcommand: its name, what it takes, and its help.
type Word = (&'static str, Takes, &'static str);

const UNTIL: Word = (
    "until",
    Takes::Value("DURATION"),
    "When the story ends, such as 5h, in place of its own until",
);

const COLOR: Word = (
    "color",
    Takes::Else("WHEN", &COLORS, "auto"),
    "When to use colors; NO_COLOR turns auto off",
);

const FORMAT: Word = (
    "format",
    Takes::Else("FORMAT", &FORMATS, "text"),
    "How faults are printed on standard error: a line each, as text or as JSON",
);

/// What `play` takes. From `receiver` to `changes` are the options that leave out lines of a timeline.
const PLAY: [Word; 13] = [
    (
        "STORY",
        Takes::Some,
        "Files in YAML or JSON with what happens, or folders with such files; - is standard input",
    ),
    (
        "config",
        Takes::Value("FILE"),
        "An alertmanager.yml, or a config of our own, in place of the story's",
    ),
    (
        "output",
        Takes::Among("OUTPUT", &OUTPUTS),
        "What to print, in place of the story's own output",
    ),
    UNTIL,
    (
        "no-failures",
        Takes::Nothing,
        "Prints the notices, without those that failed",
    ),
    (
        "all",
        Takes::Nothing,
        "Prints the timeline with a line for each flush, also where like flushes follow each other",
    ),
    (
        "receiver",
        Takes::Value("NAME"),
        "Prints only the lines of this receiver's groups",
    ),
    (
        "group",
        Takes::Value("ROUTE"),
        "Prints only the lines of this route's groups, which are named after it",
    ),
    (
        "alert",
        Takes::Values("MATCHER"),
        "Prints only the lines of groups with an alert that matches, such as severity=page; may be given again, and one alert matches all",
    ),
    (
        "changes",
        Takes::Nothing,
        "Leaves out a flush whose lines are all those of the flush before of its group",
    ),
    (
        "junit",
        Takes::Value("FILE"),
        "Writes what became of the expectations of all stories to this file, as XML of JUnit",
    ),
    COLOR,
    FORMAT,
];

const COMPARE: [Word; 7] = [
    (
        "OLD",
        Takes::One,
        "An alertmanager.yml, or a config of our own; - is standard input",
    ),
    (
        "NEW",
        Takes::One,
        "The configuration that is compared with it",
    ),
    (
        "STORY",
        Takes::One,
        "A file in YAML or JSON with what happens",
    ),
    UNTIL,
    (
        "exit-code",
        Takes::Nothing,
        "Ends with status 6 if a notification differs",
    ),
    COLOR,
    FORMAT,
];

const STORY: [Word; 8] = [
    (
        "prometheus",
        Takes::Value("FILE"),
        "The answer to a range query of ALERTS{alertstate=\"firing\"}; - is standard input",
    ),
    (
        "gap",
        Takes::Value("DURATION"),
        "Samples farther apart belong to different spans of an alert; two steps of the query if not given",
    ),
    (
        "alertmanager",
        Takes::Value("FILE"),
        "The answer of /api/v2/alerts, in place of --prometheus",
    ),
    (
        "silences",
        Takes::Value("FILE"),
        "The answer of Alertmanager's /api/v2/silences",
    ),
    (
        "label",
        Takes::Values("LABEL=VALUE"),
        "An external label, which each alert gets unless it has one of the name, such as cluster=eu1; may be given again",
    ),
    (
        "drop",
        Takes::Values("MATCHER"),
        "Leaves out the alerts that match, such as alertname=\"Watchdog\"; may be given again",
    ),
    COLOR,
    FORMAT,
];

const CHECK: [Word; 4] = [
    (
        "FILE",
        Takes::Some,
        "Files with an alertmanager.yml, a config of our own or a story, or folders of them; - is standard input",
    ),
    (
        "config",
        Takes::Value("FILE"),
        "A configuration for the stories, in place of their own",
    ),
    COLOR,
    FORMAT,
];

const ROUTES: [Word; 5] = [
    (
        "FILE",
        Takes::One,
        "An alertmanager.yml, a config of our own or a story; - is standard input",
    ),
    (
        "LABEL=VALUE",
        Takes::Any,
        "A label of the label set that is looked up",
    ),
    (
        "verify",
        Takes::Value("RECEIVER,.."),
        "Ends with status 6 unless the label set reaches these receivers, in their order",
    ),
    COLOR,
    FORMAT,
];

const JSON: [Word; 3] = [
    (
        "FILE",
        Takes::Some,
        "A file in YAML or JSON; - is standard input",
    ),
    COLOR,
    FORMAT,
];

/// The subcommands, each with what it does and its arguments. Tables, and not calls for each argument, because a function
/// with many such values at a time is very dear to prove.
const SUBCOMMANDS: [(&str, &str, &[Word]); 8] = [
    (
        "play",
        "Simulates a story, and prints which notification is sent when, to whom and why",
        &PLAY,
    ),
    (
        "compare",
        "Simulates a story under two configurations, and prints which notifications differ",
        &COMPARE,
    ),
    (
        "story",
        "Makes a story of what Prometheus or Alertmanager answers",
        &STORY,
    ),
    (
        "check",
        "Checks configurations, and prints what they hold or every fault in them",
        &CHECK,
    ),
    (
        "routes",
        "Prints the routing tree, or the routes that a label set reaches",
        &ROUTES,
    ),
    (
        "json",
        "Prints files as the JSON that the program reads in them, one a line",
        &JSON,
    ),
    ("man", "Prints the manual page, in troff", &[]),
    ("completions", "Prints the completions for bash", &[]),
];

/// Returns the command line. Without any word the program reads a story from standard input.
pub fn command<'a>(alloc: Global) -> Result<Command<'a>, AllocError> {
    let command = Command::new(alloc, "am-rehearse")
        .bin_name("am-rehearse")?
        .version(VERSION)
        .about(ABOUT)
        .after_help(STATUSES);
    with_subcommands(alloc, command, &SUBCOMMANDS)
}

fn with_subcommands<'a>(
    alloc: Global,
    command: Command<'a>,
    subcommands: &[(&'static str, &'static str, &[Word])],
) -> Result<Command<'a>, AllocError> {
    let mut command = command;
    for (name, about, words) in subcommands {
        let subcommand = with_words(alloc, Command::new(alloc, *name).about(*about), words)?;
        command = command.subcommand(subcommand)?;
    }
    Ok(command)
}

/// Adds arguments to a subcommand, in the order that help has.
fn with_words<'a>(
    alloc: Global,
    subcommand: Command<'a>,
    words: &[Word],
) -> Result<Command<'a>, AllocError> {
    let mut subcommand = subcommand;
    for (name, takes, help) in words {
        subcommand = subcommand.arg(argument(alloc, *name, *takes).help(*help))?;
    }
    Ok(subcommand)
}

/// Returns an argument without its help.
fn argument<'a>(alloc: Global, name: &'a str, takes: Takes) -> Arg<'a> {
    match takes {
        Takes::One => Arg::new(alloc, name).required(true),
        Takes::Some => Arg::new(alloc, name)
            .required(true)
            .action(ArgAction::Append)
            .num_args(1..),
        Takes::Any => Arg::new(alloc, name)
            .action(ArgAction::Append)
            .num_args(0..),
        Takes::Nothing => Arg::new(alloc, name).long(name).action(ArgAction::SetTrue),
        Takes::Value(value) => option(alloc, name, value),
        Takes::Values(value) => option(alloc, name, value).action(ArgAction::Append),
        Takes::Among(value, values) => option(alloc, name, value).value_parser(values),
        Takes::Else(value, values, default) => option(alloc, name, value)
            .value_parser(values)
            .default_value(default),
    }
}

/// Returns an option that takes a value, which help calls so.
fn option<'a>(alloc: Global, name: &'a str, value: &'a str) -> Arg<'a> {
    Arg::new(alloc, name).long(name).value_name(value)
}
