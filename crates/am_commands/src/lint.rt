//! The names of `check`'s warnings, and which of them a file turns off.
use am_command_line::spelling::Nearest;
use std::alloc::{AllocError, Global};

/// What a warning is about.
#[derive(Clone, Copy, PartialEq, Eq)]
pub enum Lint {
    UnreachableRoute,
    SharedLogEntries,
    UnusedReceiver,
    InhibitWithoutEqual,
    InhibitWithoutTarget,
    RepeatBelowInterval,
    RepeatOnTheEdge,
    AbsentGroupLabel,
    SilenceOfEverything,
    UnknownWarning,
}

/// All of them.
const LINTS: [Lint; 10] = [
    Lint::UnreachableRoute,
    Lint::SharedLogEntries,
    Lint::UnusedReceiver,
    Lint::InhibitWithoutEqual,
    Lint::InhibitWithoutTarget,
    Lint::RepeatBelowInterval,
    Lint::RepeatOnTheEdge,
    Lint::AbsentGroupLabel,
    Lint::SilenceOfEverything,
    Lint::UnknownWarning,
];

impl Lint {
    /// Returns the name by which a file turns it off.
    pub fn name(self) -> &'static str {
        match self {
            Lint::UnreachableRoute => "unreachable-route",
            Lint::SharedLogEntries => "shared-log-entries",
            Lint::UnusedReceiver => "unused-receiver",
            Lint::InhibitWithoutEqual => "inhibit-without-equal",
            Lint::InhibitWithoutTarget => "inhibit-without-target",
            Lint::RepeatBelowInterval => "repeat-below-interval",
            Lint::RepeatOnTheEdge => "repeat-on-the-edge",
            Lint::AbsentGroupLabel => "absent-group-label",
            Lint::SilenceOfEverything => "silence-of-everything",
            Lint::UnknownWarning => "unknown-warning",
        }
    }
}

/// What is before the names of warnings in a comment that turns them off.
const MARK: &str = "am-rehearse: ignore ";

/// The warnings of a file, and where they are written.
#[derive(Drop)]
pub struct Warnings<'f> {
    pub file: &'f str,
    ignored: Vec<Lint>,
    pub lines: &'f mut String,
}

impl<'f> Warnings<'f> {
    /// Returns the warnings of a file with this text: so far those of names that no warning has.
    pub fn new(
        alloc: Global,
        file: &'f str,
        text: &[u8],
        lines: &'f mut String,
    ) -> Result<Warnings<'f>, AllocError> {
        let mut warnings = Warnings {
            file,
            ignored: Vec::new(alloc),
            lines,
        };
        if let Ok(text) = std::str::from_utf8(text) {
            push_ignored(text, &mut warnings.ignored)?;
            push_unknown(alloc, text, &mut warnings)?;
        }
        Ok(warnings)
    }

    /// Adds the beginning of a warning, and returns whether there is one: the file can have turned it off.
    pub fn begin(&mut self, lint: Lint) -> Result<bool, AllocError> {
        if self.ignored.contains(&lint) {
            return Ok(false);
        }
        write!(self.lines, "{}: warning: ", self.file)?;
        Ok(true)
    }

    /// Adds the end of a warning.
    pub fn end(&mut self, lint: Lint) -> Result<(), AllocError> {
        writeln!(self.lines, " [{}]", lint.name())
    }
}

/// Adds the warnings that comments of a text turn off: behind a `#`, `am-rehearse: ignore` and their names.
fn push_ignored(text: &str, ignored: &mut Vec<Lint>) -> Result<(), AllocError> {
    for line in text.lines() {
        for word in words_in(line).split(' ') {
            push_named(word, ignored)?;
        }
    }
    Ok(())
}

/// Returns the words behind `am-rehearse: ignore` in the comment of a line; none if it has none.
fn words_in(line: &str) -> &str {
    match line.split_once(MARK) {
        Some((before, words)) if before.contains('#') => words,
        _ => "",
    }
}

/// Returns a name without the comma behind it.
fn name_in(word: &str) -> &str {
    let name = word.trim();
    name.strip_suffix(',').unwrap_or(name)
}

/// Adds the warning of a name, unless it is there.
fn push_named(word: &str, ignored: &mut Vec<Lint>) -> Result<(), AllocError> {
    let name = name_in(word);
    for lint in LINTS {
        if lint.name() == name && !ignored.contains(&lint) {
            ignored.push(lint)?;
        }
    }
    Ok(())
}

/// Adds a warning for each name that a comment turns off and no warning has. A word that begins with no letter begins a remark.
fn push_unknown(alloc: Global, text: &str, warnings: &mut Warnings<'_>) -> Result<(), AllocError> {
    for (index, line) in text.lines().enumerate() {
        for word in words_in(line).split(' ') {
            let name = name_in(word);
            if begins_remark(name) {
                break;
            }
            if !name.is_empty() && LINTS.iter().all(|lint| lint.name() != name) {
                warn_of_name(alloc, index.saturating_add(1), name, warnings)?;
            }
        }
    }
    Ok(())
}

/// Returns whether a word begins what isn't a list of names any more.
fn begins_remark(word: &str) -> bool {
    match word.as_bytes().first() {
        None => false,
        Some(first) => !first.is_ascii_alphanumeric(),
    }
}

/// Adds the warning that a line turns off a name which no warning has.
fn warn_of_name(
    alloc: Global,
    line: usize,
    name: &str,
    warnings: &mut Warnings<'_>,
) -> Result<(), AllocError> {
    if !warnings.begin(Lint::UnknownWarning)? {
        return Ok(());
    }
    let mut nearest = Nearest::to(name);
    for lint in LINTS {
        nearest.consider(alloc, lint.name())?;
    }
    write!(
        warnings.lines,
        "line {line} turns off `{name}`, and no warning has this name"
    )?;
    if let Some(meant) = nearest.found() {
        write!(warnings.lines, "; did you mean `{meant}`?")?;
    }
    warnings.end(Lint::UnknownWarning)
}
