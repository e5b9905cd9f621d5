//! `Story`: what a page is drawn from.
use am_alerts::labels::Labels;
use am_terms::rehearsal::Outage;
use am_timeline::filtered::Filter;
use am_timeline::playback::Playback;

/// A story that ran, and what is said of it.
#[derive(Drop)]
pub struct Story<'s> {
    /// What it is called: the name of its file, and that of its configuration if it has one of its own.
    pub names: Names<'s>,
    /// What each dispatcher did, one after another.
    pub playbacks: &'s [Playback<'s>],
    /// The reloads and restarts, one before each dispatcher but the first.
    pub changes: &'s [Change<'s>],
    pub outages: &'s [Outage],
    /// What became of the expectations.
    pub verdicts: &'s [Verdict],
    /// The label sets with a span of firing that an integration missed, or of which it missed the end.
    pub missed: &'s [Labels],
    /// The groups that are drawn.
    pub filter: &'s Filter,
    pub texts: Texts<'s>,
}

/// The names of a story's files.
#[derive(Clone, Copy)]
pub struct Names<'s> {
    pub story: &'s str,
    /// The file of the configuration that takes the place of the story's own.
    pub config: Option<&'s str>,
}

/// A reload or a restart.
#[derive(Clone, Copy)]
pub struct Change<'s> {
    pub at: u64,
    /// The line of the timeline on it.
    pub line: &'s str,
}

/// What became of an expectation.
#[derive(Drop)]
pub struct Verdict {
    pub is_met: bool,
    /// What the timeline says of it.
    pub text: String,
}

/// The texts below the lanes, as the timeline has them.
#[derive(Clone, Copy)]
pub struct Texts<'s> {
    /// The tables of receivers.
    pub receivers: &'s str,
    /// The spans of firing that an integration missed.
    pub undelivered: &'s str,
}
