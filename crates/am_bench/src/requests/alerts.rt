//! Calls on alerts and on matchers that compare texts.
use crate::requests::probe::Probe;
use crate::requests::values::{labels, matchers};
use am_alerts::alert::Alert;
use am_alerts::labels::Labels;
use am_alerts::matcher::{Matcher, all_match};
use am_alerts::searchers::Searchers;
use std::alloc::{AllocError, Global};

pub fn make_calls(probe: &Probe, alloc: Global) -> Result<(), AllocError> {
    make_alert(probe, labels(alloc, "1")?, None);
    make_alert(probe, labels(alloc, "1")?, Some(1));
    let labels = labels(alloc, "1")?;
    search(
        probe,
        alloc,
        matchers(alloc, "inst", "1")?.as_slice(),
        &labels,
    );
    Ok(())
}

/// An alert that starts at 2, and is refused where it ends before.
fn make_alert(probe: &Probe, labels: Labels, ends: Option<u64>) {
    probe.ask("Alert::new");
    let made = Alert::new(labels, 2, ends);
    probe.show(&made.is_ok());
}

/// Asks matchers without a pattern.
fn search(probe: &Probe, alloc: Global, matchers: &[Matcher], labels: &Labels) {
    if let Some(first) = matchers.first() {
        probe.ask("Matcher::matches, without a pattern");
        let matched = first.matches(alloc, labels);
        probe.show(&matched);
    }
    probe.ask("all_match, without a pattern");
    let matched = all_match(alloc, matchers, labels);
    probe.show(&matched);
    probe.ask("Searchers::new");
    let mut searchers = Searchers::new(alloc, matchers);
    probe.show(&"made");
    probe.ask("Searchers::all_match, without a pattern");
    let matched = searchers.all_match(alloc, labels);
    probe.show(&matched);
}
