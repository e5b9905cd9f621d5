//! Calls on silences and inhibition rules.
use crate::requests::probe::Probe;
use crate::requests::values::{alert, labels, matchers, rule};
use am_alerts::alert::Alert;
use am_alerts::labels::Labels;
use am_alerts::matcher::Matcher;
use am_mute::inhibit::InhibitRule;
use am_mute::mute::muted;
use am_mute::silence::Silence;
use std::alloc::{AllocError, Global};

pub fn make_calls(probe: &Probe, alloc: Global) -> Result<(), AllocError> {
    make_silence(probe, matchers(alloc, "inst", "1")?, 10);
    make_silence(probe, matchers(alloc, "inst", "1")?, 0);
    make_rule(probe, alloc);
    mute(probe, alloc, &labels(alloc, "2")?)
}

fn make_silence(probe: &Probe, matchers: Vec<Matcher>, end: u64) {
    probe.ask("Silence::new");
    let made = Silence::new(1, matchers, 5, end);
    probe.show(&made.is_ok());
}

/// A rule without matchers, by which each alert inhibits each.
fn make_rule(probe: &Probe, alloc: Global) {
    probe.ask("InhibitRule::new");
    let made = InhibitRule::new(Vec::new(alloc), Vec::new(alloc), Vec::new(alloc));
    probe.show(&made.is_ok());
}

/// Asks whether a label set is muted, with one silence, then with one rule and one known alert.
fn mute(probe: &Probe, alloc: Global, labels: &Labels) -> Result<(), AllocError> {
    mute_by_silence(probe, alloc, labels, &[silence(alloc)?]);
    mute_by_rule(
        probe,
        alloc,
        labels,
        &[rule(alloc)?],
        &[alert(alloc, "1", None)?],
    );
    Ok(())
}

fn silence(alloc: Global) -> Result<Silence, AllocError> {
    match Silence::new(1, matchers(alloc, "inst", "2")?, 5, 10) {
        Ok(silence) => Ok(silence),
        Err(_) => Err(AllocError),
    }
}

fn mute_by_silence(probe: &Probe, alloc: Global, labels: &Labels, silences: &[Silence]) {
    probe.ask("muted, by a silence without a pattern");
    let is_muted = muted(alloc, labels, 5, silences, &[], &[]);
    probe.show(&is_muted);
}

fn mute_by_rule(
    probe: &Probe,
    alloc: Global,
    labels: &Labels,
    rules: &[InhibitRule],
    known: &[Alert],
) {
    probe.ask("muted, by a rule without a pattern");
    let is_muted = muted(alloc, labels, 5, &[], rules, known);
    probe.show(&is_muted);
}
