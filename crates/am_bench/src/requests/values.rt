//! The values that calls are made with.
use crate::alerts::{self, listed};
use crate::config::{plain, rule_of};
use crate::words::both;
use am_alerts::alert::Alert;
use am_alerts::labels::Labels;
use am_alerts::matcher::{Matcher, MatcherParts, Operator};
use am_alerts::sequence::Sequence;
use am_alerts::text::Text;
use am_board::config::Config;
use am_board::group::GroupName;
use am_board::views::RowView;
use am_mute::inhibit::InhibitRule;
use std::alloc::{AllocError, Global};

/// The labels of an instance of A.
pub fn labels(alloc: Global, instance: &str) -> Result<Labels, AllocError> {
    match Labels::read(alloc, &[("alertname", "A"), ("inst", instance)]) {
        Ok(labels) => Ok(labels),
        Err(_) => Err(AllocError),
    }
}

/// An alert of an instance of A, which starts at 0.
pub fn alert(alloc: Global, instance: &str, ends: Option<u64>) -> Result<Alert, AllocError> {
    match Alert::new(labels(alloc, instance)?, 0, ends) {
        Ok(alert) => Ok(alert),
        Err(_) => Err(AllocError),
    }
}

/// A log row of the group of A at the root, of this integration and time, in which these instances
/// fired.
pub fn row(
    alloc: Global,
    integration: u32,
    time: u64,
    instances: &[&str],
) -> Result<RowView, AllocError> {
    let mut firing = Vec::new(alloc);
    for instance in instances {
        let labels = labels(alloc, instance)?;
        firing.push(labels)?;
    }
    match Labels::read(alloc, &[("alertname", "A")]) {
        Ok(labels) => Ok(RowView {
            group: GroupName { route: 0, labels },
            integration,
            time,
            expiry: 28_800_000,
            firing: Sequence::from(firing),
            resolved: Sequence::empty(alloc),
        }),
        Err(_) => Err(AllocError),
    }
}

/// Matches the label sets in which this label has this value, in a list.
pub fn matchers(alloc: Global, name: &str, value: &str) -> Result<Vec<Matcher>, AllocError> {
    let op = Operator::Equal;
    let (name, value) = both(Text::new(alloc, name), Text::new(alloc, value))?;
    match Matcher::new(alloc, MatcherParts { name, op, value }) {
        Ok(matcher) => listed(alloc, matcher),
        Err(_) => Err(AllocError),
    }
}

/// A rule by which the instance 1 of A inhibits the instance 2.
pub fn rule(alloc: Global) -> Result<InhibitRule, AllocError> {
    let source = alerts::matchers(alloc, "inst", "1");
    let matchers = both(source, alerts::matchers(alloc, "inst", "2"));
    rule_of(alloc, matchers).map_err(|_| AllocError)
}

/// A configuration of one route and one receiver, without rules.
pub fn config(alloc: Global) -> Result<Config, AllocError> {
    plain(alloc).map_err(|_| AllocError)
}
