//! What is odd in a story, though it is accepted.
use crate::lint::{Lint, Warnings};
use am_alerts::labels::{LabelFault, Labels};
use am_alerts::matcher::{Matcher, MatcherFault, Operator};
use am_alerts::route::{GroupBy, Route, Routes};
use am_command_line::spelling::Nearest;
use am_console::matcher_words::matcher_of;
use serde_json::Value;
use std::alloc::{AllocError, Global};
use std::collections::BTreeSet;

/// A label by which routes group, and no alert of the story has it.
#[derive(Clone, Copy)]
struct AbsentLabel<'r> {
    name: &'r str,
    /// The first route that groups by it.
    route: &'r Route,
    /// How many others do.
    others: usize,
}

/// Adds a warning for each label that no alert of a story has though a route that some of them reach groups by it, and for each
/// silence that mutes every alert. Without routes for the silences alone.
pub fn push_story_warnings(
    alloc: Global,
    story: &Value,
    routes: Option<&Routes>,
    warnings: &mut Warnings<'_>,
) -> Result<(), AllocError> {
    if let Some(routes) = routes {
        push_group_labels(alloc, story, routes, warnings)?;
    }
    push_silences(alloc, story, warnings)
}

/// Returns the items of a story's list.
fn list_in<'v>(story: &'v Value, name: &str) -> &'v [Value] {
    match story.get(name).and_then(Value::as_array) {
        Some(items) => items.as_slice(),
        None => &[],
    }
}

/// Adds the warnings of labels by which routes group.
fn push_group_labels(
    alloc: Global,
    story: &Value,
    routes: &Routes,
    warnings: &mut Warnings<'_>,
) -> Result<(), AllocError> {
    let mut names: BTreeSet<&str> = BTreeSet::new(alloc);
    let mut reached: BTreeSet<usize> = BTreeSet::new(alloc);
    for alert in list_in(story, "alerts") {
        add_alert(alloc, alert, routes, &mut names, &mut reached)?;
    }
    let mut absent = Vec::new(alloc);
    if reached.contains(&0) {
        add_absent(routes.root(), &names, &mut absent)?;
    }
    for (index, child) in routes.children().iter().enumerate() {
        if reached.contains(&index.saturating_add(1)) {
            add_absent(&child.route, &names, &mut absent)?;
        }
    }
    for label in &absent {
        push_absent(alloc, label, &names, warnings)?;
    }
    Ok(())
}

/// Adds the names of an alert's labels, and the routes that it reaches.
fn add_alert<'v>(
    alloc: Global,
    alert: &'v Value,
    routes: &Routes,
    names: &mut BTreeSet<&'v str>,
    reached: &mut BTreeSet<usize>,
) -> Result<(), AllocError> {
    let Some(members) = alert.get("labels").and_then(Value::as_object) else {
        return Ok(());
    };
    let mut pairs = Vec::new(alloc);
    for (name, value) in members.iter() {
        names.insert(name.as_str())?;
        pairs.push((name.as_str(), value.as_str().unwrap_or("")))?;
    }
    match Labels::read(alloc, pairs.as_slice()) {
        Ok(labels) => {
            for position in routes.of(alloc, &labels)?.as_slice() {
                reached.insert(*position as usize)?;
            }
            Ok(())
        }
        Err(LabelFault::NoMemory) => Err(AllocError),
        Err(_) => Ok(()),
    }
}

/// Adds the labels by which a route groups and that aren't among these names.
fn add_absent<'r>(
    route: &'r Route,
    names: &BTreeSet<&str>,
    absent: &mut Vec<AbsentLabel<'r>>,
) -> Result<(), AllocError> {
    let GroupBy::Names(labels) = &route.group_by else {
        return Ok(());
    };
    for label in labels.as_slice() {
        if !names.contains(label.as_str()) {
            count_absent(label.as_str(), route, absent)?;
        }
    }
    Ok(())
}

/// Counts a route among those that group by a label.
fn count_absent<'r>(
    name: &'r str,
    route: &'r Route,
    absent: &mut Vec<AbsentLabel<'r>>,
) -> Result<(), AllocError> {
    for label in absent.iter_mut() {
        if label.name == name {
            label.others = label.others.saturating_add(1);
            return Ok(());
        }
    }
    let others = 0;
    absent
        .push(AbsentLabel {
            name,
            route,
            others,
        })
        .map_err(|_| AllocError)
}

/// Adds the warning of a label.
fn push_absent(
    alloc: Global,
    label: &AbsentLabel<'_>,
    names: &BTreeSet<&str>,
    warnings: &mut Warnings<'_>,
) -> Result<(), AllocError> {
    if !warnings.begin(Lint::AbsentGroupLabel)? {
        return Ok(());
    }
    write!(warnings.lines, "route `{}`", label.route.name)?;
    if label.others > 0 {
        write!(warnings.lines, " (and {} more)", label.others)?;
    }
    write!(
        warnings.lines,
        " groups by `{}`, a label that no alert of the story has",
        label.name
    )?;
    let mut nearest = Nearest::to(label.name);
    for name in names.iter() {
        nearest.consider(alloc, *name)?;
    }
    if let Some(meant) = nearest.found() {
        write!(warnings.lines, "; did you mean `{meant}`?")?;
    }
    warnings.end(Lint::AbsentGroupLabel)
}

/// Adds a warning for each silence whose matchers take any value.
fn push_silences(
    alloc: Global,
    story: &Value,
    warnings: &mut Warnings<'_>,
) -> Result<(), AllocError> {
    for (index, silence) in list_in(story, "silences").iter().enumerate() {
        let matchers = list_in(silence, "matchers");
        if mutes_all(alloc, matchers)? && warnings.begin(Lint::SilenceOfEverything)? {
            write!(
                warnings.lines,
                "silence {index} mutes every alert that has its labels: its matchers take any value"
            )?;
            warnings.end(Lint::SilenceOfEverything)?;
        }
    }
    Ok(())
}

/// Returns whether there are matchers, and each takes any value.
fn mutes_all(alloc: Global, matchers: &[Value]) -> Result<bool, AllocError> {
    for matcher in matchers {
        match matcher_of(alloc, matcher.as_str().unwrap_or("")) {
            Ok(matcher) => {
                if !takes_any(alloc, &matcher)? {
                    return Ok(false);
                }
            }
            Err(MatcherFault::NoMemory) => return Err(AllocError),
            Err(_) => return Ok(false),
        }
    }
    Ok(!matchers.is_empty())
}

/// Values that have nothing in common. A pattern that matches all is taken for one that matches any.
const VALUES: [&str; 4] = ["a", "Z9", "-", "10.0.0.1:9100 / ü"];

/// Returns whether a matcher takes any value that isn't empty.
fn takes_any(alloc: Global, matcher: &Matcher) -> Result<bool, AllocError> {
    let parts = matcher.parts();
    match parts.op {
        Operator::Equal => return Ok(false),
        Operator::NotEqual | Operator::NotLike => return Ok(parts.value.as_str().is_empty()),
        Operator::Like => {}
    }
    for value in VALUES {
        let pairs = [(parts.name.as_str(), value)];
        match Labels::read(alloc, &pairs) {
            Ok(labels) => {
                if !matcher.matches(alloc, &labels)? {
                    return Ok(false);
                }
            }
            Err(LabelFault::NoMemory) => return Err(AllocError),
            Err(_) => return Ok(false),
        }
    }
    Ok(true)
}
