//! Routes that no label set reaches, since their matchers exclude each other, or imply those of a route before them.
use crate::route_lines::push_matchers;
use crate::tree::route_positions;
use am_alerts::labels::{LabelFault, Labels};
use am_alerts::matcher::{Matcher, Operator};
use am_alerts::route::{Child, Routes};
use am_alerts::text::Text;
use std::alloc::{AllocError, Global};
use std::collections::BTreeMap;

/// A route below the root, as the warnings need it.
#[derive(Clone, Copy)]
pub struct Entry<'r> {
    pub child: &'r Child,
    /// The position of the route right above it.
    pub above: usize,
    /// The first route before it, below the same one, that has its matchers and doesn't continue.
    pub taker: Option<&'r Child>,
    /// The first route before it, below the same one, that has its matchers and its receiver.
    pub alike: Option<&'r Child>,
}

/// Why a route is never reached, if it isn't.
#[derive(Clone, Copy)]
pub enum Never<'r> {
    Reached,
    /// Its matchers, with those above it, exclude each other.
    Contradicts,
    /// Each label set that it matches goes to the route of this name before it.
    Behind(&'r Text),
}

/// Returns the routes below the root.
pub fn entries_of(alloc: Global, routes: &Routes) -> Result<Vec<Entry<'_>>, AllocError> {
    let route_positions = route_positions(alloc, routes)?;
    let mut takers = FirstRoutes::new(alloc);
    let mut alike = FirstRoutes::new(alloc);
    let mut entries = Vec::new(alloc);
    for (child, route_position) in routes.children().iter().zip(route_positions.as_slice()) {
        let above = route_position.above;
        let matchers = matchers_below(alloc, above, child)?;
        let mut with_receiver = String::from_str(alloc, matchers.as_str())?;
        with_receiver.push_str(child.route.receiver.as_str())?;
        entries.push(Entry {
            child,
            above,
            taker: takers.get(matchers.as_str()),
            alike: alike.get(with_receiver.as_str()),
        })?;
        if !child.continues {
            takers.note(matchers, child)?;
        }
        alike.note(with_receiver, child)?;
    }
    Ok(entries)
}

/// The text that routes have in common which are below the same one and have the same matchers.
fn matchers_below(alloc: Global, above: usize, child: &Child) -> Result<String, AllocError> {
    let mut text = format!(in alloc; "{above} ")?;
    push_matchers(child.matchers.as_slice(), &mut text)?;
    text.push('\n')?;
    Ok(text)
}

/// The first route of each text that says what several have in common.
#[derive(Drop)]
struct FirstRoutes<'r> {
    by_text: BTreeMap<String, &'r Child>,
}

impl<'r> FirstRoutes<'r> {
    fn new(alloc: Global) -> FirstRoutes<'r> {
        FirstRoutes {
            by_text: BTreeMap::new(alloc),
        }
    }

    fn get(&self, text: &str) -> Option<&'r Child> {
        self.by_text.get(text).copied()
    }

    /// Notes a route, if it is the first of its text.
    fn note(&mut self, text: String, child: &'r Child) -> Result<(), AllocError> {
        if self.by_text.get(text.as_str()).is_none() {
            self.by_text.insert(text, child)?;
        }
        Ok(())
    }
}

/// Returns why the route at an index is never reached, as far as so many comparisons of matchers show it.
pub fn never_reached<'r>(
    alloc: Global,
    entries: &[Entry<'r>],
    index: usize,
    left: &mut usize,
) -> Result<Never<'r>, AllocError> {
    let Some(entry) = entries.get(index) else {
        return Ok(Never::Reached);
    };
    let known = known_on(alloc, entries, index)?;
    if exclude_each_other(alloc, known.as_slice(), left)? {
        return Ok(Never::Contradicts);
    }
    for before in entries.iter().take(index) {
        if *left == 0 {
            break;
        }
        *left = left.saturating_sub(1);
        let takes = before.above == entry.above && !before.child.continues;
        if takes
            && are_implied(
                alloc,
                before.child.matchers.as_slice(),
                known.as_slice(),
                left,
            )?
        {
            return Ok(Never::Behind(&before.child.route.name));
        }
    }
    Ok(match entry.taker {
        None => Never::Reached,
        Some(before) => Never::Behind(&before.route.name),
    })
}

/// Returns the matchers of a route and of those above it.
fn known_on<'r>(
    alloc: Global,
    entries: &[Entry<'r>],
    index: usize,
) -> Result<Vec<&'r Matcher>, AllocError> {
    let mut known = Vec::new(alloc);
    let mut at = Some(index);
    for _ in 0..=index {
        let Some(entry) = at.and_then(|at| entries.get(at)) else {
            break;
        };
        for matcher in entry.child.matchers.as_slice() {
            known.push(matcher)?;
        }
        at = entry.above.checked_sub(1);
    }
    Ok(known)
}

/// Returns whether a label set that meets what is known meets these matchers too.
fn are_implied(
    alloc: Global,
    matchers: &[Matcher],
    known: &[&Matcher],
    left: &mut usize,
) -> Result<bool, AllocError> {
    for matcher in matchers {
        if !is_implied(alloc, matcher, known, left)? {
            return Ok(false);
        }
    }
    Ok(true)
}

/// Returns whether one of the known matchers implies a matcher: the same, or a value that meets it.
fn is_implied(
    alloc: Global,
    matcher: &Matcher,
    known: &[&Matcher],
    left: &mut usize,
) -> Result<bool, AllocError> {
    for other in known {
        if *left == 0 {
            return Ok(false);
        }
        *left = left.saturating_sub(1);
        let parts = matcher.parts();
        let other = other.parts();
        if other.name == parts.name {
            if other.op == parts.op && other.value == parts.value {
                return Ok(true);
            }
            if other.op == Operator::Equal && meets(alloc, matcher, &other.value)? == Some(true) {
                return Ok(true);
            }
        }
    }
    Ok(false)
}

/// Returns whether two of these matchers exclude each other: one wants a value that another doesn't match.
fn exclude_each_other(
    alloc: Global,
    known: &[&Matcher],
    left: &mut usize,
) -> Result<bool, AllocError> {
    for wanted in known {
        if wanted.parts().op == Operator::Equal {
            for other in known {
                if *left == 0 {
                    return Ok(false);
                }
                *left = left.saturating_sub(1);
                let is_same_label = other.parts().name == wanted.parts().name;
                if is_same_label && meets(alloc, other, &wanted.parts().value)? == Some(false) {
                    return Ok(true);
                }
            }
        }
    }
    Ok(false)
}

/// Returns whether a matcher's label with this value meets it; none where a pattern meets the empty value, which is no label.
fn meets(alloc: Global, matcher: &Matcher, value: &Text) -> Result<Option<bool>, AllocError> {
    let parts = matcher.parts();
    match parts.op {
        Operator::Equal => return Ok(Some(parts.value == *value)),
        Operator::NotEqual => return Ok(Some(parts.value != *value)),
        Operator::Like | Operator::NotLike => {}
    }
    let pairs = [(parts.name.as_str(), value.as_str())];
    match Labels::read(alloc, &pairs) {
        Ok(labels) => Ok(Some(matcher.matches(alloc, &labels)?)),
        Err(LabelFault::NoMemory) => Err(AllocError),
        Err(_) => Ok(None),
    }
}
