//! The names of routes, which Alertmanager doesn't name. Each has its receiver's name, with its
//! path where several routes have the receiver.
use crate::scalar::known_text;
use crate::written::WrittenRoutes;
use am_alerts::text::Text;
use am_json::fault::InputFault;
use am_json::reader::Object;
use serde_json::Value;
use std::alloc::{AllocError, Global};
use std::collections::{BTreeMap, BTreeSet};

/// The names that routes have been given.
#[derive(Drop)]
pub(crate) struct RouteNames {
    given: BTreeSet<String>,
    shared: SharedNames,
}

impl RouteNames {
    /// The name of the root alone, and which receivers' names the routes of a file share.
    pub(crate) fn of_file(top: &Object<'_, '_>) -> Result<RouteNames, InputFault> {
        let alloc = top.alloc();
        let mut given = BTreeSet::new(alloc);
        given.insert(String::from_str(alloc, "root")?)?;
        let mut shared = SharedNames::of_root(alloc)?;
        if let Some(root) = top.members().get("route") {
            shared.add_routes(alloc, root)?;
        }
        Ok(RouteNames { given, shared })
    }

    /// Gives the name of the route with this receiver at this path. It is the receiver's name as a label name. Where
    /// several routes have that, the path is behind it: `team_at_3_0` is the route at `routes[3].routes[0]`. Where
    /// another route has this name too, it is the first of it with `_2`, `_3`, .. that none has.
    pub(crate) fn give(
        &mut self,
        alloc: Global,
        receiver: &str,
        path: &[usize],
    ) -> Result<Text, AllocError> {
        let mut name = label_name_of(alloc, receiver)?;
        if self.shared.has(name.as_str()) {
            push_path(&mut name, path)?;
        }
        let name = self.free(alloc, name)?;
        self.given.insert(String::from_str(alloc, name.as_str())?)?;
        Ok(Text::from(name))
    }

    fn free(&self, alloc: Global, wanted: String) -> Result<String, AllocError> {
        if !self.given.contains(wanted.as_str()) {
            return Ok(wanted);
        }
        for number in 2..=self.given.len().saturating_add(2) {
            let name = numbered(alloc, wanted.as_str(), number)?;
            if !self.given.contains(name.as_str()) {
                return Ok(name);
            }
        }
        Ok(wanted)
    }
}

/// The names of the receivers of a file's routes as label names, and how many routes have each.
#[derive(Drop)]
struct SharedNames {
    counts: BTreeMap<String, usize>,
}

impl SharedNames {
    /// The root's name alone.
    fn of_root(alloc: Global) -> Result<SharedNames, AllocError> {
        let mut counts = BTreeMap::new(alloc);
        counts.insert(String::from_str(alloc, "root")?, 1)?;
        Ok(SharedNames { counts })
    }

    /// Whether several routes have a name.
    fn has(&self, name: &str) -> bool {
        self.counts.get(name).is_some_and(|count| *count > 1)
    }

    /// Counts the routes below this root. One that names no receiver has that of the route above it.
    fn add_routes(&mut self, alloc: Global, root: &Value) -> Result<(), AllocError> {
        let written = WrittenRoutes::below(alloc, root)?;
        let mut receivers = Vec::new(alloc);
        receivers.push(receiver_or(alloc, root, "")?)?;
        for (route, above) in written.as_slice().iter().zip(written.above()) {
            let above = receivers.get(*above).map_or("", Text::as_str);
            let receiver = receiver_or(alloc, route, above)?;
            self.add(alloc, receiver.as_str())?;
            receivers.push(receiver)?;
        }
        Ok(())
    }

    /// Counts a route with this receiver.
    fn add(&mut self, alloc: Global, receiver: &str) -> Result<(), AllocError> {
        let name = label_name_of(alloc, receiver)?;
        let before = self.counts.get(name.as_str()).copied().unwrap_or(0);
        self.counts.insert(name, before.saturating_add(1))?;
        Ok(())
    }
}

/// The receiver that a route names, if it is known; else the one above. The empty text names none.
fn receiver_or(alloc: Global, route: &Value, above: &str) -> Result<Text, AllocError> {
    let known = match route.get("receiver") {
        None => None,
        Some(value) => known_text(alloc, value)?,
    };
    match known {
        None => Text::new(alloc, above),
        Some(receiver) => Ok(receiver),
    }
}

/// Adds the indexes of a route and of those above it, each in its list.
fn push_path(name: &mut String, path: &[usize]) -> Result<(), AllocError> {
    name.push_str("_at")?;
    for index in path {
        write!(name, "_{index}")?;
    }
    Ok(())
}

/// A name with a number behind it.
fn numbered(alloc: Global, base: &str, number: usize) -> Result<String, AllocError> {
    Ok(format!(in alloc; "{base}_{number}")?)
}

/// A text in the form of a label name: with `_` for each byte that none has, and in front of a digit
/// with which it would begin. `_` for the empty text.
fn label_name_of(alloc: Global, text: &str) -> Result<String, AllocError> {
    let mut name = String::new(alloc);
    if begins_otherwise(text.as_bytes()) {
        name.push('_')?;
    }
    for byte in text.as_bytes() {
        name.push(if is_name_byte(*byte) {
            char::from(*byte)
        } else {
            '_'
        })?;
    }
    Ok(name)
}

/// Whether a text is empty or begins with a digit.
fn begins_otherwise(text: &[u8]) -> bool {
    match text {
        [] => true,
        [first, ..] => first.is_ascii_digit(),
    }
}

fn is_name_byte(byte: u8) -> bool {
    byte.is_ascii_alphanumeric() || byte == b'_'
}
