//! Values that several tests take.
mod counts;
mod durations;
mod hanging;
mod resuming;
mod starving;
mod taking;
mod waiting;
mod workers;

use am_alerts::alert::Alert;
use am_alerts::labels::Labels;
use am_alerts::sequence::Sequence;
use am_board::config::Config;
use am_board::group::GroupName;
use am_board::notice::Notice;
use am_json::config::read_config;
use am_json::reader::{Reader, parse};
use std::alloc::{AllocError, Global};

/// The configuration that a text of JSON decodes to. Any fault counts as a lack of memory.
fn config(alloc: Global, text: &str) -> Result<Config, AllocError> {
    let Ok(value) = parse(alloc, text.as_bytes()) else {
        return Err(AllocError);
    };
    match read_config(&Reader::top(alloc, &value)) {
        Ok(config) => Ok(config),
        Err(_) => Err(AllocError),
    }
}

/// An alert with these labels that fires from 0 on.
fn alert(alloc: Global, pairs: &[(&str, &str)]) -> Result<Alert, AllocError> {
    let Ok(labels) = Labels::read(alloc, pairs) else {
        return Err(AllocError);
    };
    match Alert::new(labels, 0, None) {
        Ok(alert) => Ok(alert),
        Err(_) => Err(AllocError),
    }
}

/// A notice of one alert for a flush, with the deadline 330,000.
fn notice(alloc: Global, ticket: u64) -> Result<Notice, AllocError> {
    Ok(Notice {
        board_id: 7,
        ticket,
        deadline: 330_000,
        group: group(alloc)?,
        integration: 0,
        firing: firing(alloc)?,
        resolved: Sequence::empty(alloc),
    })
}

fn group(alloc: Global) -> Result<GroupName, AllocError> {
    match Labels::read(alloc, &[("alertname", "A")]) {
        Ok(labels) => Ok(GroupName { route: 0, labels }),
        Err(_) => Err(AllocError),
    }
}

fn firing(alloc: Global) -> Result<Sequence<Alert>, AllocError> {
    let mut firing = Vec::new(alloc);
    firing.push(alert(alloc, &[("alertname", "A")])?)?;
    Ok(Sequence::from(firing))
}
