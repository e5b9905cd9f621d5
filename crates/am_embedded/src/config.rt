//! A configuration.
use am_alerts::route::{GroupBy, Route, Routes};
use am_alerts::sequence::Sequence;
use am_alerts::text::Text;
use am_board::config::{Config, Integration, Limits, Receiver, Receivers};
use std::alloc::{AllocError, Global};

/// One route, which groups by alertname and waits 30s, 5m and 4h, and one receiver with `page/0`.
pub fn base(alloc: Global) -> Result<Config, AllocError> {
    let (routes, receivers) = both(routes(alloc), receivers(alloc))?;
    Ok(Config {
        routes,
        receivers,
        rules: Sequence::empty(alloc),
        retention: 432_000_000,
        limits: Limits::greatest(),
    })
}

fn routes(alloc: Global) -> Result<Routes, AllocError> {
    match Routes::new(root(alloc)?, Vec::new(alloc)) {
        Ok(routes) => Ok(routes),
        Err(_) => Err(AllocError),
    }
}

fn root(alloc: Global) -> Result<Route, AllocError> {
    let texts = both(Text::new(alloc, "root"), Text::new(alloc, "team"));
    let ((name, receiver), grouping) = both(texts, grouping(alloc))?;
    Ok(Route {
        name,
        receiver,
        group_by: GroupBy::Names(grouping),
        group_wait: 30_000,
        group_interval: 300_000,
        repeat_interval: 14_400_000,
    })
}

fn grouping(alloc: Global) -> Result<Sequence<Text>, AllocError> {
    let name = Text::new(alloc, "alertname")?;
    listed(alloc, name)
}

fn receivers(alloc: Global) -> Result<Receivers, AllocError> {
    let (name, integrations) = both(Text::new(alloc, "team"), integrations(alloc))?;
    let receivers = listed(alloc, Receiver { name, integrations })?;
    Receivers::new(alloc, receivers.into_vec())
}

fn integrations(alloc: Global) -> Result<Sequence<Integration>, AllocError> {
    let kind = Text::new(alloc, "page")?;
    let send_resolved = true;
    listed(
        alloc,
        Integration {
            kind,
            send_resolved,
        },
    )
}

/// Returns both values. If either is missing, the other is dropped here, so callers have nothing to drop.
fn both<A: Drop, B: Drop>(
    one: Result<A, AllocError>,
    other: Result<B, AllocError>,
) -> Result<(A, B), AllocError> {
    let one = one?;
    Ok((one, other?))
}

/// Returns a list of one value.
fn listed<T: Drop>(alloc: Global, value: T) -> Result<Sequence<T>, AllocError> {
    let mut list = Vec::new(alloc);
    list.push(value)?;
    Ok(Sequence::from(list))
}
