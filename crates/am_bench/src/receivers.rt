//! Many receivers, and routes to them at one level.
use crate::alerts::{Load, STRIDE, alertname, matchers, text};
use crate::config::{TEAM, WAIT, config, receiver, route};
use crate::desk::{BOARD_ID, Desk};
use crate::hanging::begin;
use crate::piece::{FIRST, insert};
use crate::watch::Watch;
use crate::words::{BenchError, both};
use am_alerts::route::{Route, Routes};
use am_alerts::sequence::Sequence;
use am_alerts::spans::Spans;
use am_alerts::tree::{Node, Options, RouteSpec};
use am_board::config::{Receiver, Receivers};
use am_board::own_ticket::OwnTicket;
use std::alloc::Global;
use std::collections::VecDeque;
use std::rt::Clock;
use std::time::CpuClock;

/// How many alerts are inserted at most: one for each of so many routes.
const ALERTS: usize = 1_000;

/// What a configuration is made of.
#[derive(Drop)]
struct Parts {
    root: Route,
    nodes: Vec<Node>,
    receivers: Vec<Receiver>,
}

/// Runs the piece on so many receivers and routes.
pub fn run_receivers(
    rt: &(impl Print + Eprint + Clock + CpuClock),
    alloc: Global,
    receivers: usize,
    routes: usize,
) -> Result<(), BenchError> {
    let parts = Parts::build(alloc, receivers, routes)?;
    let watch = Watch::of(rt, "opening");
    let opened = parts.open(alloc);
    watch.stop(rt, "opening", 1);
    let mut desk = opened?;
    let mut tickets = VecDeque::new(alloc);
    let ran = run_steps(rt, alloc, &mut desk, &mut tickets, routes);
    desk.finish_all(tickets, FIRST);
    drop(desk);
    ran
}

fn run_steps(
    rt: &(impl Print + Eprint + Clock + CpuClock),
    alloc: Global,
    desk: &mut Desk,
    tickets: &mut VecDeque<OwnTicket<BOARD_ID>>,
    routes: usize,
) -> Result<(), BenchError> {
    let load = Load {
        alerts: routes,
        groups: routes,
    };
    let count = routes.min(ALERTS);
    let new = load.build(alloc, 0..count, STRIDE, None)?;
    insert(rt, alloc, desk, "new inserts", 0, new)?;
    begin(rt, alloc, desk, tickets, FIRST, count)
}

impl Parts {
    fn build(alloc: Global, receivers: usize, routes: usize) -> Result<Parts, BenchError> {
        let root = route(alloc, "root", WAIT)?;
        let nodes = nodes(alloc, routes, receivers)?;
        let receivers = list(alloc, receivers)?;
        Ok(Parts {
            root,
            nodes,
            receivers,
        })
    }

    /// Makes the tree and the look-up of receivers, and opens a board.
    fn open(self, alloc: Global) -> Result<Desk, BenchError> {
        let Parts {
            root,
            nodes,
            receivers,
        } = self;
        let routes = Routes::nested(alloc, root, nodes).map_err(|_| BenchError::BadLine);
        let receivers = Receivers::new(alloc, receivers).map_err(|_| BenchError::NoMemory);
        let (routes, receivers) = both(routes, receivers)?;
        Ok(Desk::open(alloc, config(routes, receivers, Vec::new(alloc)), false)?)
    }
}

fn list(alloc: Global, count: usize) -> Result<Vec<Receiver>, BenchError> {
    let mut receivers = Vec::new(alloc);
    for number in 0..count {
        let name = receiver_name(alloc, number)?;
        let receiver = receiver(alloc, name.as_str());
        drop(name);
        receivers.push(receiver?)?;
    }
    Ok(receivers)
}

/// The name of a receiver. The first one is the root's.
fn receiver_name(alloc: Global, number: usize) -> Result<String, BenchError> {
    if number == 0 {
        Ok(String::from_str(alloc, TEAM)?)
    } else {
        Ok(format!(in alloc; "{TEAM}-{number}")?)
    }
}

fn nodes(alloc: Global, routes: usize, receivers: usize) -> Result<Vec<Node>, BenchError> {
    let mut nodes = Vec::new(alloc);
    for number in 0..routes {
        let receiver = number.checked_rem(receivers).unwrap_or(0);
        nodes.push(node(alloc, number, receiver)?)?;
    }
    Ok(nodes)
}

/// The route of one alertname to a receiver.
fn node(alloc: Global, number: usize, receiver: usize) -> Result<Node, BenchError> {
    let texts = both(alertname(alloc, number), receiver_name(alloc, receiver));
    let (alertname, receiver) = texts?;
    let rule = rule(alloc, alertname.as_str(), receiver.as_str());
    drop(receiver);
    drop(alertname);
    Ok(Node {
        rule: rule?,
        routes: Vec::new(alloc),
    })
}

/// The route of this alertname, which is its name too.
fn rule(alloc: Global, alertname: &str, receiver: &str) -> Result<RouteSpec, BenchError> {
    let (name, receiver) = both(text(alloc, alertname), text(alloc, receiver))?;
    let matchers = matchers(alloc, "alertname", alertname)?;
    let options = Options {
        receiver: Some(receiver),
        group_by: None,
        group_wait: None,
        group_interval: None,
        repeat_interval: None,
    };
    Ok(RouteSpec {
        name,
        options,
        matchers: Sequence::from(matchers),
        continues: false,
        muted: Spans::none(),
    })
}
