//! Calls on routes and configurations.
use crate::config::{WAIT, critical, inhibiting, route};
use crate::requests::probe::Probe;
use crate::words::BenchError;
use am_alerts::route::{Child, Route, Routes};
use am_board::config::Config;
use std::alloc::Global;

pub fn make_calls(probe: &Probe, alloc: Global) -> Result<(), BenchError> {
    make_routes(probe, route(alloc, "root", WAIT)?, critical(alloc)?);
    make_routes(probe, route(alloc, "other", WAIT)?, Vec::new(alloc));
    let config = inhibiting(alloc)?;
    count_routes(probe, &config.routes);
    check_config(probe, &config);
    Ok(())
}

fn make_routes(probe: &Probe, root: Route, children: Vec<Child>) {
    probe.ask("Routes::new");
    let made = Routes::new(root, children);
    probe.show(&made.is_ok());
}

fn count_routes(probe: &Probe, routes: &Routes) {
    probe.ask("Routes::last");
    let last = routes.last();
    probe.show(&last);
    if last > 0 {
        probe.ask("Routes::below");
        let below = routes.below(last);
        probe.show(&below);
    }
}

fn check_config(probe: &Probe, config: &Config) {
    probe.ask("Config::receiver");
    let receiver = config.receiver("team");
    probe.show(&receiver.is_some());
    probe.ask("Config::check");
    let checked = config.check();
    probe.show(&checked);
}
