//! A floor: an array that does what the definitions force, and nothing else. What a board takes more
//! than that is the price of its order, its history, its log and its limits.
//!
//! An insert makes one look-up by hash, which compares one label set, and overwrites a start and an end.
//! Whoever calls names the group of a new alert. A flush walks the alerts of each group. Where not as
//! many fire as at the last notice, it makes a notice, which has a copy of each.
use crate::alerts::{Load, STRIDE};
use crate::piece::{FIRST, print_made, print_tally};
use crate::row::Row;
use crate::tally::Tally;
use crate::watch::Watch;
use crate::words::BenchError;
use am_alerts::alert::Alert;
use am_alerts::labels::Labels;
use am_seed::Seed;
use indexmap::IndexMap;
use std::alloc::Global;
use std::rt::Clock;
use std::time::CpuClock;

/// When an alert starts and ends.
#[derive(Clone, Copy)]
struct Times {
    starts: u64,
    ends: Option<u64>,
}

/// A group: the places of its alerts, and how many of them its last notice had.
#[derive(Drop)]
struct Group {
    places: Vec<usize>,
    notified: usize,
}

/// The alerts by label set, in the order in which they came, and their groups.
#[derive(Drop)]
struct Floor {
    alerts: IndexMap<Labels, Times, Seed>,
    groups: Vec<Group>,
}

/// Runs the piece: all its steps, or those of a row.
pub fn run_floor(
    rt: &(impl Print + Eprint + Clock + CpuClock),
    alloc: Global,
    load: Load,
    row: Row,
) -> Result<(), BenchError> {
    let mut floor = Floor::new(alloc, load.groups)?;
    floor.step(rt, alloc, "new inserts", &load, 1)?;
    if matches!(row, Row::All | Row::Again) {
        floor.step(rt, alloc, "the same again", &load, 1)?;
    }
    if matches!(row, Row::All | Row::Order) {
        floor.step(rt, alloc, "in another order", &load, STRIDE)?;
    }
    if matches!(row, Row::All | Row::First | Row::Quiet) {
        floor.flush(rt, alloc, "first flush", load.alerts)?;
    }
    if matches!(row, Row::All | Row::Quiet) {
        floor.flush(rt, alloc, "quiet flush", load.alerts)?;
    }
    Ok(())
}

impl Floor {
    /// So many groups, without alerts.
    fn new(alloc: Global, groups: usize) -> Result<Floor, BenchError> {
        let mut empty = Vec::new(alloc);
        for _ in 0..groups {
            let places = Vec::new(alloc);
            empty.push(Group {
                places,
                notified: 0,
            })?;
        }
        Ok(Floor {
            alerts: IndexMap::with_hasher(alloc, Seed::fixed()),
            groups: empty,
        })
    }

    /// Inserts the alerts of a load, in the order of this stride.
    fn step(
        &mut self,
        rt: &(impl Print + Eprint + Clock + CpuClock),
        alloc: Global,
        step: &str,
        load: &Load,
        stride: usize,
    ) -> Result<(), BenchError> {
        let alerts = load.build(alloc, 0..load.alerts, stride, None)?;
        let watch = Watch::of(rt, step);
        for (number, alert) in alerts.into_iter().enumerate() {
            self.insert(alloc, number.checked_rem(load.groups).unwrap_or(0), alert)?;
        }
        watch.stop(rt, step, load.alerts);
        print_made(rt, step, load.alerts, self.groups.len())
    }

    /// Inserts an alert, into this group if it is new.
    fn insert(&mut self, alloc: Global, group: usize, alert: Alert) -> Result<(), BenchError> {
        let times = Times {
            starts: alert.starts(),
            ends: alert.ends(),
        };
        let labels = alert.labels().copy(alloc)?;
        let (place, before) = self.alerts.insert_full(labels, times)?;
        if before.is_none() {
            if let Some(group) = self.groups.get_mut(group) {
                group.places.push(place)?;
            }
        }
        Ok(())
    }

    /// Flushes each group.
    fn flush(
        &mut self,
        rt: &(impl Print + Eprint + Clock + CpuClock),
        alloc: Global,
        step: &str,
        alerts: usize,
    ) -> Result<(), BenchError> {
        let mut tally = Tally::new();
        let watch = Watch::of(rt, step);
        for group in self.groups.iter_mut() {
            flush_group(alloc, &self.alerts, group, &mut tally)?;
        }
        watch.stop(rt, step, alerts);
        print_tally(rt, step, &tally)
    }
}

/// Walks the alerts of a group, and makes a notice if not as many fire as before.
fn flush_group(
    alloc: Global,
    alerts: &IndexMap<Labels, Times, Seed>,
    group: &mut Group,
    tally: &mut Tally,
) -> Result<(), BenchError> {
    let mut firing: usize = 0;
    for place in group.places.iter() {
        if let Some((_, times)) = alerts.get_index(*place) {
            firing = firing.saturating_add(times.fires() as usize);
        }
    }
    if firing == group.notified {
        tally.add_quiet(0);
        return Ok(());
    }
    let notice = notice(alloc, alerts, group.places.as_slice())?;
    group.notified = notice.len();
    tally.add_notice(notice.len());
    tally.add_flush(0);
    Ok(())
}

/// The label sets of the alerts at these places that fire.
fn notice(
    alloc: Global,
    alerts: &IndexMap<Labels, Times, Seed>,
    places: &[usize],
) -> Result<Vec<Labels>, BenchError> {
    let mut notice = Vec::with_capacity(alloc, places.len())?;
    for place in places {
        if let Some((labels, times)) = alerts.get_index(*place) {
            if times.fires() {
                notice.push(labels.copy(alloc)?)?;
            }
        }
    }
    Ok(notice)
}

impl Times {
    /// Whether it has begun, and has no end.
    fn fires(&self) -> bool {
        self.starts <= FIRST && self.ends.is_none()
    }
}
