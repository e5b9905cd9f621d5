//! The alerts that are inserted, and the silences of some of them.
use crate::requests::values;
use crate::words::{BenchError, both};
use am_alerts::alert::Alert;
use am_alerts::labels::{LabelFault, Labels};
use am_alerts::matcher::Matcher;
use am_alerts::text::Text;
use am_mute::silence::Silence;
use std::alloc::{AllocError, Global};
use std::ops::Range;

/// The severity of an alert that inhibits.
pub const CRITICAL: &str = "critical";

/// The severity of any other alert.
pub const WARNING: &str = "warning";

/// From each alert to the next in another order: a prime. So each alert comes once, unless their
/// number is a multiple of it.
pub const STRIDE: usize = 104_729;

/// The alerts of a piece.
#[derive(Clone, Copy)]
pub struct Load {
    pub alerts: usize,
    pub groups: usize,
}

impl Load {
    /// The alerts at these indexes of an order, in which one comes so far behind another. Each is in
    /// the group of its number modulo the number of groups.
    pub fn build(
        &self,
        alloc: Global,
        indexes: Range<usize>,
        stride: usize,
        ends: Option<u64>,
    ) -> Result<Vec<Alert>, BenchError> {
        let mut alerts = Vec::new(alloc);
        for index in indexes {
            let number = index
                .saturating_mul(stride)
                .checked_rem(self.alerts)
                .unwrap_or(0);
            let sample = Sample {
                group: number.checked_rem(self.groups).unwrap_or(0),
                number,
                instance: number,
                severity: WARNING,
            };
            alerts.push(sample.build(alloc, ends)?)?;
        }
        Ok(alerts)
    }
}

/// What says one alert from another.
#[derive(Drop)]
pub struct Sample {
    /// The number of its group, which is in the alertname.
    pub group: usize,
    /// Its own number, which is in the job.
    pub number: usize,
    pub instance: usize,
    pub severity: &'static str,
}

impl Sample {
    /// The alert of these numbers, which starts so many milliseconds after 0.
    pub fn build(&self, alloc: Global, ends: Option<u64>) -> Result<Alert, BenchError> {
        let labels = self.labels(alloc)?;
        Alert::new(labels, self.number as u64, ends).map_err(|_| BenchError::BadLine)
    }

    fn labels(&self, alloc: Global) -> Result<Labels, BenchError> {
        let names = both(alertname(alloc, self.group), instance(alloc, self.instance));
        let ((alertname, instance), job) = both(names, job(alloc, self.number))?;
        let labels = labels(
            alloc,
            alertname.as_str(),
            instance.as_str(),
            job.as_str(),
            self.severity,
        );
        drop(job);
        drop(instance);
        drop(alertname);
        labels
    }
}

/// Six labels, four of which are given.
fn labels<'a>(
    alloc: Global,
    alertname: &'a str,
    instance: &'a str,
    job: &'a str,
    severity: &'a str,
) -> Result<Labels, BenchError> {
    let pairs = [
        ("alertname", alertname),
        ("cluster", "eu-west-1"),
        ("instance", instance),
        ("job", job),
        ("severity", severity),
        ("team", "platform"),
    ];
    match Labels::read(alloc, &pairs) {
        Ok(labels) => Ok(labels),
        Err(LabelFault::NoMemory) => Err(BenchError::NoMemory),
        Err(_) => Err(BenchError::BadLine),
    }
}

/// The label value of a group.
pub fn alertname(alloc: Global, number: usize) -> Result<String, BenchError> {
    Ok(format!(in alloc; "A{number:04}")?)
}

/// The label value of an instance.
fn instance(alloc: Global, number: usize) -> Result<String, BenchError> {
    Ok(format!(in alloc; "host-{number:05}:9100")?)
}

/// The label value of a job.
fn job(alloc: Global, number: usize) -> Result<String, BenchError> {
    Ok(format!(in alloc; "exporter-{number:05}")?)
}

/// Matches the label sets in which this label has this value, in a list.
pub fn matchers(alloc: Global, name: &str, value: &str) -> Result<Vec<Matcher>, BenchError> {
    Ok(values::matchers(alloc, name, value)?)
}

/// The text of a name or a value.
pub fn text(alloc: Global, text: &str) -> Result<Text, BenchError> {
    Ok(Text::new(alloc, text)?)
}

/// A list of one value.
pub fn listed<T: Drop>(alloc: Global, value: T) -> Result<Vec<T>, AllocError> {
    let mut list = Vec::new(alloc);
    list.push(value)?;
    Ok(list)
}

/// The silence of this id, which mutes an instance up to a time.
pub fn silence(alloc: Global, id: u64, number: usize, end: u64) -> Result<Silence, BenchError> {
    let value = instance(alloc, number)?;
    let matchers = matchers(alloc, "instance", value.as_str());
    drop(value);
    Silence::new(id, matchers?, 0, end).map_err(|_| BenchError::BadLine)
}
