//! `Span`: a stretch of time in which an alert fires.
use am_alerts::alert::Alert;
use std::alloc::AllocError;

/// A stretch of time, in milliseconds.
#[derive(Clone, Copy, PartialEq, Eq)]
pub(crate) struct Span {
    pub(crate) from: u64,
    /// The first time after it; none where it hasn't ended.
    pub(crate) to: Option<u64>,
}

/// Adds that an alert fires, or when it was resolved. A dispatcher that takes over is given again what it has to know:
/// that changes nothing.
pub(crate) fn add_insert(spans: &mut Vec<Span>, alert: &Alert) -> Result<(), AllocError> {
    let next = Span {
        from: alert.starts(),
        to: alert.ends(),
    };
    let Some(last) = spans.pop() else {
        return add(spans, next);
    };
    if last.to.is_none() {
        return add(
            spans,
            Span {
                from: last.from,
                to: next.to,
            },
        );
    }
    add(spans, last)?;
    if last.to != next.to {
        return add(spans, next);
    }
    Ok(())
}

fn add(spans: &mut Vec<Span>, span: Span) -> Result<(), AllocError> {
    spans.push(span)?;
    Ok(())
}
