//! Rows of a table. Each can be measured in a process of its own.
use crate::words::BenchError;

/// The step that a process measures, after those that it needs alone; or all steps.
#[derive(Clone, Copy)]
pub enum Row {
    All,
    /// Inserts of new alerts.
    New,
    /// Inserts of the same again.
    Again,
    /// The same in another order.
    Order,
    /// A first flush.
    First,
    /// A flush after which nothing changed.
    Quiet,
    /// What follows when one alert ends, or one silence.
    One,
}

impl Row {
    /// The row of this word. No word means all steps.
    pub fn of(word: &str) -> Result<Row, BenchError> {
        match word {
            "" => Ok(Row::All),
            "new" => Ok(Row::New),
            "again" => Ok(Row::Again),
            "order" => Ok(Row::Order),
            "first" => Ok(Row::First),
            "quiet" => Ok(Row::Quiet),
            "one" => Ok(Row::One),
            _ => Err(BenchError::BadLine),
        }
    }
}
