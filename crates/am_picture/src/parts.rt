//! What a history says of its flushes: their notices, and what these came to.
use am_model::notice::Notice;
use am_model::record::{Call, Record};
use am_retry::Outcome;
use am_seed::Seed;
use am_timeline::playback::notices_in;
use std::alloc::{AllocError, Global};
use std::collections::HashMap;

/// Returns the position of the record that finished each flush, by the flush's number. The records are read once, from
/// the end. No flush is finished twice; if one were, its first finish would count.
pub(crate) fn finishes_of(
    alloc: Global,
    seed: Seed,
    history: &[Record],
) -> Result<HashMap<u64, usize, Seed>, AllocError> {
    let mut finishes = HashMap::with_hasher(alloc, seed);
    for index in (0..history.len()).rev() {
        if let Call::Finish { number, .. } = &history[index].call {
            finishes.insert(*number, index)?;
        }
    }
    Ok(finishes)
}

/// Returns what the notices of a flush came to, by its number; nothing where it isn't finished.
pub(crate) fn outcomes_by<'h>(
    history: &'h [Record],
    finishes: &HashMap<u64, usize, Seed>,
    number: u64,
) -> &'h [(u32, Outcome)] {
    let Some(index) = finishes.get(&number) else {
        return &[];
    };
    match history.get(*index) {
        None => &[],
        Some(record) => outcomes_of(record),
    }
}

fn outcomes_of(record: &Record) -> &[(u32, Outcome)] {
    match &record.call {
        Call::Finish { outcomes, .. } => outcomes.as_slice(),
        _ => &[],
    }
}

/// Returns the notice for an integration of the flush that the record at an index began.
pub(crate) fn notice_of(history: &[Record], index: usize, integration: u32) -> Option<&Notice> {
    let record = history.get(index)?;
    notices_in(&record.reply)
        .iter()
        .find(|notice| notice.integration == integration)
}
