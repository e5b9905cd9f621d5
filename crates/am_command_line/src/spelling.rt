//! Words that were meant.
use std::alloc::{AllocError, Global};
use strsim::osa_distance;

/// The word that comes nearest to another so far.
#[derive(Clone, Copy)]
pub struct Nearest<'w> {
    word: &'w str,
    found: Option<&'w str>,
    /// How many letters differ at most.
    most: usize,
}

impl<'w> Nearest<'w> {
    /// Returns a search for what was meant by a word.
    pub fn to(word: &'w str) -> Nearest<'w> {
        Nearest {
            word,
            found: None,
            most: 1 + word.len() / 4,
        }
    }

    /// Tries a word.
    pub fn consider(&mut self, alloc: Global, known: &'w str) -> Result<(), AllocError> {
        if known.len() > 200 || self.word.len() > 200 || known == self.word {
            return Ok(());
        }
        let distance = osa_distance(alloc, self.word, known)?;
        if distance <= self.most {
            self.found = Some(known);
            self.most = distance.saturating_sub(1);
        }
        Ok(())
    }

    /// Returns the nearest word, if one is near.
    pub fn found(self) -> Option<&'w str> {
        self.found
    }
}
