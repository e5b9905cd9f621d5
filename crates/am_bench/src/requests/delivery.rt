//! Who sends.
use am_board::notice::Notice;
use am_pool::{AttemptTrace, Courier, Sent, Tried};
use am_retry::Answer;
use std::alloc::AllocError;

/// A courier whose first attempts fail, so many. It sends nothing and takes no memory.
#[derive(Drop)]
pub struct Pager {
    trace: AttemptTrace,
    failures: u64,
}

impl Pager {
    pub fn new(failures: u64) -> Pager {
        Pager {
            trace: AttemptTrace::new(),
            failures,
        }
    }
}

impl Courier for Pager {
    ghost tries = { λ p. p.trace.tries };

    ghost refusals = { λ p. p.trace.refusals };

    fn send(&mut self, notice: &Notice, attempt: u64, at: u64) -> Result<Sent, AllocError> {
        let answer = if attempt <= self.failures {
            Answer::Again
        } else {
            Answer::Done
        };
        let sent = Sent { answer, ended: at };
        self.trace.add_try(&Tried::new(notice, attempt, at, &sent));
        Ok(sent)
    }
}
