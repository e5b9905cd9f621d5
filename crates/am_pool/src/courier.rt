//! `Courier`: who makes the attempts. Embedders implement it.
ghost use Rattle.std.specs.Prelude.{◌≡◌, ℕ, ◌+◌, List, [], ◌∷◌, ◌++◌, IfOk, OnOk, OnErr};
ghost use Rattle.am_pool.specs.Tries.{tried};
ghost use Rattle.am_pool.specs.declared.courier.Tried.{Tried};

use am_board::notice::Notice;
use am_retry::Answer;
use std::alloc::AllocError;

/// The result of one attempt.
#[derive(Clone, Copy, Debug, PartialEq, Eq)]
pub struct Sent {
    pub answer: Answer,
    /// When the attempt ended, in milliseconds.
    pub ended: u64,
}

/// One attempt that was made, as contracts see it.
#[derive(Clone, Copy, Debug, PartialEq, Eq)]
pub struct Tried {
    /// The id of the notice's board or desk.
    pub board_id: u64,
    /// The number of the notice's flush.
    pub ticket: u64,
    /// The position of the notice's integration in its receiver.
    pub integration: u32,
    /// Its number among the attempts of its notice, from 1.
    pub attempt: u64,
    /// Its time, in milliseconds.
    pub at: u64,
    pub answer: Answer,
    /// The end that the courier reported.
    pub ended: u64,
}

/// Makes attempts to send notices.
///
/// Contracts see the list of its attempts and the number of its refusals. A courier of a program
/// keeps both in a [`crate::AttemptTrace`], which takes no memory.
pub trait Courier {
    ghost tries: { Self → List Tried };

    ghost refusals: { Self → ℕ };

    /// Makes attempt number `attempt` (from 1) to send a notice, at the time `at` (milliseconds).
    ///
    /// # Errors
    ///
    /// `AllocError`: out of memory. Nothing is sent then.
    fn send(&mut self, notice: &Notice, attempt: u64, at: u64) -> Result<Sent, AllocError>
        ensures sent { IfOk result (λ sent. tries self.new ≡ tries self.old ++ tried notice.now attempt at sent ∷ []) }
        ensures willing { OnOk result (refusals self.new ≡ refusals self.old) }
        ensures unsent { OnErr result (tries self.new ≡ tries self.old) }
        ensures refuses { OnErr result (refusals self.new ≡ refusals self.old + 1) };
}

impl Tried {
    /// Returns the attempt of this number to send a notice, at this time, with this result.
    pub fn new(notice: &Notice, attempt: u64, at: u64, sent: &Sent) -> Tried
        ensures { result ≡ tried notice.now attempt at sent.now }
    {
        Tried {
            board_id: notice.board_id,
            ticket: notice.ticket,
            integration: notice.integration,
            attempt,
            at,
            answer: sent.answer,
            ended: sent.ended,
        }
    }
}
