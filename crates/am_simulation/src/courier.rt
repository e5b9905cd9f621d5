//! A courier that answers as the outages say, up to the time at which its dispatcher is stopped.
//!
//! The outages, the receiver and that time are named by a type (`Outages`), which a caller picks with `Brand`.
//! So it is known of each such courier how its attempts are answered, though `deliver` says nothing
//! else of the courier that it was given.
ghost use Rattle.std.specs.Prelude.{◌≡◌, ◌≤◌, All, find, min, option_copied};
ghost use Rattle.am_pool.specs.Sendings.{IsAnsweredBy};
ghost use Rattle.am_simulation.specs.Answers.{answer_of, covers, cut_short, is_for, is_over, sent_by, tried_until};

use am_alerts::text::Text;
use am_board::notice::Notice;
use am_pool::{AttemptTrace, Courier, Sent, Tried};
use am_retry::Answer;
use am_terms::rehearsal::Outage;
use std::alloc::AllocError;
use std::marker::{Brand, PhantomData};

/// Names the outages of one rehearsal, a receiver and a cut in proofs. It has no functions.
pub(crate) trait Outages {
    ghost use Rattle.std.specs.Prelude.{ℕ, List, Option};
    ghost use Rattle.am_terms.specs.declared.rehearsal.Outage.{Outage};

    ghost outages: { List Outage };

    ghost receiver: { List ℕ };

    ghost cut: { Option ℕ };
}

impl Outages for Brand {
    ghost use Rattle.std.specs.Prelude.{[], None};

    ghost outages = { [] };

    ghost receiver = { [] };

    ghost cut = { None };
}

/// A courier for one receiver. It answers each attempt by the first outage that covers it, and else
/// done at once. An attempt that would end after the cut fails then.
///
/// It never refuses an attempt.
#[derive(Drop)]
pub(crate) struct OutageCourier<'o, O: Outages> {
    outages: &'o [Outage],
    receiver: &'o Text,
    /// When the dispatcher is stopped, in milliseconds.
    cut: Option<u64>,
    trace: AttemptTrace,
    of: PhantomData<O>,
    ghost given: { outages.now ≡ O.outages },
    ghost to: { receiver.now ≡ O.receiver },
    ghost stopped: { cut ≡ O.cut },
    ghost answered: { All (IsAnsweredBy (answer_of O.cut O.outages O.receiver)) trace.tries },
    ghost willing: { trace.refusals ≡ 0 },
}

impl<'o, O: Outages> OutageCourier<'o, O> {
    pub(crate) fn new(
        outages: &'o [Outage],
        receiver: &'o Text,
        cut: Option<u64>,
    ) -> OutageCourier<'o, O>
        requires outages { outages.now ≡ O.outages }
        requires receiver { receiver.now ≡ O.receiver }
        requires cut { cut ≡ O.cut }
    {
        OutageCourier {
            outages,
            receiver,
            cut,
            trace: AttemptTrace::new(),
            of: PhantomData,
        }
    }

    /// Returns up to when a notice with this deadline is tried, in milliseconds.
    pub(crate) fn tried_until(&self, deadline: u64) -> u64
        ensures until { result ≡ tried_until O.cut deadline }
        ensures sooner { result ≤ deadline }
    {
        match self.cut {
            None => deadline,
            Some(cut) => deadline.min(cut),
        }
    }
}

/// How an attempt at `at` goes that would go so, where the dispatcher can be stopped.
fn cut_short(cut: Option<u64>, at: u64, sent: Sent) -> Sent
    ensures { result ≡ cut_short cut at sent }
{
    match cut {
        None => sent,
        Some(cut) => {
            if cut < sent.ended {
                Sent {
                    answer: Answer::Never,
                    ended: at.max(cut),
                }
            } else {
                sent
            }
        }
    }
}

/// How the attempt at `at` for an integration of a receiver goes if nothing stops the dispatcher.
fn answer(outages: &[Outage], receiver: &Text, integration: u32, at: u64) -> Sent
    ensures { result ≡ sent_by at (find (covers receiver.now integration at) outages.now) }
{
    match first_covering(outages, receiver, integration, at) {
        None => Sent {
            answer: Answer::Done,
            ended: at,
        },
        Some(outage) => Sent {
            answer: outage.answer,
            ended: at.saturating_add(outage.takes),
        },
    }
}

/// The first of these outages that covers an attempt at `at` for an integration of a receiver.
fn first_covering<'o>(
    outages: &'o [Outage],
    receiver: &Text,
    integration: u32,
    at: u64,
) -> Option<&'o Outage>
    ensures { option_copied result ≡ find (covers receiver.now integration at) outages.now }
{
    outages
        .iter()
        .find(|outage| covers(outage, receiver, integration, at))
}

/// Returns whether an outage covers an attempt at `at` for this integration of this receiver.
fn covers(outage: &Outage, receiver: &Text, integration: u32, at: u64) -> bool
    ensures { result ≡ covers receiver.now integration at outage.now }
{
    let is_notified = is_for(integration, outage.integration);
    let is_past = is_over(at, outage.to);
    let is_same = outage.receiver == *receiver;
    is_notified && outage.from <= at && !is_past && is_same
}

/// Returns whether an outage of one integration, or of all, is of this one.
fn is_for(integration: u32, of: Option<u32>) -> bool
    ensures { result ≡ is_for integration of }
{
    match of {
        None => true,
        Some(position) => position == integration,
    }
}

/// Returns whether a span that ends at some time, or never, is over.
fn is_over(at: u64, to: Option<u64>) -> bool
    ensures { result ≡ is_over at to }
{
    match to {
        None => false,
        Some(to) => to <= at,
    }
}

impl<O: Outages> Courier for OutageCourier<'_, O> {
    ghost tries = { λ c. c.trace.tries };

    ghost refusals = { λ c. c.trace.refusals };

    fn send(&mut self, notice: &Notice, attempt: u64, at: u64) -> Result<Sent, AllocError> {
        let answered = answer(self.outages, self.receiver, notice.integration, at);
        let sent = cut_short(self.cut, at, answered);
        let tried = Tried::new(notice, attempt, at, &sent);
        self.trace.add_try(&tried);
        Ok(sent)
    }
}
