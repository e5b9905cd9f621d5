//! Expectations that are judged: for each the fitting notices are counted once, and all that is reported of it takes this count.
ghost use Rattle.std.specs.Prelude.{◌≡◌, ◌≤◌, ◌<◌, ◌*◌, ◌^◌, ◌++◌, IfOk, IsTrue, OnOk, length, map, slice_index_or};
ghost use Rattle.am_judge.specs.Expectation.{are_few, count_fitting, is_met, unmet_at, unmet_from};
ghost use Rattle.am_terms.specs.Expectation.{allows};

use crate::expectation::count_fitting;
use am_terms::expectation::{Amount, Expectation};
use am_timeline::playback::Playback;
use std::alloc::{AllocError, Global};

/// Expectations, and how many notices fit each.
///
/// A rehearsal is a playback for each dispatcher, in their order, and all are judged together.
#[derive(Drop)]
pub struct Judged<'q> {
    pub alloc: Global,
    pub playbacks: &'q [Playback<'q>],
    pub expectations: &'q [Expectation],
    /// How many notices fit, over all playbacks. Without playbacks none fits.
    pub counts: Vec<u128>,
    ghost counted: { counts.items ≡ map (count_fitting playbacks.now) expectations.now },
    ghost few: { IsTrue (are_few (length playbacks.now) counts.items) },
}

/// One of these expectations, with its count.
#[derive(Clone, Copy)]
pub struct Question<'q> {
    pub alloc: Global,
    pub playbacks: &'q [Playback<'q>],
    pub expectation: &'q Expectation,
    /// How many notices fit, over all playbacks.
    pub fitting: u128,
    ghost counted: { fitting ≡ count_fitting playbacks.now expectation.now },
    ghost few: { fitting ≤ length playbacks.now * 2 ^ 64 },
}

/// Judges expectations. Cost: for each, that of the timelines of all playbacks.
pub fn judge<'q>(
    alloc: Global,
    playbacks: &'q [Playback<'q>],
    expectations: &'q [Expectation],
) -> Result<Judged<'q>, AllocError>
    ensures playbacks { IfOk result (λ judged. judged.playbacks.now ≡ playbacks.now) }
    ensures expectations { IfOk result (λ judged. judged.expectations.now ≡ expectations.now) }
{
    let counts = counts_of(alloc, playbacks, expectations)?;
    Ok(Judged {
        alloc,
        playbacks,
        expectations,
        counts,
    })
}

/// How many notices fit each expectation.
fn counts_of(
    alloc: Global,
    playbacks: &[Playback<'_>],
    expectations: &[Expectation],
) -> Result<Vec<u128>, AllocError>
    ensures counted { IfOk result (λ counts. counts.items ≡ map (count_fitting playbacks.now) expectations.now) }
    ensures few { IfOk result (λ counts. IsTrue (are_few (length playbacks.now) counts.items)) }
{
    let mut counts = Vec::with_capacity(alloc, expectations.len())?;
    for expectation in expectations {
        counts.push(count_fitting(alloc, playbacks, expectation)?)?;
    }
    Ok(counts)
}

impl<'q> Judged<'q> {
    /// Returns an expectation by its number, from 0 on.
    pub fn question(&self, number: usize) -> Question<'q>
        requires { number < length self.now.expectations.now }
        ensures playbacks { result.playbacks.now ≡ self.now.playbacks.now }
        ensures expectation { result.expectation.now
            ≡ slice_index_or self.now.expectations.now number result.expectation.now }
    {
        let expectations = self.expectations;
        Question {
            alloc: self.alloc,
            playbacks: self.playbacks,
            expectation: &expectations[number],
            fitting: self.counts[number],
        }
    }

    /// Returns the numbers of the expectations that aren't met, from 0 on and in order.
    pub fn unmet(&self) -> Result<Vec<usize>, AllocError>
        ensures { IfOk result (λ numbers. numbers.items
            ≡ unmet_from self.now.playbacks.now 0 self.now.expectations.now) }
    {
        let mut unmet = Vec::new(self.alloc);
        for number in 0..self.expectations.len() {
            push_if_unmet(&self.question(number), number, &mut unmet)?;
        }
        Ok(unmet)
    }
}

/// Adds the number of an expectation, if it isn't met.
fn push_if_unmet(
    question: &Question<'_>,
    number: usize,
    unmet: &mut Vec<usize>,
) -> Result<(), AllocError>
    ensures { OnOk result (unmet.new.items
        ≡ unmet.old.items ++ unmet_at question.now.playbacks.now number question.now.expectation.now) }
{
    if question.is_met() {
        return Ok(());
    }
    unmet.push(number)?;
    Ok(())
}

impl Question<'_> {
    /// Returns whether the expectation is met: whether as many notices fit, over all playbacks, as are expected.
    pub fn is_met(&self) -> bool
        ensures { result ≡ is_met self.now.playbacks.now self.now.expectation.now }
    {
        allows(self.expectation.amount, self.fitting)
    }
}

/// Whether so many notices are as many as are expected. A number that is no `u64` is more than is ever expected.
fn allows(amount: Amount, count: u128) -> bool
    ensures { result ≡ allows amount count }
{
    match u64::try_from(count) {
        Ok(count) => amount.allows(count),
        Err(_) => amount == Amount::AtLeastOne,
    }
}
