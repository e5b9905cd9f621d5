//! Couriers that answer by the scripts of a scenario.
//!
//! The scripts are named by a type (`Scripts`), which a caller picks with `Brand`. How attempts are
//! answered is a predicate of the courier's type (`Answering`), with a law that each attempt is so.
//! Then the couriers that `run_jobs` hands back answer as those that it got, though its contract
//! says nothing else of them. A courier of which nothing is known has a predicate that is always
//! true. Attempt k is answered by the k-th item of the first script for its flush and integration,
//! or by the last. Cost of an attempt: the scripts.
ghost use Rattle.std.specs.Prelude.{◌≡◌, All, IfOk, find, option_copied, vec_len};
ghost use Rattle.am_scenario.specs.Scripts.{IsAsPlanned, planned_for, is_script_for};

use am_board::notice::Notice;
use am_pool::{AttemptTrace, Courier, Sent, Tried};
use am_scenario::scenario::{Script, ScriptedAnswer};
use std::alloc::{AllocError, Global};
use std::marker::{Brand, PhantomData};

/// Names the scripts of one scenario in proofs. It has no functions.
pub trait Scripts {
    ghost use Rattle.std.specs.Prelude.{List};
    ghost use Rattle.am_scenario.specs.declared.scenario.script.Script.{Script};

    ghost scripts: { List Script };
}

impl Scripts for Brand {
    ghost use Rattle.std.specs.Prelude.{[]};

    ghost scripts = { [] };
}

/// A courier of which it is known how its tries are answered. It has no functions of its own.
pub trait Answering: Courier {
    ghost use Rattle.std.specs.Prelude.{All};
    ghost use Rattle.am_pool.specs.declared.courier.Tried.{Tried};

    // Which tries it may make.
    ghost answers: { Tried → Type 0 };

    // It has made no others.
    ghost answered: { (c : Self) → All answers (Self.tries c) };
}

/// Answers each attempt as the first script of its notice says, or, where there is none, that it was
/// done at once. It never refuses one.
#[derive(Drop)]
pub struct ScriptedCourier<'s, S: Scripts> {
    scripts: &'s [Script],
    trace: AttemptTrace,
    of: PhantomData<S>,
    ghost given: { scripts.now ≡ S.scripts },
    ghost planned: { All (IsAsPlanned S.scripts) trace.tries },
}

impl<'s, S: Scripts> ScriptedCourier<'s, S> {
    fn new(scripts: &'s [Script]) -> ScriptedCourier<'s, S>
        requires { scripts.now ≡ S.scripts }
    {
        ScriptedCourier {
            scripts,
            trace: AttemptTrace::new(),
            of: PhantomData,
        }
    }

    fn plan(&self, notice: &Notice, attempt: u64) -> ScriptedAnswer
        ensures { result ≡ planned_for S.scripts notice.now.ticket notice.now.integration attempt }
    {
        match script_for(self.scripts, notice) {
            None => ScriptedAnswer::at_once(),
            Some(script) => script.answer_to(attempt),
        }
    }
}

/// So many couriers, who answer by the scripts that are named.
pub fn couriers_for<'s, S: Scripts>(
    alloc: Global,
    count: usize,
    scripts: &'s [Script],
) -> Result<Vec<ScriptedCourier<'s, S>>, AllocError>
    requires { scripts.now ≡ S.scripts }
    ensures { IfOk result (λ couriers. vec_len couriers ≡ count) }
{
    let mut couriers = Vec::new(alloc);
    for _ in 0..count {
        couriers.push(ScriptedCourier::new(scripts))?;
    }
    Ok(couriers)
}

impl<S: Scripts> Courier for ScriptedCourier<'_, S> {
    ghost tries = { λ c. c.trace.tries };

    ghost refusals = { λ c. c.trace.refusals };

    fn send(&mut self, notice: &Notice, attempt: u64, at: u64) -> Result<Sent, AllocError> {
        let sent = self.plan(notice, attempt).sent_at(at);
        let tried = Tried::new(notice, attempt, at, &sent);
        self.trace.add_try(&tried);
        Ok(sent)
    }
}

impl<S: Scripts> Answering for ScriptedCourier<'_, S> {
    ghost answers = { IsAsPlanned S.scripts };

    ghost answered = { λ c. c.planned };
}

/// The first script of a notice, if there is one.
fn script_for<'s>(scripts: &'s [Script], notice: &Notice) -> Option<&'s Script>
    ensures { option_copied result ≡ find (is_script_for notice.now.ticket notice.now.integration) scripts.now }
{
    scripts.iter().find(|script| is_for(script, notice))
}

fn is_for(script: &Script, notice: &Notice) -> bool
    ensures { result ≡ is_script_for notice.now.ticket notice.now.integration script.now }
{
    script.ticket == notice.ticket && script.integration == u64::from(notice.integration)
}
