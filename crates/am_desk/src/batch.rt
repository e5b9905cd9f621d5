//! Many inserts under one hold of the lock: each has its record and its answer, as by a call of its own.
ghost use Rattle.std.specs.Prelude.{◌≡◌, IfOk, OnErr};
ghost use Rattle.am_desk.specs.Batches.{AreAnswered};
ghost use Rattle.am_desk.specs.Known.{IsCellOf};

use crate::desk::Desk;
use crate::keeper::Keeper;
use crate::kind::{Kind, Origin};
use crate::name::Name;
use crate::pass::Pass;
use crate::wait::made_by;
use crate::word::Cell;
use am_alerts::alert::Alert;
use am_board::fault::Fault;
use am_board::record::Inserted;
use std::alloc::{AllocError, Global};
use std::sync::Wait;

impl<N: Name, K: Kind, L: Origin> Desk<N, K, L> {
    /// Calls `Board::insert` for each of these alerts, in their order, under one hold of the lock.
    ///
    /// Clause `each`: an alert that is refused refuses no other. Threads that insert many alerts
    /// hand the lock over once for all of them, and not for each.
    ///
    /// # Errors
    ///
    /// `AllocError` where there is no memory for the answers. No call was made then. The answer to
    /// an alert has the errors of `insert`.
    pub fn insert_all<R: Wait>(
        &self,
        rt: &R,
        alloc: Global,
        pass: &mut Pass<N, L>,
        now: u64,
        alerts: Vec<Alert>,
    ) -> Result<Vec<Result<Inserted, Fault>>, AllocError>
        ensures each { IfOk result (λ answers. AreAnswered K.takes N.terms now pass.old alerts.items answers.items pass.new) }
        ensures starved { OnErr result (pass.new ≡ pass.old) }
    {
        let starts = first_start(&alerts);
        let mut held = self.hold(rt, now);
        let answers = held
            .keeper
            .insert_all(&self.table.shared, alloc, pass, now, alerts);
        self.let_go_inserted(held, now, starts, made_by_all(&answers));
        answers
    }
}

impl<N: Name, K: Kind, L: Origin> Keeper<N, K, L> {
    fn insert_all(
        &mut self,
        cell: &Cell,
        alloc: Global,
        pass: &mut Pass<N, L>,
        now: u64,
        alerts: Vec<Alert>,
    ) -> Result<Vec<Result<Inserted, Fault>>, AllocError>
        requires { IsCellOf N.plan.table cell.now.table_id }
        ensures each { IfOk result (λ answers. AreAnswered K.takes N.terms now pass.old alerts.items answers.items pass.new) }
        ensures starved { OnErr result (pass.new ≡ pass.old) }
    {
        let mut answers = Vec::with_capacity(alloc, alerts.len())?;
        for alert in alerts {
            let answer = self.insert(cell, alloc, pass, now, alert);
            answers.push_reserved(answer);
        }
        Ok(answers)
    }
}

/// When the first of these alerts starts.
fn first_start(alerts: &Vec<Alert>) -> u64 {
    let mut first = u64::MAX;
    for alert in alerts.iter() {
        first = first.min(alert.starts());
    }
    first
}

/// How many groups several inserts made: one if they made more.
fn made_by_all(answers: &Result<Vec<Result<Inserted, Fault>>, AllocError>) -> usize {
    match answers {
        Ok(answers) => usize::from(answers.iter().any(|answer| made_by(answer) > 0)),
        Err(_) => 0,
    }
}
