//! A rehearsal in which the dispatcher is reloaded or restarted, as a list of parts: one for each
//! dispatcher.
ghost use Rattle.std.specs.Prelude.{◌≡◌, ◌≤◌, ◌++◌, IfOk, OnOk};
ghost use Rattle.std.specs.List.{prefix_len};
ghost use Rattle.am_simulation.specs.DispatcherChange.{set_again};
ghost use Rattle.am_simulation.specs.Parts.{after, cut_at, is_before, parts_from, plans_before, plans_from, whole_part};
ghost use Rattle.am_terms.specs.declared.rehearsal.TheConstants.{MAX_UNTIL};

use crate::dispatcher_change::set_again;
use crate::span::Span;
use am_board::config::Config;
use am_seed::Seed;
use am_terms::dispatcher_change::{Carryover, DispatcherChange};
use am_terms::rehearsal::TimedAction;
use std::alloc::{AllocError, Global};
use std::marker::Model;

/// What one dispatcher has of a rehearsal.
#[derive(Drop)]
pub struct Part {
    pub config: Config,
    pub span: Span,
    /// The last time of its plans, maintenances, removals and begins.
    pub until: u64,
    /// Its plans, without the loads of the log rows that it takes over.
    pub plans: Vec<TimedAction>,
    /// What it keeps of the dispatcher before it.
    pub carryover: Carryover,
}

impl Model for Part {
    ghost use Rattle.std.specs.Coded.{codes};
    ghost use Rattle.std.specs.Prelude.{◌≤◌};
    ghost use Rattle.am_alerts.specs.Layout.{forest_code};
    ghost use Rattle.am_simulation.specs.Parts.{PartData};
    ghost use Rattle.am_terms.specs.declared.rehearsal.TheConstants.{MAX_UNTIL};

    ghost Value = { PartData };

    ghost coded = { Prim.hlevel (codes, forest_code) };

    ghost view = { λ p. record {
      config = p.config;
      span = p.span;
      until = p.until;
      plans = p.plans.items;
      carryover = p.carryover;
    } };

    ghost invariant = { λ p. p.until ≤ MAX_UNTIL };
}

/// Returns the parts of a rehearsal with these changes of the dispatcher, in the order of their times.
///
/// The first dispatcher starts at zero, and each other one at its reload or restart, at which the one before it
/// stops. A plan goes to the dispatcher that runs at its time. Before its own plans a dispatcher is
/// given again what still counts (`dispatcher_change::set_again`).
///
/// # Errors
///
/// `AllocError`: out of memory.
pub fn parts_of(
    alloc: Global,
    seed: Seed,
    config: Config,
    until: u64,
    plans: Vec<TimedAction>,
    dispatcher_changes: Vec<DispatcherChange>,
) -> Result<Vec<Part>, AllocError>
    requires until { until ≤ MAX_UNTIL }
    ensures { IfOk result (λ parts. parts.items ≡ parts_from (whole_part config until plans.items) dispatcher_changes.items) }
{
    let mut parts = Vec::new(alloc);
    let mut part = Part::whole(config, until, plans);
    for dispatcher_change in dispatcher_changes {
        match part.hand_over(alloc, seed, dispatcher_change) {
            Ok(next) => {
                parts.push(part)?;
                part = next;
            }
            Err(refused) => {
                drop(part);
                return Err(refused);
            }
        }
    }
    parts.push(part)?;
    Ok(parts)
}

impl Part {
    /// The part of a dispatcher that runs from the start, and isn't stopped.
    fn whole(config: Config, until: u64, plans: Vec<TimedAction>) -> Part
        requires until { until ≤ MAX_UNTIL }
        ensures { result ≡ whole_part config until plans.items }
    {
        Part {
            config,
            span: Span::whole(),
            until,
            plans,
            carryover: Carryover::Nothing,
        }
    }

    /// Leaves what comes before a change of the dispatcher, and returns the part of the dispatcher that follows.
    fn hand_over(
        &mut self,
        alloc: Global,
        seed: Seed,
        dispatcher_change: DispatcherChange,
    ) -> Result<Part, AllocError>
        ensures left { OnOk result (self.new ≡ cut_at dispatcher_change.at self.old) }
        ensures next { IfOk result (λ next. next ≡ after dispatcher_change self.old) }
    {
        let DispatcherChange {
            at,
            config,
            carryover,
        } = dispatcher_change;
        let until = self.until;
        let plans = split_plans(alloc, seed, carryover, at, &mut self.plans)?;
        self.span.cut = Some(at);
        self.until = until.min(at.saturating_sub(1));
        Ok(Part {
            config,
            span: Span {
                since: at,
                cut: None,
            },
            until,
            plans,
            carryover,
        })
    }
}

/// Leaves the plans before a change of the dispatcher, and returns those of the dispatcher that follows.
fn split_plans(
    alloc: Global,
    seed: Seed,
    carryover: Carryover,
    at: u64,
    plans: &mut Vec<TimedAction>,
) -> Result<Vec<TimedAction>, AllocError>
    ensures left { OnOk result (plans.new.items ≡ plans_before at plans.old.items) }
    ensures next { IfOk result (λ next. next.items
        ≡ set_again carryover at (plans_before at plans.old.items) ++ plans_from at plans.old.items) }
{
    let count = count_before(at, plans.as_slice());
    let mut later = plans.split_off(count)?;
    let mut next = set_again(alloc, seed, carryover, at, plans.as_slice())?;
    next.append(&mut later)?;
    Ok(next)
}

/// Returns how many plans come before the first that is at a time or after it.
fn count_before(at: u64, plans: &[TimedAction]) -> usize
    ensures { result ≡ prefix_len (is_before at) plans.now }
{
    for i in 0..plans.len() {
        if plans[i].at >= at {
            return i;
        }
    }
    plans.len()
}
