//! The line between what two dispatchers did, where a story reloads or restarts the dispatcher.
ghost use Rattle.std.specs.Prelude.{◌≡◌, ◌++◌, IfOk, OnOk, codes, decimal, map, string_bytes};
ghost use Rattle.am_render.specs.Head.{change_of, entries_word, head_text, heads_of, kept_text, taken_text};

use am_simulation::playing::PlayedPart;
use am_terms::clock::{TimeFormat, push_column, push_number};
use am_terms::dispatcher_change::{Carryover, DispatcherChange};
use std::alloc::{AllocError, Global};

/// When a new dispatcher begins, and what it keeps of the one before it.
#[derive(Clone, Copy)]
pub struct Change {
    /// When the new one begins, in milliseconds after the start of the story.
    pub at: u64,
    /// What it keeps.
    pub carryover: Carryover,
}

/// What the line on a new dispatcher says.
#[derive(Clone, Copy)]
pub struct Head {
    /// The change.
    pub change: Change,
    /// How many rows the log before it had.
    pub rows: usize,
    /// How many of these it took over.
    pub taken: usize,
}

/// Returns when the dispatchers of a story change.
///
/// # Errors
///
/// `AllocError`: out of memory.
pub fn changes_of(
    alloc: Global,
    dispatcher_changes: &[DispatcherChange],
) -> Result<Vec<Change>, AllocError>
    ensures { IfOk result (λ changes. changes.items ≡ map change_of dispatcher_changes.now) }
{
    let mut changes = Vec::with_capacity(alloc, dispatcher_changes.len())?;
    for dispatcher_change in dispatcher_changes {
        changes.push(Change {
            at: dispatcher_change.at,
            carryover: dispatcher_change.carryover,
        })?;
    }
    Ok(changes)
}

/// Returns what the lines on these new dispatchers say. The parts are theirs.
pub(crate) fn heads_of(
    alloc: Global,
    changes: &[Change],
    parts: &[PlayedPart],
) -> Result<Vec<Head>, AllocError>
    ensures { IfOk result (λ heads. heads.items ≡ heads_of changes.now parts.now) }
{
    let mut heads = Vec::with_capacity(alloc, changes.len())?;
    add_heads(changes, parts, &mut heads)?;
    Ok(heads)
}

/// Adds them.
fn add_heads(
    changes: &[Change],
    parts: &[PlayedPart],
    heads: &mut Vec<Head>,
) -> Result<(), AllocError>
    ensures { OnOk result (heads.new.items ≡ heads.old.items ++ heads_of changes.now parts.now) }
{
    match (changes.split_first(), parts.split_first()) {
        (Some((change, changes)), Some((part, parts))) => {
            heads.push(Head {
                change: *change,
                rows: part.rows,
                taken: part.taken,
            })?;
            add_heads(changes, parts, heads)
        }
        _ => Ok(()),
    }
}

/// Adds the line on a new dispatcher, between empty lines.
#[tactic(auto, unfolding(crate::specs::Head::head_text))]
pub(crate) fn push_head<C: TimeFormat>(
    clock: &C,
    head: &Head,
    out: &mut String,
) -> Result<(), AllocError>
    ensures { OnOk result (string_bytes out.new ≡ string_bytes out.old ++ head_text (C.times clock.now) head.now) }
{
    out.push_str("\n")?;
    push_column(clock, head.change.at, out)?;
    push_kept(head, out)?;
    out.push_str("\n\n")
}

fn push_kept(head: &Head, out: &mut String) -> Result<(), AllocError>
    ensures { OnOk result (string_bytes out.new ≡ string_bytes out.old ++ kept_text head.now head.now.change.carryover) }
{
    match head.change.carryover {
        Carryover::All => {
            out.push_str("reload  ")?;
            push_taken(head, out)
        }
        Carryover::Log => {
            out.push_str("restart ")?;
            push_taken(head, out)
        }
        Carryover::Nothing => out.push_str("restart log and silences are lost"),
    }
}

/// Adds how much of the log is taken over.
fn push_taken(head: &Head, out: &mut String) -> Result<(), AllocError>
    ensures { OnOk result (string_bytes out.new ≡ string_bytes out.old ++ taken_text head.now.rows head.now.taken) }
{
    push_number(head.taken as u64, out)?;
    push_of(head.rows, out)
}

fn push_of(rows: usize, out: &mut String) -> Result<(), AllocError>
    ensures { OnOk result (string_bytes out.new
        ≡ string_bytes out.old ++ (codes " of " ++ decimal rows ++ entries_word rows ++ codes " taken over")) }
{
    out.push_str(" of ")?;
    push_number(rows as u64, out)?;
    out.push_str(entries_word(rows))?;
    out.push_str(" taken over")
}

#[tactic(auto, unfolding(crate::specs::Head::entries_word))]
fn entries_word(rows: usize) -> &'static str
    ensures { result.now ≡ entries_word rows }
{
    if rows == 1 {
        " log entry"
    } else {
        " log entries"
    }
}
