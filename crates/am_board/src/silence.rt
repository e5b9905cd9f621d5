//! Silences: `put_silence` adds one or replaces the one with its id.
ghost use Rattle.std.specs.Prelude.{◌≡◌, ℕ, ◌<◌, None, IfOk, MatchResult, vec_len};
ghost use Rattle.std.specs.List.{position};
ghost use Rattle.am_alerts.specs.Fault.{ok_unless};
ghost use Rattle.am_mute.specs.Silence.{SilenceData};
ghost use Rattle.am_model.specs.Causes.{silence_cause};
ghost use Rattle.am_model.specs.Records.{entry, call_of_silence};
ghost use Rattle.am_board.specs.Refinement.{state_of};
ghost use Rattle.am_model.specs.Lists.{upsert};
ghost use Rattle.am_board.specs.Step.{StateInvariant, AppliesCall, LeavesUnchanged, IsAnswer};
ghost use Rattle.am_model.specs.Maintenance.{same_silence};

use crate::config::Config;
use crate::fault::Fault;
use crate::record::{Call, Record, Reply, Silenced};
use crate::silences::NotedSilences;
use crate::state::State;
use am_alerts::matcher::{Matcher, MatcherParts};
use am_alerts::sequence::Sequence;
use am_model::boxed::Boxed;
use am_mute::silence::Silence;
use std::alloc::{AllocError, Global};

/// Puts a silence in place of the one with its id, or adds it.
pub(crate) fn put_silence(
    alloc: Global,
    config: &Config,
    state: &mut State,
    pass: u32,
    now: u64,
    silence: Silence,
) -> Result<Silenced, Fault>
    requires good { StateInvariant config.now state.old }
    ensures { MatchResult result
        (λ silenced. (silence_cause config.now (vec_len state.old.history) (state_of state.old) silence ≡ None)
        × ((id : ℕ) → AppliesCall config.now id (entry pass (call_of_silence now silence) (Reply.Silenced silenced)) state.old state.new))
        (λ fault. IsAnswer (silence_cause config.now (vec_len state.old.history) (state_of state.old) silence) fault
        × LeavesUnchanged config.now state.old state.new) }
{
    let index = index_for(config, state, silence.id())?;
    let call = Call::Silence {
        now,
        id: silence.id(),
        matchers: parts_of(alloc, silence.matchers())?,
        start: silence.start(),
        end: silence.end(),
    };
    state.history.reserve(state.flushes.len() + 1)?;
    state.silences.reserve(1)?;

    let silenced = Silenced {
        replaced: index.is_some(),
    };
    state.clock = state.time(now);
    keep_silence(alloc, &mut state.silences, index, silence);
    let reply = Reply::Silenced(silenced);
    state.history.push_reserved(Record { pass, call, reply });
    Ok(silenced)
}

/// The index of the silence of this id, if there is one and the call isn't refused.
fn index_for(config: &Config, state: &State, id: u64) -> Result<Option<usize>, Fault>
    ensures { (silence : SilenceData) → silence.id ≡ id →
        result
        ≡ ok_unless (silence_cause config.now (vec_len state.now.history) (state_of state.now) silence)
        (position (same_silence silence) state.now.silences.items) }
{
    if !state.has_space(1, config.limits.history) {
        return Err(Fault::HistoryFull);
    }
    let index = state.silences.find(id);
    if index.is_none() && state.silences.len() >= config.limits.silences {
        return Err(Fault::TooManySilences);
    }
    Ok(index)
}

/// Puts a silence in place of the one with its id, which is at this index, or adds it.
fn keep_silence(alloc: Global, silences: &mut NotedSilences, index: Option<usize>, silence: Silence)
    requires index { index ≡ position (same_silence silence) silences.old.items }
    requires space { 0 < silences.old.space }
    ensures { silences.new.items ≡ upsert same_silence silence silences.old.items }
{
    match index {
        Some(i) => silences.replace(alloc, i, silence),
        None => silences.add(alloc, silence),
    }
}

/// What these matchers are made of.
fn parts_of(
    alloc: Global,
    matchers: &[Matcher],
) -> Result<Boxed<Sequence<MatcherParts>>, AllocError>
    ensures { IfOk result (λ parts. parts ≡ matchers.now) }
{
    let mut parts = Vec::with_capacity(alloc, matchers.len())?;
    for matcher in matchers {
        parts.push(matcher.parts().copy(alloc)?)?;
    }
    Ok(Boxed::new(alloc, Sequence::from(parts))?)
}
