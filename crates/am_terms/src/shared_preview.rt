//! `SharedPreview`: a preview that shares all but its time with other previews of its group.
//!
//! Most flushes of a group are quiet, with the muted alerts and the reasons of the flush before. Then their previews share these.
ghost use Rattle.std.specs.Prelude.{◌≡◌, ◌↔◌, IfOk, IsTrue, MatchResult, SomeIff};
ghost use Rattle.std.specs.Arc.{arc_value};
ghost use Rattle.am_terms.specs.Like.{IsLike};

use crate::like::are_like;
use am_model::group::GroupName;
use am_model::preview::{MutedAlert, Preview};
use am_model::reason::Reason;
use std::alloc::{AllocError, Global};
use std::marker::Model;
use std::sync::Arc;

/// What a begin would do with the group that it would take. Contracts see it as a `Preview`.
#[derive(Drop)]
pub struct SharedPreview {
    time: u64,
    /// A preview like it, at some time.
    like: Arc<Preview>,
}

impl Model for SharedPreview {
    ghost use Rattle.std.specs.Arc.{arc_value};
    ghost use Rattle.am_model.specs.declared.preview.Preview.{Preview};

    ghost Value = { Preview };

    ghost view = { λ s.
        record {
          time = s.time;
          group = (arc_value s.like).group;
          muted = (arc_value s.like).muted;
          reasons = (arc_value s.like).reasons;
        } };
}

impl SharedPreview {
    /// Makes a preview one that others can share. It is handed back where there is no memory.
    pub fn new(alloc: Global, preview: Preview) -> Result<SharedPreview, Preview>
        ensures { MatchResult result (λ shared. shared ≡ preview) (λ back. back ≡ preview) }
    {
        let time = preview.time;
        match Arc::new(alloc, preview) {
            Ok(like) => Ok(SharedPreview { time, like }),
            Err(failed) => Err(failed.value),
        }
    }

    /// Returns a preview with all that this one has but the time, if that is the given one. It takes no memory.
    ///
    /// # Errors
    ///
    /// So many previews have these muted alerts and reasons in common that no further one can.
    pub fn again(&self, preview: &Preview) -> Result<Option<SharedPreview>, AllocError>
        ensures { IfOk result (λ shared. SomeIff shared (IsLike self.now preview.now) preview.now) }
    {
        if !are_like(&self.like, preview) {
            return Ok(None);
        }
        let like = Arc::try_clone(&self.like)?;
        Ok(Some(SharedPreview {
            time: preview.time,
            like,
        }))
    }

    /// Returns whether two previews have all but their times in common.
    pub fn is_like(&self, other: &SharedPreview) -> bool
        ensures { IsTrue result ↔ IsLike self.now other.now }
    {
        are_like(&self.like, &other.like)
    }

    /// Returns the time of the begin, in milliseconds.
    pub fn time(&self) -> u64
        ensures { result ≡ self.now.time }
    {
        self.time
    }

    /// Returns the group that it would take.
    pub fn group(&self) -> &GroupName
        ensures { result.now ≡ self.now.group }
    {
        &self.like.group
    }

    /// Returns the group's muted alerts, in the order in which their label sets came into it.
    pub fn muted(&self) -> &[MutedAlert]
        ensures { result.now ≡ self.now.muted }
    {
        self.like.muted.as_slice()
    }

    /// Returns why each integration of the group's receiver is notified or not, by position.
    pub fn reasons(&self) -> &[Reason]
        ensures { result.now ≡ self.now.reasons }
    {
        self.like.reasons.as_slice()
    }
}
