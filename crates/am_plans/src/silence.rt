//! The silences of a rehearsal, and how they are read.
//!
//! A silence is set where its span begins, unless `set` gives another time.
ghost use Rattle.std.specs.Prelude.{◌<◌, ℕ, IfErr, IfOk, codes};
ghost use Rattle.serde_json.specs.View.{members_view};
ghost use Rattle.am_json.specs.Decoding.{Has, HasOr, IsDuration};
ghost use Rattle.am_json.specs.Read.{Excludes};

use crate::span::Span;
use am_alerts::limits::MAX_MATCHERS;
use am_alerts::matcher::Matcher;
use am_json::duration::duration_or;
use am_json::fault::{FaultKind, InputFault};
use am_json::reader::{FromJson, Object, Reader};

/// A silence: what it mutes, in which span, and when it is made.
#[derive(Drop)]
pub struct SilenceItem {
    pub matchers: Vec<Matcher>,
    pub from: u64,
    pub to: u64,
    pub set: u64,
}

impl<'v> FromJson<'v> for SilenceItem {
    ghost use Rattle.am_alerts.specs.Matcher.{compare_texts};
    ghost use Rattle.am_plans.specs.Decoding.{DecodesToSilence};

    ghost decodes_to = { λ mode value silence. DecodesToSilence mode value silence };

    ghost never_refused = { λ silence. compare_texts silence.matchers.items };

    fn read(reader: &Reader<'v, '_>) -> Result<SilenceItem, InputFault> {
        let silence = reader.object()?;
        silence.only(&["matchers", "from", "to", "set"])?;
        let listed = silence.required("matchers")?;
        let matchers = listed.list_up_to::<Matcher>(MAX_MATCHERS)?;
        if matchers.is_empty() {
            return Err(listed.refuse(FaultKind::BadValue));
        }
        let (from, to) = read_span(&silence)?;
        let set = duration_or(&silence, "set", from)?;
        Ok(SilenceItem {
            matchers,
            from,
            to,
            set,
        })
    }
}

/// The first time of a silence, and its end.
fn read_span(silence: &Object<'_, '_>) -> Result<(u64, u64), InputFault>
    ensures from { IfOk result (λ span. HasOr IsDuration 0 (codes "from") (members_view silence.now.members) span.0) }
    ensures to { IfOk result (λ span. Has IsDuration (codes "to") (members_view silence.now.members) span.1) }
    ensures later { IfOk result (λ span. span.0 < span.1) }
    ensures refused { IfErr result (Excludes (λ (span : ℕ × ℕ). HasOr IsDuration 0 (codes "from") (members_view silence.now.members) span.0
        × Has IsDuration (codes "to") (members_view silence.now.members) span.1 × (span.0 < span.1))) }
{
    let Span { from, to } = Span::of(silence)?;
    match to {
        None => Err(silence.required("to")?.refuse(FaultKind::BadValue)),
        Some(to) => Ok((from, to)),
    }
}
