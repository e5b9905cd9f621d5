//! The integration of an expectation: a position, a kind, or a kind with its position.
ghost use Rattle.std.specs.Prelude.{◌≡◌, ℕ, IfErr, IfOk, List, Option, codes};
ghost use Rattle.serde_json.specs.Find.{get_member};
ghost use Rattle.serde_json.specs.View.{members_view, view};
ghost use Rattle.am_json.specs.Read.{Excludes};
ghost use Rattle.am_plans.specs.Expected.{IsSplit, IsTargetIn, IsTargetOf, position_named};

use crate::target::LAST_POSITION;
use am_alerts::text::Text;
use am_json::fault::InputFault;
use am_json::reader::{Object, Reader};

/// The kind and the position of the integration, where they are said.
pub(crate) fn read_target(item: &Object<'_, '_>) -> Result<(Option<Text>, Option<u32>), InputFault>
    ensures decoded { IfOk result (λ target.
        IsTargetIn (get_member (codes "integration") (members_view item.now.members)) target.0 target.1) }
    ensures refused { IfErr result (Excludes (λ (target : Option (List ℕ) × Option ℕ).
        IsTargetIn (get_member (codes "integration") (members_view item.now.members)) target.0 target.1)) }
{
    match item.optional("integration") {
        None => Ok((None, None)),
        Some(member) => read_integration(&member),
    }
}

fn read_integration(member: &Reader<'_, '_>) -> Result<(Option<Text>, Option<u32>), InputFault>
    ensures decoded { IfOk result (λ target. IsTargetOf (view member.now.value) target.0 target.1) }
    ensures refused { IfErr result (Excludes (λ (target : Option (List ℕ) × Option ℕ).
        IsTargetOf (view member.now.value) target.0 target.1)) }
{
    if !member.is_text() {
        let position = member.number_up_to(LAST_POSITION)?;
        return Ok((None, Some(position as u32)));
    }
    let text = member.text()?;
    let (kind, position) = split(text);
    Ok((Some(Text::new(member.alloc(), kind)?), position))
}

/// The kind in a text such as `email/0` or `email`, and the position.
fn split(text: &str) -> (&str, Option<u32>)
    ensures { IsSplit text.now result.0.now result.1 }
{
    let Some((kind, written)) = text.split_once('/') else {
        return (text, None);
    };
    match position_of(written) {
        None => (text, None),
        Some(position) => (kind, Some(position)),
    }
}

/// The position that is written so.
fn position_of(text: &str) -> Option<u32>
    ensures { result ≡ position_named text.now }
{
    match text {
        "0" => Some(0),
        "1" => Some(1),
        "2" => Some(2),
        "3" => Some(3),
        "4" => Some(4),
        "5" => Some(5),
        "6" => Some(6),
        "7" => Some(7),
        _ => None,
    }
}
