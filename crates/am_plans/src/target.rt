//! The receiver and the integration that an outage or an expectation names, and how they are read.
ghost use Rattle.std.specs.Prelude.{◌≡◌, ◌≢◌, ◌<◌, ℕ, IfErr, IfOk, IfSome, OnOk, Option, Some, codes, false, true};
ghost use Rattle.serde_json.specs.Find.{get_member};
ghost use Rattle.serde_json.specs.View.{members_view};
ghost use Rattle.am_json.specs.Read.{number_in};
ghost use Rattle.am_plans.specs.Configs.{configs_in};
ghost use Rattle.am_plans.specs.Decoding.{some_has_target};
ghost use Rattle.am_plans.specs.Expected.{member_if};

use crate::configs::Configs;
use am_json::fault::{FaultKind, InputFault};
use am_json::pointer::JsonPointer;
use am_json::reader::Object;
use am_model::config::MAX_INTEGRATIONS;
use std::alloc::Global;

/// The greatest position that an integration can have.
pub(crate) const LAST_POSITION: u64 = MAX_INTEGRATIONS as u64 - 1;

/// The position of an integration in its receiver, which is the member `integration`, if it is there.
pub fn position(object: &Object<'_, '_>) -> Result<Option<u32>, InputFault>
    ensures decoded { IfOk result (λ position.
        member_if number_in (get_member (codes "integration") (members_view object.now.members)) ≡ Some position) }
    ensures bound { IfOk result (λ position. IfSome position (λ position. position < MAX_INTEGRATIONS)) }
    ensures refused { IfErr result (λ _. (position : Option ℕ) → IfSome position (λ position. position < MAX_INTEGRATIONS)
        → member_if number_in (get_member (codes "integration") (members_view object.now.members)) ≢ Some position) }
{
    match object.optional("integration") {
        None => Ok(None),
        Some(member) => Ok(Some(member.number_up_to(LAST_POSITION)? as u32)),
    }
}

/// Refuses a receiver that no configuration has, and a position that the receiver hasn't in any, at
/// their members of what is at this pointer.
pub fn check(
    alloc: Global,
    configs: &Configs<'_>,
    receiver: &str,
    position: Option<u32>,
    pointer: JsonPointer<'_>,
) -> Result<(), InputFault>
    ensures there { OnOk result (some_has_target (configs_in configs.now) receiver.now position ≡ true) }
    ensures refused { IfErr result (λ _. some_has_target (configs_in configs.now) receiver.now position ≡ false) }
{
    if configs.have_target(receiver, position) {
        return Ok(());
    }
    let wrong = if configs.have_receiver(receiver) {
        "integration"
    } else {
        "receiver"
    };
    Err(pointer.member(wrong).refuse(alloc, FaultKind::BadValue))
}
