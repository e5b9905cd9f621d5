//! The outages of a rehearsal, and how they are read.
ghost use Rattle.std.specs.Prelude.{◌≡◌, [], IfErr, IfOk, IsTrue, List, OnOk, codes, false, map, true};
ghost use Rattle.serde_json.specs.View.{members_view};
ghost use Rattle.am_json.specs.Decoding.{HasOr, IsAnswer, IsList};
ghost use Rattle.am_json.specs.Read.{Excludes};
ghost use Rattle.am_plans.specs.Configs.{configs_in};
ghost use Rattle.am_plans.specs.Decoding.{DecodesToOutage, have_targets};
ghost use Rattle.am_terms.specs.declared.rehearsal.Outage.{Outage};

use crate::configs::Configs;
use crate::span::Span;
use crate::target::{check, position};
use am_json::duration::duration_or;
use am_json::fault::InputFault;
use am_json::pointer::JsonPointer;
use am_json::reader::{FromJson, Object, Reader};
use am_retry::Answer;
use am_terms::rehearsal::Outage;
use std::alloc::{AllocError, Global};

/// The answers of a receiver's integrations in a span.
#[derive(Drop)]
pub struct OutageItem {
    pub outage: Outage,
}

impl<'v> FromJson<'v> for OutageItem {
    ghost use Rattle.std.specs.Prelude.{true};

    ghost decodes_to = { λ mode value item. DecodesToOutage mode value item.outage };

    ghost never_refused = { λ _. true };

    fn read(reader: &Reader<'v, '_>) -> Result<OutageItem, InputFault> {
        let outage = reader.object()?;
        outage.only(&["receiver", "integration", "from", "to", "answer", "takes"])?;
        let receiver = outage.required_text("receiver")?;
        let integration = position(&outage)?;
        let Span { from, to } = Span::of(&outage)?;
        let answer = read_answer(&outage)?;
        let takes = duration_or(&outage, "takes", 0)?;
        Ok(OutageItem {
            outage: Outage {
                receiver,
                integration,
                from,
                to,
                answer,
                takes,
            },
        })
    }
}

/// What is answered; `again`, where it isn't said.
fn read_answer(outage: &Object<'_, '_>) -> Result<Answer, InputFault>
    ensures decoded { IfOk result (HasOr IsAnswer Answer.Again (codes "answer") (members_view outage.now.members)) }
    ensures refused { IfErr result (Excludes (HasOr IsAnswer Answer.Again (codes "answer") (members_view outage.now.members))) }
{
    match outage.optional("answer") {
        None => Ok(Answer::Again),
        Some(member) => Answer::read(&member),
    }
}

/// Reads the outages of a story, whose receivers and integrations one of the configurations has.
pub fn read_outages(top: &Object<'_, '_>, configs: &Configs<'_>) -> Result<Vec<Outage>, InputFault>
    ensures decoded { IfOk result (λ outages.
        HasOr (IsList (DecodesToOutage top.now.mode)) [] (codes "outages") (members_view top.now.members) outages.items) }
    ensures targets { IfOk result (λ outages. IsTrue (have_targets (configs_in configs.now) outages.items)) }
    ensures refused { IfErr result (Excludes (λ (outages : List Outage).
        HasOr (IsList (DecodesToOutage top.now.mode)) [] (codes "outages") (members_view top.now.members) outages
        × IsTrue (have_targets (configs_in configs.now) outages))) }
{
    let items = top.list_or_none::<OutageItem>("outages")?;
    let outages = outages_of(top.alloc(), items)?;
    check_outages(top.alloc(), configs, outages.as_slice())?;
    Ok(outages)
}

/// Refuses the first outage whose receiver or integration no configuration has.
fn check_outages(alloc: Global, configs: &Configs<'_>, outages: &[Outage]) -> Result<(), InputFault>
    ensures targets { OnOk result (have_targets (configs_in configs.now) outages.now ≡ true) }
    ensures refused { IfErr result (λ _. have_targets (configs_in configs.now) outages.now ≡ false) }
{
    for (index, outage) in outages.iter().enumerate() {
        let pointer = JsonPointer::Root;
        check(
            alloc,
            configs,
            outage.receiver.as_str(),
            outage.integration,
            pointer.member("outages").item(index),
        )?;
    }
    Ok(())
}

/// The outages of items.
fn outages_of(alloc: Global, items: Vec<OutageItem>) -> Result<Vec<Outage>, AllocError>
    ensures { IfOk result (λ outages. outages.items ≡ map (λ i. i.outage) items.items) }
{
    items.into_iter().map(|item| item.outage).collect(alloc)
}
