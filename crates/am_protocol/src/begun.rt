//! The answer to a begin: the board's reply, with the muted alerts and the reasons.
ghost use Rattle.std.specs.Prelude.{◌≡◌, ◌++◌, OnOk, option_copied};
ghost use Rattle.am_protocol.specs.Begun.{begun_quiet, preview_members, why_members};

use crate::answer::Answer;
use crate::reply::{begin, end};
use am_model::config::Config;
use am_model::group::GroupName;
use am_model::preview::Preview;
use std::alloc::AllocError;

/// Writes that a begin notifies nobody of the group that it took: `{"quiet":{"group":{..},"removed":0,"muted":[..],"reasons":[..]}}`.
pub fn write_quiet(
    config: &Config,
    group: &GroupName,
    removed: usize,
    preview: Option<&Preview>,
    answer: &mut Answer,
) -> Result<(), AllocError>
    ensures { OnOk result (answer.new ≡ answer.old ++ begun_quiet config.now group.now removed (option_copied preview.entry)) }
{
    begin("quiet", answer)?;
    answer.put(config, "group", group)?;
    answer.put_number("removed", removed as u64)?;
    put_why(config, preview, answer)?;
    end(answer)
}

/// Adds the muted alerts of the group that a begin took, and the reason for each integration. Without a preview it adds nothing.
pub fn put_why(
    config: &Config,
    preview: Option<&Preview>,
    answer: &mut Answer,
) -> Result<(), AllocError>
    ensures { OnOk result (answer.new ≡ answer.old ++ why_members (option_copied preview.entry)) }
{
    match preview {
        None => Ok(()),
        Some(preview) => put_preview(config, preview, answer),
    }
}

fn put_preview(config: &Config, preview: &Preview, answer: &mut Answer) -> Result<(), AllocError>
    ensures { OnOk result (answer.new ≡ answer.old ++ preview_members preview.now) }
{
    answer.put_list(config, "muted", preview.muted.as_slice())?;
    answer.put_list(config, "reasons", preview.reasons.as_slice())
}
