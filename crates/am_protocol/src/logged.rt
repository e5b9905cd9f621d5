//! The answers to a note and to a finish, with the rows that they logged.
ghost use Rattle.std.specs.Prelude.{◌≡◌, ◌++◌, OnOk};
ghost use Rattle.am_protocol.specs.Logged.{finished_tokens, noted_tokens};

use crate::answer::Answer;
use crate::reply::{begin, end};
use am_model::config::Config;
use am_model::record::Finished;
use am_model::views::RowView;
use std::alloc::AllocError;

/// Writes that a success was noted, with the row that is in the log now: `{"noted":{"row":{..}}}`.
pub fn write_noted(config: &Config, row: &RowView, answer: &mut Answer) -> Result<(), AllocError>
    ensures { OnOk result (answer.new ≡ answer.old ++ noted_tokens config.now row.now) }
{
    begin("noted", answer)?;
    answer.put(config, "row", row)?;
    end(answer)
}

/// Writes what a finish did, with the rows that it logged: `{"finished":{"logged":1,"removed":0,"rows":[..]}}`.
pub fn write_finished(
    config: &Config,
    finished: Finished,
    rows: &[RowView],
    answer: &mut Answer,
) -> Result<(), AllocError>
    ensures { OnOk result (answer.new ≡ answer.old ++ finished_tokens config.now finished rows.now) }
{
    begin("finished", answer)?;
    answer.put_number("logged", finished.logged as u64)?;
    answer.put_number("removed", finished.removed as u64)?;
    answer.put_list(config, "rows", rows)?;
    end(answer)
}
