//! Configurations that are given to a story, whose clocks they have.
ghost use Rattle.std.specs.Prelude.{IfErr, IsTrue};
ghost use Rattle.am_console.specs.Complaints.{is_rejection};

use crate::system_zones::SystemZones;
use am_command_line::exit_status::ExitStatus;
use am_console::console::{Console, Document};
use am_input::configured::{Configured, configured_for};
use am_input::input::Overrides;
use std::rt::Files;

/// Returns a configuration that is given to a story. The error is the status.
pub fn given_to<R: Files + Eprint + AllocGlobal>(
    rt: &R,
    console: &Console,
    story: &Document<'_>,
    config: &Document<'_>,
    overrides: Overrides,
) -> Result<Configured, ExitStatus>
    ensures { IfErr result (λ status. IsTrue (is_rejection status)) }
{
    let mut files = SystemZones::new(rt);
    let until = overrides.until;
    match configured_for(rt.alloc(), &story.value, &config.value, until, &mut files) {
        Ok(configured) => Ok(configured),
        Err(refusal) => Err(console.complain_of_refusal(rt, config, refusal)),
    }
}
