//! Configurations that are read for themselves, whichever form a file has.
ghost use Rattle.std.specs.Prelude.{◌≡◌, IfErr, IfOk, IsTrue, None};
ghost use Rattle.serde_json.specs.View.{view};
ghost use Rattle.am_commands.specs.ShownRoutes.{HasNoOwn};
ghost use Rattle.am_console.specs.Complaints.{is_rejection};
ghost use Rattle.am_input.specs.Clocks.{AreGiven};
ghost use Rattle.am_input.specs.Configured.{IsConfigOf, form_in};

use crate::system_zones::SystemZones;
use crate::zones::missing_zones;
use am_command_line::exit_status::ExitStatus;
use am_console::console::{Console, Document};
use am_input::configured::{Configured, read_file};
use am_input::form::{Form, form_of};
use std::rt::Files;

/// Returns the configuration of a file that was read. In one of Alertmanager each time zone has to be there. The error is the
/// status.
pub fn configured<R: Files + Eprint + AllocGlobal>(
    rt: &R,
    console: &Console,
    document: &Document<'_>,
) -> Result<Configured, ExitStatus>
    ensures decoded { IfOk result (λ configured.
        IsConfigOf (AreGiven None) (form_in (view document.now.value)) (view document.now.value) configured.config) }
    ensures rejected { IfErr result (λ status. status ≡ ExitStatus.Rejected → HasNoOwn (view document.now.value)) }
    ensures complains { IfErr result (λ status. IsTrue (is_rejection status)) }
{
    match read_file(rt.alloc(), &document.value, None) {
        Ok(configured) => {
            accept_zones(rt, console, document)?;
            Ok(configured)
        }
        Err(refusal) => Err(console.complain_of_refusal(rt, document, refusal)),
    }
}

/// Complains of the time zones of a configuration of Alertmanager that aren't there. The error is the status.
fn accept_zones<R: Files + Eprint + AllocGlobal>(
    rt: &R,
    console: &Console,
    document: &Document<'_>,
) -> Result<(), ExitStatus>
    ensures theirs { IfErr result (λ _. form_in (view document.now.value) ≡ Form.Alertmanager) }
    ensures complains { IfErr result (λ status. IsTrue (is_rejection status)) }
{
    if form_of(&document.value) != Form::Alertmanager {
        return Ok(());
    }
    let mut files = SystemZones::new(rt);
    let missing = missing_zones(rt.alloc(), &document.value, &mut files);
    let Ok(faults) = missing else {
        return Err(console.complain_of_memory(rt));
    };
    if faults.is_empty() {
        return Ok(());
    }
    Err(console.complain_of_faults(rt, document, &faults))
}
