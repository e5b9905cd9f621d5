//! The alerts of a notice, as text.
ghost use Rattle.std.specs.Prelude.{◌≡◌, ◌++◌, OnOk, codes, string_bytes};
ghost use Rattle.std.specs.List.{flat_map};
ghost use Rattle.am_timeline.specs.Shown.{set_shown};
ghost use Rattle.am_timeline.specs.Timeline.{alerts_text, labels_of};

use crate::shown::push_set;
use am_alerts::alert::Alert;
use std::alloc::AllocError;

/// Adds the alerts that fire, or that are resolved, behind a word; nothing where there is none.
pub fn push_alerts(word: &str, alerts: &[Alert], out: &mut String) -> Result<(), AllocError>
    ensures { OnOk result (string_bytes out.new ≡ string_bytes out.old ++ alerts_text word.now alerts.now) }
{
    match alerts {
        [] => Ok(()),
        [first, rest @ ..] => {
            out.push_str(word)?;
            push_set(first.labels(), out)?;
            push_more_sets(rest, out)
        }
    }
}

fn push_more_sets(alerts: &[Alert], out: &mut String) -> Result<(), AllocError>
    ensures { OnOk result (string_bytes out.new
        ≡ string_bytes out.old ++ flat_map (λ a. codes ", " ++ set_shown (labels_of a)) alerts.now) }
{
    for alert in alerts {
        out.push_str(", ")?;
        push_set(alert.labels(), out)?;
    }
    Ok(())
}
