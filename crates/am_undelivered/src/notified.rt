//! An integration after a flush.
ghost use Rattle.std.specs.Prelude.{◌≡◌};
ghost use Rattle.am_undelivered.specs.Spans.{notified, notified_by};

use crate::fate::{Fate, joined};
use crate::flush::Flush;
use crate::recipient::Recipient;
use am_alerts::labels::Labels;

/// Adds what a flush came to for an alert that fires, or is resolved.
pub(crate) fn notify(flush: &Flush<'_>, labels: &Labels, fires: bool, recipient: &mut Recipient)
    ensures { recipient.new ≡ notified_by flush.now labels.now fires recipient.old }
{
    if let Some(position) = flush.position_for(recipient) {
        let fate = flush.fate(labels, fires, position);
        add_fate(fires, fate, recipient);
    }
}

fn add_fate(fires: bool, fate: Fate, recipient: &mut Recipient)
    ensures { recipient.new ≡ notified recipient.old fires fate }
{
    if fires {
        recipient.page = joined(recipient.page, fate);
    } else {
        recipient.clear = joined(recipient.clear, fate);
    }
}
