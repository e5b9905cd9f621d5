//! Whether the previews of two flushes say that their lines are the same.
ghost use Rattle.std.specs.Prelude.{◌≡◌, IsTrue};
ghost use Rattle.std.specs.List.{list_all};
ghost use Rattle.am_timeline.specs.Alike.{AreAlike, has_no_edge, is_unasked};

use crate::line::is_on_edge;
use am_model::reason::Reason;
use am_terms::shared_preview::SharedPreview;

/// Returns whether two previews are of one group, with the same muted alerts and the same reasons, for which nobody is notified,
/// neither of them on the edge.
pub(crate) fn are_alike(one: &SharedPreview, other: &SharedPreview) -> bool
    ensures { IsTrue result → AreAlike one.now other.now }
{
    are_unasked(one.reasons()) && one.is_like(other) && has_no_edge(one) && has_no_edge(other)
}

/// Whether a begin is on the edge for no integration.
fn has_no_edge(preview: &SharedPreview) -> bool
    ensures { result ≡ has_no_edge preview.now }
{
    let time = preview.time();
    preview
        .reasons()
        .iter()
        .all(|reason| !is_on_edge(time, reason))
}

fn are_unasked(reasons: &[Reason]) -> bool
    ensures { result ≡ list_all is_unasked reasons.now }
{
    reasons.iter().all(|reason| is_unasked(reason))
}

fn is_unasked(reason: &Reason) -> bool
    ensures { result ≡ is_unasked reason.now }
{
    !reason.notifies()
}
