//! Names of integrations, as Alertmanager prints them: the kind, and the index within the kind.
ghost use Rattle.std.specs.Prelude.{◌≡◌, ◌≤◌, ◌++◌, OnOk, length, string_bytes};
ghost use Rattle.am_model.specs.Carry.{index_at, position_of};
ghost use Rattle.am_timeline.specs.IntegrationName.{integration_name, name_text};

use am_model::config::{Integration, kind_at};
use am_terms::clock::push_number;
use std::alloc::AllocError;

/// Adds the name of the integration at a position of a receiver, such as `slack[0]` (`notify.Integration.String`).
pub fn push_name(
    integrations: &[Integration],
    position: usize,
    out: &mut String,
) -> Result<(), AllocError>
    ensures { OnOk result (string_bytes out.new
        ≡ string_bytes out.old ++ integration_name integrations.now position) }
{
    push_name_of(
        kind_at(integrations, position),
        index_at(integrations, position),
        out,
    )
}

/// Adds the name of the integration of a kind that has an index among those of this kind.
pub fn push_name_of(kind: &str, index: usize, out: &mut String) -> Result<(), AllocError>
    ensures { OnOk result (string_bytes out.new ≡ string_bytes out.old ++ name_text kind.now index) }
{
    out.push_str(kind)?;
    out.push_str("[")?;
    push_number(index as u64, out)?;
    out.push_str("]")
}

/// Returns how many integrations of its kind are before the one at a position.
pub fn index_at(integrations: &[Integration], position: usize) -> usize
    ensures { result ≡ index_at integrations.now position }
{
    let kind = kind_at(integrations, position);
    integrations
        .iter()
        .take(position)
        .filter(|integration| integration.kind.as_str() == kind)
        .count()
}

/// Returns the position of the integration of a kind that has an index among those of this kind, if there is one.
pub fn position_of(kind: &str, index: usize, integrations: &[Integration]) -> Option<usize>
    ensures { result ≡ position_of kind.now index 0 integrations.now }
{
    let mut left = index;
    for i in 0..integrations.len() {
        if integrations[i].kind.as_str() == kind {
            if left == 0 {
                return Some(i);
            }
            left -= 1;
        }
    }
    None
}
