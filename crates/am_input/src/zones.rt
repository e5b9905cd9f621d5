//! The time zones of a story, and how they are read.
ghost use Rattle.std.specs.Prelude.{⊤, IfErr, IfOk, codes};
ghost use Rattle.serde_json.specs.Find.{get_member};
ghost use Rattle.serde_json.specs.View.{members_view, view};
ghost use Rattle.am_json.specs.Read.{Excludes};
ghost use Rattle.am_input.specs.Clocks.{IsRuled, ListsZones, SaysZones};
ghost use Rattle.am_input.specs.Zones.{AreZones, AreZonesIn, IsZone};

use am_alerts::text::Text;
use am_config::hours::NamedZone;
use am_hours::zone::Zone;
use am_json::fault::{FaultKind, InputFault};
use am_json::reader::{Object, Reader};

/// The most time zones that a story says.
pub const MAX_ZONES: usize = 64;

/// Reads the time zones that a story says: names, each with a POSIX rule such as `CET-1CEST,M3.5.0,M10.5.0/3`.
pub fn read_zones(top: &Object<'_, '_>) -> Result<Vec<NamedZone>, InputFault>
    ensures decoded { IfOk result (λ _. AreZonesIn (get_member (codes "zones") (members_view top.now.members))) }
    ensures said { IfOk result (λ zones. SaysZones (get_member (codes "zones") (members_view top.now.members)) zones.items) }
    ensures refused { IfErr result (Excludes (λ (_ : ⊤). AreZonesIn (get_member (codes "zones") (members_view top.now.members)))) }
{
    let Some(member) = top.optional("zones") else {
        return Ok(Vec::new(top.alloc()));
    };
    let listed = member.object()?;
    if listed.members().len() > MAX_ZONES {
        return Err(member.refuse(FaultKind::BadValue));
    }
    Ok(read_listed(&listed)?)
}

/// Reads the zones that these members say.
fn read_listed(listed: &Object<'_, '_>) -> Result<Vec<NamedZone>, InputFault>
    ensures decoded { IfOk result (λ _. AreZones (members_view listed.now.members)) }
    ensures said { IfOk result (λ zones. ListsZones (members_view listed.now.members) zones.items) }
    ensures refused { IfErr result (Excludes (λ (_ : ⊤). AreZones (members_view listed.now.members))) }
{
    let mut zones = Vec::new(listed.alloc());
    for (name, value) in listed.members().iter() {
        let rule = listed.member(name.as_str(), value);
        let zone = read_zone(&rule)?;
        let name = Text::new(listed.alloc(), name.as_str())?;
        zones.push(NamedZone { name, zone })?;
    }
    Ok(zones)
}

/// Reads the zone of a rule.
fn read_zone(rule: &Reader<'_, '_>) -> Result<Zone, InputFault>
    ensures decoded { IfOk result (λ _. IsZone (view rule.now.value)) }
    ensures said { IfOk result (IsRuled (view rule.now.value)) }
    ensures refused { IfErr result (Excludes (λ (_ : ⊤). IsZone (view rule.now.value))) }
{
    match Zone::from_rule(rule.text()?) {
        Ok(zone) => Ok(zone),
        Err(_) => Err(rule.refuse(FaultKind::BadValue)),
    }
}
