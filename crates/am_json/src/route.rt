//! The routing tree of a configuration.
//!
//! In `group_by` a `...` must be alone: a second one is rejected too. Names that are listed twice
//! count twice for the limit of 64. In the lenient mode `name`, `matchers` and `continue` of the
//! root are ignored.
ghost use Rattle.std.specs.Prelude.{◌≡◌, [], IfErr, IfOk, List, ℕ, codes};
ghost use Rattle.std.specs.List.{list_any};
ghost use Rattle.std.specs.Str.{bytes_eq};
ghost use Rattle.am_alerts.specs.declared.route.GroupBy.TheVariants.{Names};
ghost use Rattle.am_json.specs.Configured.{IsGroupBy, all_labels, DecodesToOptions, DecodesToRoot};
ghost use Rattle.am_json.specs.Routed.{routed};
ghost use Rattle.am_json.specs.Decoding.{HasOr};
ghost use Rattle.am_json.specs.Read.{Excludes};
ghost use Rattle.serde_json.specs.View.{members_view, view};

use crate::config::most_matchers;
use crate::default_waits::{GROUP_INTERVAL, GROUP_WAIT, REPEAT_INTERVAL};
use crate::duration::{duration_or, interval_or};
use crate::fault::{FaultKind, InputFault};
use crate::reader::{FromJson, Object, Reader};
use am_alerts::limits::MAX_LABEL_NAMES;
use am_alerts::matcher::Matcher;
use am_alerts::route::{Child, GroupBy, Route};
use am_alerts::sequence::Sequence;
use am_alerts::text::Text;

/// The item of `group_by` that means all labels.
pub(crate) const ALL_LABELS: &str = "...";

/// What the root and its children have alike: all of a route but its name.
#[derive(Drop)]
struct Options {
    receiver: Text,
    group_by: GroupBy,
    group_wait: u64,
    group_interval: u64,
    repeat_interval: u64,
}

impl Options {
    fn read(route: &Object<'_, '_>) -> Result<Options, InputFault>
        ensures decoded { (name : List ℕ) → IfOk result (λ options.
            DecodesToOptions (members_view route.now.members) (routed name options)) }
        ensures refused { IfErr result (Excludes (DecodesToOptions (members_view route.now.members))) }
    {
        let receiver = route.required_text("receiver")?;
        let group_by = read_group_by(route)?;
        let group_wait = duration_or(route, "group_wait", GROUP_WAIT)?;
        let group_interval = interval_or(route, "group_interval", GROUP_INTERVAL)?;
        let repeat_interval = interval_or(route, "repeat_interval", REPEAT_INTERVAL)?;
        Ok(Options {
            receiver,
            group_by,
            group_wait,
            group_interval,
            repeat_interval,
        })
    }

    fn named(self, name: Text) -> Route
        ensures { result ≡ routed name self }
    {
        let Options {
            receiver,
            group_by,
            group_wait,
            group_interval,
            repeat_interval,
        } = self;
        Route {
            name,
            receiver,
            group_by,
            group_wait,
            group_interval,
            repeat_interval,
        }
    }
}

/// Reads the root route.
pub fn read_root(reader: &Reader<'_, '_>) -> Result<Route, InputFault>
    ensures decoded { IfOk result (DecodesToRoot reader.now.mode (view reader.now.value)) }
    ensures refused { IfErr result (Excludes (DecodesToRoot reader.now.mode (view reader.now.value))) }
{
    let root = reader.object()?;
    root.only(&[
        "receiver",
        "group_by",
        "group_wait",
        "group_interval",
        "repeat_interval",
    ])?;
    let options = Options::read(&root)?;
    Ok(options.named(Text::new(reader.alloc(), "root")?))
}

impl<'v> FromJson<'v> for Child {
    ghost use Rattle.am_alerts.specs.Matcher.{compare_texts};
    ghost use Rattle.am_json.specs.Configured.{DecodesToChild};

    ghost decodes_to = { λ mode value child. DecodesToChild mode value child };

    ghost never_refused = { λ child. compare_texts child.matchers };

    fn read(reader: &Reader<'v, '_>) -> Result<Child, InputFault> {
        let child = reader.object()?;
        child.only(&[
            "receiver",
            "group_by",
            "group_wait",
            "group_interval",
            "repeat_interval",
            "name",
            "matchers",
            "continue",
        ])?;
        let options = Options::read(&child)?;
        let name = child.required_text("name")?;
        let most = most_matchers(child.mode());
        let matchers = child.list_up_to::<Matcher>("matchers", most)?;
        let continues = child.flag_or("continue", false)?;
        Ok(Child {
            route: options.named(name),
            matchers: Sequence::from(matchers),
            continues,
        })
    }
}

/// The labels by which a route groups.
fn read_group_by(route: &Object<'_, '_>) -> Result<GroupBy, InputFault>
    ensures decoded { IfOk result (HasOr IsGroupBy (Names []) (codes "group_by") (members_view route.now.members)) }
    ensures refused { IfErr result (Excludes (HasOr IsGroupBy (Names []) (codes "group_by") (members_view route.now.members))) }
{
    match route.optional("group_by") {
        None => Ok(GroupBy::Names(Sequence::empty(route.alloc()))),
        Some(member) => read_names(&member),
    }
}

/// Names of labels. `...` represents all of them, and alone.
fn read_names(member: &Reader<'_, '_>) -> Result<GroupBy, InputFault>
    ensures decoded { IfOk result (IsGroupBy (view member.now.value)) }
    ensures refused { IfErr result (Excludes (IsGroupBy (view member.now.value))) }
{
    let names = member.list_up_to::<Text>(MAX_LABEL_NAMES)?;
    if !has_all_labels(names.as_slice()) {
        return Ok(GroupBy::Names(Sequence::from(names)));
    }
    if names.len() > 1 {
        return Err(member.refuse(FaultKind::BadValue));
    }
    Ok(GroupBy::All)
}

fn has_all_labels(names: &[Text]) -> bool
    ensures { result ≡ list_any (λ name. bytes_eq name all_labels) names.now }
{
    names.iter().any(|name| name.as_str() == ALL_LABELS)
}
