//! The answers to calls: the board's replies.
ghost use Rattle.std.specs.Prelude.{◌≡◌, ◌++◌, ◌∷◌, [], OnOk};
ghost use Rattle.std.specs.List.{flat_map};
ghost use Rattle.json.specs.Token.{begin_object, end_object, key};
ghost use Rattle.am_protocol.specs.Reply.{count_tokens, counts_tokens, flush_members, flush_tokens};
ghost use Rattle.am_protocol.specs.Reply.{ignored_members, ignored_tokens, inserted_tokens};
ghost use Rattle.am_protocol.specs.Reply.{loaded_tokens, loaded_word, route_name_tokens, routes_members};
ghost use Rattle.am_protocol.specs.Reply.{name_if, named, opened_tokens, quiet_tokens, reply_tokens, silenced_tokens};

use crate::answer::Answer;
use am_alerts::route::{Child, Routes};
use am_config::dropped::IgnoredSettings;
use am_model::config::Config;
use am_model::group::GroupName;
use am_model::notice::Notice;
use am_model::record::{Inserted, Loaded, Opened, Reply, Silenced};
use std::alloc::AllocError;

/// Writes a reply: an object with one member, whose name says what came, and whose value the reply's numbers and lists.
pub fn write_reply(config: &Config, reply: &Reply, answer: &mut Answer) -> Result<(), AllocError>
    ensures { OnOk result (answer.new ≡ answer.old ++ reply_tokens config.now reply.now) }
{
    match reply {
        Reply::Inserted(inserted) => write_inserted(inserted, answer),
        Reply::Silenced(silenced) => write_silenced(silenced, answer),
        Reply::NothingDue => write_named("nothing_due", answer),
        Reply::Quiet { group, removed } => write_quiet(config, group, *removed, answer),
        Reply::Flush { group, opened } => write_begun(config, group, opened.get(), answer),
        Reply::Finished(x) => write_counts(
            "finished", "logged", x.logged, "removed", x.removed, answer,
        ),
        Reply::Maintained(x) => write_counts(
            "maintained",
            "groups",
            x.groups,
            "entries",
            x.entries,
            answer,
        ),
        Reply::EmptyGroupsRemoved(x) => {
            write_count("empty_groups_removed", "groups", x.groups, answer)
        }
        Reply::Forgotten(x) => write_counts(
            "forgotten",
            "alerts",
            x.alerts,
            "silences",
            x.silences,
            answer,
        ),
        Reply::Loaded(loaded) => write_loaded(*loaded, answer),
        Reply::Noted => write_named("noted", answer),
    }
}

/// Writes what has nothing but its name: `{"reported":{}}`.
pub fn write_named(name: &str, answer: &mut Answer) -> Result<(), AllocError>
    ensures { OnOk result (answer.new ≡ answer.old ++ named name.now []) }
{
    begin(name, answer)?;
    end(answer)
}

/// Adds the beginning of an object with one member, which is an object. `end` adds its end.
pub fn begin(name: &str, answer: &mut Answer) -> Result<(), AllocError>
    ensures { OnOk result (answer.new ≡ answer.old ++ begin_object ∷ key name.now ∷ begin_object ∷ []) }
{
    answer.open()?;
    answer.key(name)?;
    answer.open()
}

/// Adds the end of an object with one member, which is an object.
pub fn end(answer: &mut Answer) -> Result<(), AllocError>
    ensures { OnOk result (answer.new ≡ answer.old ++ end_object ∷ end_object ∷ []) }
{
    answer.close()?;
    answer.close()
}

pub(crate) fn write_inserted(inserted: &Inserted, answer: &mut Answer) -> Result<(), AllocError>
    ensures { OnOk result (answer.new ≡ answer.old ++ inserted_tokens inserted.now) }
{
    begin("inserted", answer)?;
    answer.put_number("stamp", inserted.stamp)?;
    answer.put_number("groups", inserted.groups as u64)?;
    answer.put_number("made", inserted.made as u64)?;
    end(answer)
}

fn write_silenced(silenced: &Silenced, answer: &mut Answer) -> Result<(), AllocError>
    ensures { OnOk result (answer.new ≡ answer.old ++ silenced_tokens silenced.now) }
{
    begin("silenced", answer)?;
    answer.put_flag("replaced", silenced.replaced)?;
    end(answer)
}

fn write_quiet(
    config: &Config,
    group: &GroupName,
    removed: usize,
    answer: &mut Answer,
) -> Result<(), AllocError>
    ensures { OnOk result (answer.new ≡ answer.old ++ quiet_tokens config.now group.now removed) }
{
    begin("quiet", answer)?;
    answer.put(config, "group", group)?;
    answer.put_number("removed", removed as u64)?;
    end(answer)
}

/// Writes a flush of the group that a begin opened.
fn write_begun(
    config: &Config,
    group: &GroupName,
    opened: &Opened,
    answer: &mut Answer,
) -> Result<(), AllocError>
    ensures { OnOk result (answer.new
        ≡ answer.old ++ flush_tokens config.now opened.now.number group.now opened.now.deadline opened.now.notices) }
{
    let Opened {
        number,
        deadline,
        notices,
    } = opened;
    write_flush(
        config,
        *number,
        group,
        *deadline,
        notices.as_slice(),
        answer,
    )
}

/// Writes that a flush was opened, with its ticket and its notices.
fn write_flush(
    config: &Config,
    number: u64,
    group: &GroupName,
    deadline: u64,
    notices: &[Notice],
    answer: &mut Answer,
) -> Result<(), AllocError>
    ensures { OnOk result (answer.new ≡ answer.old ++ flush_tokens config.now number group.now deadline notices.now) }
{
    begin("flush", answer)?;
    put_flush(config, number, group, deadline, notices, answer)?;
    end(answer)
}

/// Adds what a begin says of the flush that it opened.
pub fn put_flush(
    config: &Config,
    number: u64,
    group: &GroupName,
    deadline: u64,
    notices: &[Notice],
    answer: &mut Answer,
) -> Result<(), AllocError>
    ensures { OnOk result (answer.new ≡ answer.old ++ flush_members config.now number group.now deadline notices.now) }
{
    answer.put_number("ticket", number)?;
    answer.put(config, "group", group)?;
    answer.put_text("receiver", config.route_of(group).receiver.as_str())?;
    answer.put_number("deadline", deadline)?;
    answer.put_list(config, "notices", notices)
}

/// Writes one count, with its name.
fn write_count(name: &str, first: &str, count: usize, answer: &mut Answer) -> Result<(), AllocError>
    ensures { OnOk result (answer.new ≡ answer.old ++ count_tokens name.now first.now count) }
{
    begin(name, answer)?;
    answer.put_number(first, count as u64)?;
    end(answer)
}

/// Writes two counts, each with its name.
fn write_counts(
    name: &str,
    first: &str,
    count: usize,
    second: &str,
    further: usize,
    answer: &mut Answer,
) -> Result<(), AllocError>
    ensures { OnOk result (answer.new ≡ answer.old ++ counts_tokens name.now first.now count second.now further) }
{
    begin(name, answer)?;
    answer.put_number(first, count as u64)?;
    answer.put_number(second, further as u64)?;
    end(answer)
}

/// Writes what became of a row that was loaded.
fn write_loaded(loaded: Loaded, answer: &mut Answer) -> Result<(), AllocError>
    ensures { OnOk result (answer.new ≡ answer.old ++ loaded_tokens loaded) }
{
    begin("loaded", answer)?;
    answer.put_text("row", loaded_word(loaded))?;
    end(answer)
}

fn loaded_word(loaded: Loaded) -> &'static str
    ensures { result.now ≡ loaded_word loaded }
{
    match loaded {
        Loaded::Put => "put",
        Loaded::Kept => "kept",
        Loaded::Expired => "expired",
    }
}

/// Writes that a board was opened, which settings of its configuration are ignored, and the names of its routes.
pub fn write_opened(
    config: &Config,
    ignored: &IgnoredSettings,
    answer: &mut Answer,
) -> Result<(), AllocError>
    ensures { OnOk result (answer.new ≡ answer.old ++ opened_tokens config.now ignored.now) }
{
    begin("opened", answer)?;
    put_ignored(ignored, answer)?;
    put_routes(&config.routes, answer)?;
    end(answer)
}

/// Adds which settings are ignored.
pub(crate) fn put_ignored(ignored: &IgnoredSettings, answer: &mut Answer) -> Result<(), AllocError>
    ensures { OnOk result (answer.new ≡ answer.old ++ ignored_members ignored.now) }
{
    answer.key("ignored")?;
    answer.open_list()?;
    write_ignored(ignored, answer)?;
    answer.close_list()
}

/// Adds the names of the routes, by their positions.
pub(crate) fn put_routes(routes: &Routes, answer: &mut Answer) -> Result<(), AllocError>
    ensures { OnOk result (answer.new ≡ answer.old ++ routes_members routes.now) }
{
    answer.key("routes")?;
    answer.open_list()?;
    answer.text(routes.root().name.as_str())?;
    add_names(routes.children(), answer)?;
    answer.close_list()
}

fn add_names(children: &[Child], answer: &mut Answer) -> Result<(), AllocError>
    ensures { OnOk result (answer.new ≡ answer.old ++ flat_map (λ c. route_name_tokens c.route) children.now) }
{
    for child in children {
        answer.text(child.route.name.as_str())?;
    }
    Ok(())
}

fn write_ignored(ignored: &IgnoredSettings, answer: &mut Answer) -> Result<(), AllocError>
    ensures { OnOk result (answer.new ≡ answer.old ++ ignored_tokens ignored.now) }
{
    write_if(ignored.global, "global", answer)?;
    write_if(ignored.tracing, "tracing", answer)?;
    write_if(ignored.templates, "templates", answer)?;
    write_if(ignored.time_intervals, "time_intervals", answer)?;
    write_if(ignored.settings, "settings", answer)
}

/// Writes a name, if it is wanted.
fn write_if(is_wanted: bool, name: &str, answer: &mut Answer) -> Result<(), AllocError>
    ensures { OnOk result (answer.new ≡ answer.old ++ name_if is_wanted name.now) }
{
    if is_wanted { answer.text(name) } else { Ok(()) }
}
