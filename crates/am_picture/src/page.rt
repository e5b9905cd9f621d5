//! The page of a story.
use crate::axis::{Axis, push_axis};
use crate::bands::push_bands;
use crate::content::push_content;
use crate::counts::{Counts, Totals};
use crate::fold_list::push_folds;
use crate::gather::Gathered;
use crate::heading::push_head;
use crate::legend::push_legend;
use crate::missed_list::push_missed;
use crate::mute_lists::{MuteLists, push_shared};
use crate::order::Sections;
use crate::overview::push_overview;
use crate::pen::Pen;
use crate::scene::Scene;
use crate::script::SCRIPT;
use crate::story::Story;
use crate::verdicts::push_verdicts;
use am_terms::clock::TimeFormat;
use std::alloc::{AllocError, Global};

/// How many alerts a page has at most whose positions are styles.
const DENSE: usize = 1_000;

/// A page, and whether there is something on it.
#[derive(Drop)]
pub struct Page {
    pub text: String,
    /// Whether the filter leaves a group.
    pub found: bool,
}

/// Returns a story that ran as a page of HTML that is XML too. It takes nothing from elsewhere, and runs no script but its
/// own, without which all of it can be read.
///
/// From top to bottom: what became of the expectations; how much happened in each fiftieth of the whole time; when silences,
/// outages and time intervals applied; and a row for each label set by which routes group, those with failures first, then
/// those with alerts that no delivered notice has, then those with mutes. A row opens to its alerts, and to a line for
/// each notice. Exactly one element has the class of a mark for each line of `notices_text`. Below are the tables of
/// receivers, the alerts that no delivered notice has, and each list of mutes that several alerts have.
///
/// A text has 700 characters at most, a list of alerts 40 ranges. Cost: the histories and the events, once.
pub fn draw<C: TimeFormat>(
    alloc: Global,
    story: &Story<'_>,
    clock: &C,
) -> Result<Page, AllocError> {
    let gathered = Gathered::of(alloc, story)?;
    let totals = Totals::of(&gathered);
    let pen = Pen::new(alloc, clock, Axis::of(story), totals.alerts > DENSE)?;
    let lists = MuteLists::of(&pen, &gathered)?;
    let scene = Scene {
        story,
        gathered: &gathered,
        lists: &lists,
    };
    let mut text = String::new(alloc);
    push_head(&pen, story.names, totals, &lists, &mut text)?;
    push_verdicts(story.verdicts, &mut text)?;
    push_picture(&pen, scene, &mut text)?;
    push_text("Receivers", story.texts.receivers, &mut text)?;
    push_undelivered(scene, alloc, &mut text)?;
    push_shared(&lists, &mut text)?;
    push_end(&mut text)?;
    Ok(Page {
        text,
        found: totals.groups > 0,
    })
}

/// The heading of the alerts that no delivered notice has.
const UNDELIVERED: &str = "Alerts that no delivered notification has";

/// Adds the overview, the bands and the folds.
fn push_picture<C: TimeFormat>(
    pen: &Pen<'_, C>,
    scene: Scene<'_>,
    out: &mut String,
) -> Result<(), AllocError> {
    let counts = Counts::of(pen.alloc, &pen.axis, scene.gathered)?;
    let sections = Sections::of(pen.alloc, scene.gathered)?;
    push_legend(out)?;
    out.push_str("<div class=\"plot\">\n")?;
    push_axis(pen, scene.story.changes, out)?;
    push_overview(pen, &counts, out)?;
    push_bands(pen, scene.story, out)?;
    push_folds(pen, scene, &sections, out)?;
    out.push_str("</div>\n")
}

/// Adds a text below a heading.
fn push_text(heading: &str, text: &str, out: &mut String) -> Result<(), AllocError> {
    push_heading(heading, text, out)?;
    push_content(text.trim_start(), out)?;
    out.push_str("</pre>\n")
}

/// Adds the alerts that no delivered notice has: what is said of several of them once.
fn push_undelivered(scene: Scene<'_>, alloc: Global, out: &mut String) -> Result<(), AllocError> {
    let (story, gathered) = (scene.story, scene.gathered);
    let text = story.texts.undelivered;
    push_heading(UNDELIVERED, text, out)?;
    push_missed(alloc, gathered.seed, story.missed, text.trim_start(), out)?;
    out.push_str("</pre>\n")
}

/// Adds the heading of a text, up to the text.
fn push_heading(heading: &str, text: &str, out: &mut String) -> Result<(), AllocError> {
    out.push_str("<h2>")?;
    out.push_str(heading)?;
    out.push_str("</h2>\n<pre>")?;
    if text.is_empty() {
        out.push_str("none")?;
    }
    Ok(())
}

/// Adds where the script shows a line, and the script.
fn push_end(out: &mut String) -> Result<(), AllocError> {
    out.push_str("<div id=\"detail\" hidden=\"\"></div>\n<script>")?;
    out.push_str(SCRIPT)?;
    out.push_str("</script></body></html>\n")
}
