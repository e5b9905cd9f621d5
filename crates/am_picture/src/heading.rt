//! The head of a page: what it is of, and how much it shows.
use crate::content::{push_content, push_count};
use crate::counts::Totals;
use crate::mute_lists::{MuteLists, push_masks};
use crate::pen::{Pen, push_positions};
use crate::script::SCRIPT_SUM;
use crate::story::Names;
use crate::style::STYLE;
use am_terms::clock::TimeFormat;
use std::alloc::AllocError;

/// The front of a page, up to the sum of its script. Its policy lets a browser take nothing from elsewhere, and run no other script.
const FRONT: &str = "<!DOCTYPE html>
<html xmlns=\"http://www.w3.org/1999/xhtml\" lang=\"en\">
<head><meta charset=\"utf-8\"/>
<meta http-equiv=\"Content-Security-Policy\" content=\"default-src 'none'; style-src 'unsafe-inline'; script-src 'sha256-";

/// What is behind that sum, up to the title.
const BEHIND: &str = "'\"/>
<meta name=\"viewport\" content=\"width=device-width,initial-scale=1\"/>
<title>";

/// Adds all that is above the overview.
pub(crate) fn push_head<C: TimeFormat>(
    pen: &Pen<'_, C>,
    names: Names<'_>,
    totals: Totals,
    lists: &MuteLists,
    out: &mut String,
) -> Result<(), AllocError> {
    out.push_str(FRONT)?;
    out.push_str(SCRIPT_SUM)?;
    out.push_str(BEHIND)?;
    push_content(names.story, out)?;
    out.push_str("</title>\n<style>")?;
    out.push_str(STYLE)?;
    if pen.is_dense {
        push_positions(out)?;
    }
    push_masks(pen, lists, out)?;
    out.push_str("</style></head>\n<body data-start=\"")?;
    pen.push_whole_time(0, out)?;
    out.push_str("\">\n<h1>")?;
    push_content(names.story, out)?;
    if let Some(config) = names.config {
        out.push_str(" <small>with ")?;
        push_content(config, out)?;
        out.push_str("</small>")?;
    }
    out.push_str("</h1>\n")?;
    push_totals(pen, totals, out)
}

/// Adds how much there is of everything, and from when to when.
fn push_totals<C: TimeFormat>(
    pen: &Pen<'_, C>,
    totals: Totals,
    out: &mut String,
) -> Result<(), AllocError> {
    out.push_str("<p class=\"sum\"><b>")?;
    push_count(totals.notices, "notification", out)?;
    out.push_str(", ")?;
    push_count(totals.failures, "failure", out)?;
    out.push_str("</b> for ")?;
    push_count(totals.alerts, "alert", out)?;
    out.push_str(" in ")?;
    push_count(totals.groups, "group", out)?;
    out.push_str(", from ")?;
    pen.push_whole_time(0, out)?;
    out.push_str(" to ")?;
    pen.push_whole_time(pen.axis.end(), out)?;
    if totals.undelivered > 0 {
        out.push_str(". <b>")?;
        push_count(totals.undelivered, "alert", out)?;
        out.push_str("</b> in no delivered notification")?;
    }
    out.push_str(".</p>\n")
}
