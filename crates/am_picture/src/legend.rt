//! The legend of a page, and the fields by which its script filters.
use crate::lane::Kind;
use std::alloc::AllocError;

/// The fields that filter the groups. A page without its script doesn't show them.
const FILTERS: &str = "<form class=\"js\" id=\"filters\">
<input id=\"search\" type=\"search\" placeholder=\"label or text\" aria-label=\"search\"/>
<select id=\"receiver\" aria-label=\"receiver\"><option value=\"\">every receiver</option></select>
<select id=\"route\" aria-label=\"route\"><option value=\"\">every route</option></select>
<select id=\"state\" aria-label=\"state\"><option value=\"\">every state</option>\
<option value=\"em\">with a remark</option><option value=\"em.x\">with failures</option>\
<option value=\"li.u\">not notified</option><option value=\"summary i\">muted</option></select>
<label id=\"zone\"><input type=\"checkbox\" id=\"local\"/> local time</label>
<output id=\"found\"></output></form>
";

/// Adds the fields that filter, and what each mark and bar means.
pub(crate) fn push_legend(out: &mut String) -> Result<(), AllocError> {
    out.push_str(FILTERS)?;
    out.push_str("<p class=\"legend\">")?;
    push_mark(Kind::First, "first notification", out)?;
    push_mark(Kind::New, "new alert", out)?;
    push_mark(Kind::AllResolved, "all resolved", out)?;
    push_mark(Kind::SomeResolved, "some resolved", out)?;
    push_mark(Kind::Repeat, "repeat", out)?;
    push_mark(Kind::Failed, "failed", out)?;
    out.push_str(
        "<span class=\"q\">nothing sent</span> <span><b></b>alert fires</span> <span><u></u>muted</span> Open a row to read it.</p>\n",
    )
}

/// Adds a mark with its meaning.
fn push_mark(kind: Kind, meaning: &str, out: &mut String) -> Result<(), AllocError> {
    out.push_str("<span class=\"")?;
    out.push_str(kind.class())?;
    out.push_str("\">")?;
    out.push_str(meaning)?;
    out.push_str("</span> ")
}
