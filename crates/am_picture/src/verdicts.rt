//! The expectations of a page, with what became of them: those that aren't met first.
use crate::content::{push_content, push_count};
use crate::story::Verdict;
use std::alloc::AllocError;

/// Adds what became of the expectations, if there are any.
pub(crate) fn push_verdicts(verdicts: &[Verdict], out: &mut String) -> Result<(), AllocError> {
    if verdicts.is_empty() {
        return Ok(());
    }
    let met = verdicts.iter().filter(|verdict| verdict.is_met).count();
    let unmet = verdicts.len().saturating_sub(met);
    out.push_str("<h2>Expectations</h2>\n")?;
    if unmet > 0 {
        push_list(verdicts, unmet, false, out)?;
    }
    if met > 0 {
        push_list(verdicts, met, true, out)?;
    }
    Ok(())
}

/// Adds those that are met, or those that aren't. These are open.
fn push_list(
    verdicts: &[Verdict],
    count: usize,
    is_met: bool,
    out: &mut String,
) -> Result<(), AllocError> {
    out.push_str(if is_met {
        "<details class=\"e\"><summary>✓ "
    } else {
        "<details class=\"e\" open=\"\"><summary><em class=\"x\">✗ "
    })?;
    push_count(count, "expectation", out)?;
    out.push_str(if is_met { " met" } else { " not met</em>" })?;
    out.push_str("</summary>\n<pre>")?;
    for verdict in verdicts {
        if verdict.is_met == is_met {
            push_content(verdict.text.as_str(), out)?;
        }
    }
    out.push_str("</pre></details>\n")
}
