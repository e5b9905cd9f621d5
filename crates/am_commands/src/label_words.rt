//! Label sets that words of a command line write.
ghost use Rattle.std.specs.Prelude.{◌≡◌, IfErr, IfOk, IsTrue, MatchOption, map};
ghost use Rattle.am_alerts.specs.Labels.{labels_in};
ghost use Rattle.am_commands.specs.LabelWords.{AreLabels, AreNoLabels, HasNoLabel, IsLabelWord, IsNoLabelWord, IsNoMatcherText};
ghost use Rattle.am_commands.specs.LabelWords.{IsWritten, WriteLabels, label_of};
ghost use Rattle.am_console.specs.Complaints.{is_rejection};

use am_alerts::labels::{LabelFault, Labels};
use am_alerts::matcher::{MatcherParts, Operator};
use am_alerts::text::Text;
use am_command_line::exit_status::ExitStatus;
use am_console::console::Console;
use am_json::matcher_text::parts_of_text;
use std::alloc::{AllocError, Global};

/// Returns the label set of words such as `severity=critical`. The error is the status.
pub fn labels_of<R: Eprint + AllocGlobal>(
    rt: &R,
    console: &Console,
    words: &[&str],
) -> Result<Labels, ExitStatus>
    ensures written { IfOk result (AreLabels (map (λ word. word.now) words.now)) }
    ensures rejected { IfErr result (λ status. status ≡ ExitStatus.Rejected → AreNoLabels (map (λ word. word.now) words.now)) }
    ensures complains { IfErr result (λ status. IsTrue (is_rejection status)) }
{
    let parts = parts_of(rt, console, words)?;
    let Ok(pairs) = pairs_of(rt.alloc(), parts.as_slice()) else {
        return Err(console.complain_of_memory(rt));
    };
    match Labels::read(rt.alloc(), pairs.as_slice()) {
        Ok(labels) => Ok(labels),
        Err(LabelFault::NoMemory) => Err(console.complain_of_memory(rt)),
        Err(fault) => {
            let _ = eprintln!(rt; "am-rehearse: these labels are no label set: {fault}");
            Err(ExitStatus::Rejected)
        }
    }
}

/// Returns the name and the value of each of these words. The error is the status.
fn parts_of<R: Eprint + AllocGlobal>(
    rt: &R,
    console: &Console,
    words: &[&str],
) -> Result<Vec<MatcherParts>, ExitStatus>
    ensures written { IfOk result (λ parts. WriteLabels (map (λ word. word.now) words.now) parts.items) }
    ensures rejected { IfErr result (λ status. status ≡ ExitStatus.Rejected → HasNoLabel (map (λ word. word.now) words.now)) }
    ensures complains { IfErr result (λ status. IsTrue (is_rejection status)) }
{
    let mut parts = Vec::new(rt.alloc());
    for word in words {
        let label = parts_in(rt, console, word)?;
        if parts.push(label).is_err() {
            return Err(console.complain_of_memory(rt));
        }
    }
    Ok(parts)
}

fn pairs_of(alloc: Global, parts: &[MatcherParts]) -> Result<Vec<(&str, &str)>, AllocError>
    ensures { IfOk result (λ pairs. labels_in pairs.items ≡ map label_of parts.now) }
{
    let mut pairs = Vec::new(alloc);
    for label in parts {
        pairs.push((label.name.as_str(), label.value.as_str()))?;
    }
    Ok(pairs)
}

/// Returns the name and the value of a word such as `severity=critical`, in which quotes and escapes count as in a matcher.
/// The error is the status.
fn parts_in<R: Eprint + AllocGlobal>(
    rt: &R,
    console: &Console,
    word: &str,
) -> Result<MatcherParts, ExitStatus>
    ensures written { IfOk result (IsLabelWord word.now) }
    ensures rejected { IfErr result (λ status. status ≡ ExitStatus.Rejected → IsNoLabelWord word.now) }
    ensures complains { IfErr result (λ status. IsTrue (is_rejection status)) }
{
    match parts_of_label(rt.alloc(), word) {
        Ok(Some(parts)) => match parts.op {
            Operator::Equal => Ok(parts),
            _ => {
                let _ = eprintln!(rt;
                    "am-rehearse: `{word}` is a matcher, and an alert has labels; write one as severity=critical"
                );
                Err(ExitStatus::Rejected)
            }
        },
        Ok(None) => {
            let _ = eprintln!(rt;
                "am-rehearse: `{word}` is no label; write it as severity=critical"
            );
            Err(ExitStatus::Rejected)
        }
        Err(_) => Err(console.complain_of_memory(rt)),
    }
}

/// Returns the parts of a word that is written as a matcher is. Without quotes the value can have commas.
fn parts_of_label(alloc: Global, word: &str) -> Result<Option<MatcherParts>, AllocError>
    ensures { IfOk result (λ parts. MatchOption parts (IsNoMatcherText word.now) (IsWritten word.now)) }
{
    let parts = parts_of_text(alloc, word)?;
    if parts.is_some() {
        return Ok(parts);
    }
    match word.split_once('=') {
        Some((name, value)) if is_plain(name) && is_plain(value) => Ok(Some(MatcherParts {
            name: Text::new(alloc, name.trim())?,
            op: Operator::Equal,
            value: Text::new(alloc, value.trim())?,
        })),
        _ => Ok(None),
    }
}

/// Returns whether a text has nothing that would make it another kind of matcher, or end it.
fn is_plain(text: &str) -> bool {
    !text.contains(['"', '\\', '!']) && !text.starts_with('~')
}
