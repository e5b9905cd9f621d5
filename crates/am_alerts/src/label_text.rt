//! The text of a label set.
ghost use Rattle.std.specs.Prelude.{◌≡◌, ◌++◌, OnOk, OnErr, codes, string_bytes};
ghost use Rattle.std.specs.List.{join_by};
ghost use Rattle.std.specs.Char.{encode_utf8};
ghost use Rattle.am_alerts.specs.Labels.{label_in};
ghost use Rattle.am_alerts.specs.LabelText.{escaped, label_text, label_set_text, BeginsWith};

use crate::labels::Labels;
use std::alloc::AllocError;

/// Appends the text of a label set, or a part of it where there is no memory.
pub(crate) fn push_label_set(out: &mut String, labels: &Labels) -> Result<(), AllocError>
    ensures text { OnOk result
        (string_bytes out.new ≡ string_bytes out.old ++ label_set_text labels.now) }
    ensures begins { BeginsWith (string_bytes out.new) (string_bytes out.old) }
{
    out.push_str("{")?;
    push_labels(out, labels)?;
    out.push_str("}")
}

fn push_labels(out: &mut String, labels: &Labels) -> Result<(), AllocError>
    ensures text { OnOk result (string_bytes out.new
        ≡ string_bytes out.old ++ join_by label_text (codes ",") labels.now) }
    ensures begins { BeginsWith (string_bytes out.new) (string_bytes out.old) }
{
    for i in 0..labels.len() {
        if i > 0 {
            out.push_str(",")?;
        }
        push_label(out, &labels.pair(i))?;
    }
    Ok(())
}

fn push_label(out: &mut String, label: &(&str, &str)) -> Result<(), AllocError>
    ensures text { OnOk result (string_bytes out.new
        ≡ string_bytes out.old ++ label_text (label_in label.now)) }
    ensures begins { BeginsWith (string_bytes out.new) (string_bytes out.old) }
{
    out.push_str(label.0)?;
    out.push_str("=\"")?;
    push_escaped(out, label.1)?;
    out.push_str("\"")
}

/// Appends a label's value, escaped as Alertmanager writes it between quotes, or a part of it where
/// there is no memory.
pub fn push_escaped(out: &mut String, value: &str) -> Result<(), AllocError>
    ensures text { OnOk result (string_bytes out.new ≡ string_bytes out.old ++ escaped value.now) }
    ensures begins { BeginsWith (string_bytes out.new) (string_bytes out.old) }
{
    for c in value.chars() {
        push_char(out, c)?;
    }
    Ok(())
}

fn push_char(out: &mut String, c: char) -> Result<(), AllocError>
    ensures text { OnOk result
        (string_bytes out.new ≡ string_bytes out.old ++ escaped (encode_utf8 c)) }
    ensures unchanged { OnErr result (string_bytes out.new ≡ string_bytes out.old) }
{
    match c {
        '\\' => out.push_str("\\\\"),
        '"' => out.push_str("\\\""),
        '\n' => out.push_str("\\n"),
        _ => out.push(c),
    }
}
