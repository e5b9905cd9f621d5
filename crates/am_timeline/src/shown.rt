//! Texts and label sets without characters that a terminal would take as a command.
ghost use Rattle.std.specs.Prelude.{◌≡◌, ◌++◌, ◌∷◌, [], ◌<◌, OnOk, codes, string_bytes};
ghost use Rattle.std.specs.List.{join_by};
ghost use Rattle.am_alerts.specs.Labels.{label_in};
ghost use Rattle.am_timeline.specs.Shown.{char_shown, hex_digit, hex_text, label_shown, set_shown, text_shown};

use am_alerts::labels::Labels;
use std::alloc::AllocError;

/// Adds a label set.
pub fn push_set(labels: &Labels, out: &mut String) -> Result<(), AllocError>
    ensures { OnOk result (string_bytes out.new ≡ string_bytes out.old ++ set_shown labels.now) }
{
    out.push_str("{")?;
    push_labels(labels, out)?;
    out.push_str("}")
}

fn push_labels(labels: &Labels, out: &mut String) -> Result<(), AllocError>
    ensures { OnOk result (string_bytes out.new
        ≡ string_bytes out.old ++ join_by label_shown (codes ",") labels.now) }
{
    for i in 0..labels.len() {
        if i > 0 {
            out.push_str(",")?;
        }
        push_label(&labels.pair(i), out)?;
    }
    Ok(())
}

fn push_label(label: &(&str, &str), out: &mut String) -> Result<(), AllocError>
    ensures { OnOk result (string_bytes out.new ≡ string_bytes out.old ++ label_shown (label_in label.now)) }
{
    out.push_str(label.0)?;
    out.push_str("=\"")?;
    push_text(label.1, out)?;
    out.push_str("\"")
}

/// Adds a text: `\`, `"` and a line feed as `\\`, `\"` and `\n`, each other control character as its
/// number, like `\u{1b}`.
pub fn push_text(text: &str, out: &mut String) -> Result<(), AllocError>
    ensures { OnOk result (string_bytes out.new ≡ string_bytes out.old ++ text_shown text.now) }
{
    for c in text.chars() {
        push_char(c, out)?;
    }
    Ok(())
}

fn push_char(c: char, out: &mut String) -> Result<(), AllocError>
    ensures { OnOk result (string_bytes out.new ≡ string_bytes out.old ++ char_shown c) }
{
    match c {
        '\\' => out.push_str("\\\\"),
        '"' => out.push_str("\\\""),
        '\n' => out.push_str("\\n"),
        '\0'..='\u{1f}' | '\u{7f}'..='\u{9f}' => push_control(c as u32 as u8, out),
        _ => out.push(c),
    }
}

fn push_control(number: u8, out: &mut String) -> Result<(), AllocError>
    ensures { OnOk result (string_bytes out.new ≡ string_bytes out.old ++ codes "\\u{" ++ hex_text number ++ codes "}") }
{
    out.push_str("\\u{")?;
    push_hex(number, out)?;
    out.push_str("}")
}

/// Adds a number in hexadecimal digits.
pub fn push_hex(number: u8, out: &mut String) -> Result<(), AllocError>
    ensures { OnOk result (string_bytes out.new ≡ string_bytes out.old ++ hex_text number) }
{
    if number >= 16 {
        push_hex_digit(number / 16, out)?;
    }
    push_hex_digit(number % 16, out)
}

fn push_hex_digit(digit: u8, out: &mut String) -> Result<(), AllocError>
    requires { digit < 16 }
    ensures { OnOk result (string_bytes out.new ≡ string_bytes out.old ++ hex_digit digit ∷ []) }
{
    let code = if digit < 10 {
        b'0' + digit
    } else {
        b'a' + (digit - 10)
    };
    out.push(char::from(code))
}
