//! Texts as content of XML and HTML elements.
ghost use Rattle.std.specs.Prelude.{◌≡◌, ◌++◌, OnOk, string_bytes};
ghost use Rattle.am_timeline.specs.Escaped.{char_escaped, escaped, escaped_up_to};

use std::alloc::AllocError;

/// Adds a text as content of an element: `<`, `>`, `&` and quotes as entities. U+FFFD replaces a control
/// character except a line feed, and a character that XML can't have.
pub fn push_escaped(text: &str, out: &mut String) -> Result<(), AllocError>
    ensures { OnOk result (string_bytes out.new ≡ string_bytes out.old ++ escaped text.now) }
{
    for c in text.chars() {
        push_char(c, out)?;
    }
    Ok(())
}

/// Adds at most `most` characters of a text, as content of an element, and `…` if it has more.
pub fn push_cut(text: &str, most: usize, out: &mut String) -> Result<(), AllocError>
    ensures { OnOk result (string_bytes out.new ≡ string_bytes out.old ++ escaped_up_to most text.now) }
{
    let mut left = most;
    for c in text.chars() {
        if left == 0 {
            return out.push('…');
        }
        push_char(c, out)?;
        left -= 1;
    }
    Ok(())
}

fn push_char(c: char, out: &mut String) -> Result<(), AllocError>
    ensures { OnOk result (string_bytes out.new ≡ string_bytes out.old ++ char_escaped c) }
{
    match c {
        '<' => out.push_str("&lt;"),
        '>' => out.push_str("&gt;"),
        '&' => out.push_str("&amp;"),
        '"' => out.push_str("&quot;"),
        '\'' => out.push_str("&#39;"),
        '\0'..='\t' | '\u{b}'..='\u{1f}' | '\u{7f}'..='\u{9f}' | '\u{fffe}' | '\u{ffff}' => {
            out.push('\u{fffd}')
        }
        _ => out.push(c),
    }
}
