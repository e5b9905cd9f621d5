//! Patterns that are plain texts with bars between them, as `critical|warning`. Nearly all patterns
//! of real settings are. A text matches one of them where it is one of the texts, so no regex
//! has to be built or searched.
ghost use Rattle.std.specs.Prelude.{◌≡◌};
ghost use Rattle.am_alerts.specs.Plain.{bar_texts, is_one_of, is_plain_or_bar, is_plain_pattern};

/// Whether a pattern is plain texts with bars between them: it has only ASCII characters, of which
/// none but the bar has a meaning of its own.
pub(crate) fn is_plain_pattern(pattern: &str) -> bool
    ensures { result ≡ is_plain_pattern pattern.now }
{
    pattern.as_bytes().iter().all(|b| is_plain_or_bar(*b))
}

fn is_plain_or_bar(byte: u8) -> bool
    ensures { result ≡ is_plain_or_bar byte }
{
    match byte {
        b'\\' | b'.' | b'+' | b'*' | b'?' | b'(' | b')' | b'[' | b']' | b'{' | b'}' | b'^' | b'$' =>
            false,
        _ => byte < 128,
    }
}

/// Whether a text is one of those between the bars of a pattern.
pub(crate) fn is_one_of(pattern: &str, text: &str) -> bool
    ensures { result ≡ is_one_of (bar_texts pattern.now) text.now }
{
    pattern.split('|').any(|part| part == text)
}
