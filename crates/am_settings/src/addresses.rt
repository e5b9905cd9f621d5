//! URLs, hosts with ports, and durations as Go writes them.
//!
//! What is one here is one for Go's `url.Parse`, `net.SplitHostPort` and `time.ParseDuration` too. They
//! accept some more, as a host with two colons, of which nobody can make use.

/// Whether a text is a URL of HTTP or HTTPS that has a host.
pub(crate) fn is_url(text: &str) -> bool {
    match text.split_once("://") {
        None => false,
        Some((scheme, rest)) => {
            let is_web = scheme.eq_ignore_ascii_case("http")
                || scheme.eq_ignore_ascii_case("https");
            is_web && is_behind_scheme(rest)
        }
    }
}

/// Whether a text is the URL of a proxy that has a host.
pub(crate) fn is_proxy_url(text: &str) -> bool {
    match text.split_once("://") {
        None => false,
        Some((scheme, rest)) => {
            let is_socks = scheme.eq_ignore_ascii_case("socks5")
                || scheme.eq_ignore_ascii_case("socks5h");
            (is_socks && is_behind_scheme(rest)) || is_url(text)
        }
    }
}

/// Whether a host and what can follow it are behind a URL's scheme.
fn is_behind_scheme(rest: &str) -> bool {
    if rest.bytes().any(|byte| byte.is_ascii_control()) {
        return false;
    }
    let (rest, fragment) = split_or_whole(rest, '#');
    let (rest, _) = split_or_whole(rest, '?');
    let (authority, path) = split_or_whole(rest, '/');
    is_escaped_well(fragment.as_bytes())
        && is_escaped_well(path.as_bytes())
        && is_authority(authority)
}

/// What is before the first such character, and what is behind it; or the whole and nothing.
fn split_or_whole(text: &str, character: char) -> (&str, &str) {
    match text.split_once(character) {
        None => (text, ""),
        Some(parts) => parts,
    }
}

/// Whether two hexadecimal digits are behind each percent sign.
fn is_escaped_well(bytes: &[u8]) -> bool {
    let mut wanted = 0u8;
    for byte in bytes {
        if wanted > 0 {
            if !byte.is_ascii_hexdigit() {
                return false;
            }
            wanted -= 1;
        } else if *byte == b'%' {
            wanted = 2;
        }
    }
    wanted == 0
}

/// Whether a text is a host, perhaps behind a user's name and before a port.
fn is_authority(text: &str) -> bool {
    match text.rsplit_once('@') {
        None => is_host_with_port(text),
        Some((user, host)) => is_user(user) && is_host_with_port(host),
    }
}

/// Whether a text can be the name and the password of a user.
fn is_user(text: &str) -> bool {
    is_escaped_well(text.as_bytes())
        && text.bytes().all(|byte| is_plain_in_host(byte) || matches!(byte, b':' | b'@' | b'%'))
}

fn is_plain_in_host(byte: u8) -> bool {
    byte.is_ascii_alphanumeric()
        || matches!(
            byte,
            b'-' | b'.'
                | b'_'
                | b'~'
                | b'!'
                | b'$'
                | b'&'
                | b'\''
                | b'('
                | b')'
                | b'*'
                | b'+'
                | b','
                | b';'
                | b'='
        )
}

/// Whether a text is a host that isn't empty, perhaps before a port.
fn is_host_with_port(text: &str) -> bool {
    if let Some(behind) = text.strip_prefix('[') {
        return match behind.split_once(']') {
            None => false,
            Some((address, rest)) => is_address(address) && is_port_or_nothing(rest),
        };
    }
    match text.split_once(':') {
        None => is_host(text),
        Some((host, port)) => is_host(host) && is_port(port),
    }
}

fn is_host(text: &str) -> bool {
    !text.is_empty()
        && text
            .bytes()
            .all(|byte| is_plain_in_host(byte) || byte >= 0x80)
}

/// Whether a text can be an address of IPv6.
fn is_address(text: &str) -> bool {
    !text.is_empty()
        && text.bytes().all(|byte| byte.is_ascii_hexdigit() || byte == b':' || byte == b'.')
}

fn is_port_or_nothing(text: &str) -> bool {
    match text.strip_prefix(':') {
        None => text.is_empty(),
        Some(port) => is_port(port),
    }
}

fn is_port(text: &str) -> bool {
    !text.is_empty() && text.bytes().all(|byte| byte.is_ascii_digit())
}

/// Whether a text is a host and a port, as `mail.example.org:587`. The host can be empty.
pub(crate) fn is_host_port(text: &str) -> bool {
    let Some((host, port)) = text.rsplit_once(':') else {
        return false;
    };
    if port.is_empty() || has_brackets(port) {
        return false;
    }
    match host.strip_prefix('[') {
        None => !has_brackets(host) && !host.contains(':'),
        Some(behind) => behind
            .strip_suffix(']')
            .is_some_and(|address| !has_brackets(address)),
    }
}

fn has_brackets(text: &str) -> bool {
    text.contains('[') || text.contains(']')
}

/// Whether a text is a duration as Go writes it, which isn't negative: `90s`, `1h30m`, `1.5h`, `0`.
pub(crate) fn is_go_duration(text: &str) -> bool {
    if text == "0" {
        return true;
    }
    let mut rest = text;
    let mut nanoseconds = 0u64;
    for _ in 0..text.len() {
        let (number, behind) = leading_number(rest);
        let (unit, behind) = leading_unit(behind);
        match in_nanoseconds(number, unit) {
            None => return false,
            Some(part) => nanoseconds = nanoseconds.saturating_add(part),
        }
        if behind.is_empty() {
            return nanoseconds <= MOST_NANOSECONDS;
        }
        rest = behind;
    }
    false
}

/// The longest duration that Go has.
const MOST_NANOSECONDS: u64 = 9_223_372_036_854_775_807;

fn is_digit_or_point(character: char) -> bool {
    character.is_ascii_digit() || character == '.'
}

/// The digits and points with which a text begins, and what is behind them.
fn leading_number(text: &str) -> (&str, &str) {
    match text.find(|character: char| !is_digit_or_point(character)) {
        None => (text, ""),
        Some(index) => text.split_at(index),
    }
}

/// What is before the first digit or point of a text, and what is behind that.
fn leading_unit(text: &str) -> (&str, &str) {
    match text.find(|character: char| is_digit_or_point(character)) {
        None => (text, ""),
        Some(index) => text.split_at(index),
    }
}

/// About how many nanoseconds a number of these units is: a fraction counts as one more of them.
fn in_nanoseconds(number: &str, unit: &str) -> Option<u64> {
    let unit = unit_in_nanoseconds(unit)?;
    let (whole, fraction) = match number.split_once('.') {
        None => (number, ""),
        Some(parts) => parts,
    };
    if fraction.contains('.') || (whole.is_empty() && fraction.is_empty()) {
        return None;
    }
    let count = if whole.is_empty() {
        0
    } else {
        whole.parse::<u64>().ok()?
    };
    count.saturating_add(1).checked_mul(unit)
}

fn unit_in_nanoseconds(unit: &str) -> Option<u64> {
    match unit {
        "ns" => Some(1),
        "us" | "\u{b5}s" | "\u{3bc}s" => Some(1_000),
        "ms" => Some(1_000_000),
        "s" => Some(1_000_000_000),
        "m" => Some(60_000_000_000),
        "h" => Some(3_600_000_000_000),
        _ => None,
    }
}
