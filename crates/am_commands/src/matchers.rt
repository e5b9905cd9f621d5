//! Matchers of a command line, as `--alert` and `--drop` take them.
ghost use Rattle.std.specs.Prelude.{◌≡◌, IfErr, IfOk, IsTrue, map};
ghost use Rattle.am_console.specs.Complaints.{is_rejection};
ghost use Rattle.am_console.specs.MatcherWords.{HasNoMatcher, IsMatcherOf, IsNoMatcher, WriteMatchers};

use am_alerts::matcher::Matcher;
use am_command_line::exit_status::ExitStatus;
use am_console::console::Console;
use am_console::matcher_words::{matcher_of, words_for};

/// Returns the matchers that these values of an option write. The error is the status.
pub fn matchers_of<R: Eprint + AllocGlobal>(
    rt: &R,
    console: &Console,
    option: &str,
    texts: &[&str],
) -> Result<Vec<Matcher>, ExitStatus>
    ensures written { IfOk result (λ matchers. WriteMatchers (map (λ text. text.now) texts.now) matchers.items) }
    ensures complains { IfErr result (λ status. IsTrue (is_rejection status)) }
    ensures refused { IfErr result (λ status. status ≡ ExitStatus.Rejected → HasNoMatcher (map (λ text. text.now) texts.now)) }
{
    let mut matchers = Vec::new(rt.alloc());
    for text in texts {
        let matcher = matcher_in(rt, console, option, text)?;
        if matchers.push(matcher).is_err() {
            return Err(console.complain_of_memory(rt));
        }
    }
    Ok(matchers)
}

/// Returns the matcher that a value of an option writes. The error is the status.
fn matcher_in<R: Eprint + AllocGlobal>(
    rt: &R,
    console: &Console,
    option: &str,
    text: &str,
) -> Result<Matcher, ExitStatus>
    ensures written { IfOk result (IsMatcherOf text.now) }
    ensures complains { IfErr result (λ status. IsTrue (is_rejection status)) }
    ensures refused { IfErr result (λ status. status ≡ ExitStatus.Rejected → IsNoMatcher text.now) }
{
    let fault = match matcher_of(rt.alloc(), text) {
        Ok(matcher) => return Ok(matcher),
        Err(fault) => fault,
    };
    match words_for(rt.alloc(), text, fault) {
        Err(_) => Err(console.complain_of_memory(rt)),
        Ok(words) => {
            let _ = eprintln!(rt; "am-rehearse: {option}: {words}");
            Err(ExitStatus::Rejected)
        }
    }
}
