//! The command line. The program takes no arguments but `--help` and `--version`.
ghost use Rattle.std.specs.Prelude.{◌<◌, IsOk, length};

use clap::Command;
use clap::error::Error;
use std::alloc::Global;

/// The version that `--version` prints.
const VERSION: &str = "1.0.0";

const ABOUT: &str =
    "Decides when Alertmanager's notifications are sent, as a child process of your program";

const LINES: &str = "\
It takes no arguments. It reads calls from standard input, one JSON object a line, and answers each with one line. \
docs/dispatch.md has all calls. Statuses: 0 the input ended; 1 the input isn't readable, or there are no random numbers; \
2 the command line is rejected; 3 out of memory before the first line; 4 the output isn't writable.";

/// Reads the words of the command line, the program's name first. The error is the text of `--help` and `--version` too.
pub fn read_arguments(alloc: Global, words: &[String]) -> Result<(), Error>
    ensures { length words.now < 2 → IsOk result }
{
    if words.len() < 2 {
        return Ok(());
    }
    let command = Command::new(alloc, "am-dispatch")
        .bin_name("am-dispatch")?
        .version(VERSION)
        .about(ABOUT)
        .after_help(LINES);
    let _matches = command.try_get_matches_from(words)?;
    Ok(())
}
