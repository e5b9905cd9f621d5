//! Completions for bash.
use crate::command::{COLORS, FORMATS, OUTPUTS, command};
use clap::Command;
use std::alloc::{AllocError, Global};

/// Returns a script for bash that completes the command line.
pub fn completions(alloc: Global) -> Result<String, AllocError> {
    let command = command(alloc)?;
    script_for(alloc, &command)
}

fn script_for(alloc: Global, command: &Command<'_>) -> Result<String, AllocError> {
    let mut script = String::new(alloc);
    push_script(&mut script, command)?;
    Ok(script)
}

/// The options that take one of some words, and these words.
const VALUES: [(&str, &[&str]); 3] = [
    ("output", &OUTPUTS),
    ("color", &COLORS),
    ("format", &FORMATS),
];

/// What is before the words of the commands.
const HEAD: &str = "\
_am_rehearse() {
    local word=\"${COMP_WORDS[COMP_CWORD]}\" before=\"${COMP_WORDS[COMP_CWORD-1]}\" command= words=
    if [ \"$COMP_CWORD\" -gt 1 ]; then command=\"${COMP_WORDS[1]}\"; fi
";

/// What is behind them.
const TAIL: &str = "    esac
    COMPREPLY=($(compgen -W \"$words\" -- \"$word\"))
}
complete -o default -F _am_rehearse am-rehearse
";

fn push_script(script: &mut String, command: &Command<'_>) -> Result<(), AllocError> {
    script.push_str(HEAD)?;
    push_commands(script, command.get_subcommands())?;
    script.push_str("    case \"$before\" in\n")?;
    for (option, values) in &VALUES {
        push_values(script, *option, values)?;
    }
    script.push_str(TAIL)
}

/// Adds the words behind each command, and those that are where there is none yet.
fn push_commands(script: &mut String, commands: &[Command<'_>]) -> Result<(), AllocError> {
    script.push_str("    case \"$command\" in\n    '') words=\"")?;
    for command in commands {
        script.push_str(command.get_name())?;
        script.push(' ')?;
    }
    script.push_str("--help --version\" ;;\n")?;
    for command in commands {
        push_options(script, command)?;
    }
    script.push_str("    esac\n")
}

fn push_options(script: &mut String, command: &Command<'_>) -> Result<(), AllocError> {
    write!(script, "    {}) words=\"", command.get_name())?;
    for argument in command.get_arguments() {
        if let Some(long) = argument.get_long() {
            write!(script, "--{long} ")?;
        }
    }
    script.push_str("--help\" ;;\n")
}

fn push_values(script: &mut String, option: &str, values: &[&str]) -> Result<(), AllocError> {
    write!(script, "    --{option}) words=\"")?;
    let mut separator = "";
    for value in values {
        write!(script, "{separator}{value}")?;
        separator = " ";
    }
    script.push_str("\" ;;\n")
}
