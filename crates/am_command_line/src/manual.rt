//! The manual page.
use crate::command::command;
use crate::exit_status::EXIT_STATUSES;
use clap::{Arg, Command};
use std::alloc::{AllocError, Global};

/// Returns the manual page of the command line, in troff.
pub fn manual(alloc: Global) -> Result<String, AllocError> {
    let command = command(alloc)?;
    page_of(alloc, &command)
}

fn page_of(alloc: Global, command: &Command<'_>) -> Result<String, AllocError> {
    let mut page = String::new(alloc);
    push_page(&mut page, command)?;
    Ok(page)
}

fn push_page(page: &mut String, command: &Command<'_>) -> Result<(), AllocError> {
    push_head(page, command.get_name(), command.get_about().unwrap_or(""))?;
    for subcommand in command.get_subcommands() {
        push_command(page, subcommand)?;
    }
    page.push_str(".SH EXIT STATUS\n")?;
    push_statuses(page)
}

/// Adds what is before the commands.
fn push_head(page: &mut String, name: &str, about: &str) -> Result<(), AllocError> {
    page.push_str(".TH AM-REHEARSE 1\n.SH NAME\n")?;
    page.push_str(name)?;
    page.push_str(" \\- ")?;
    push_escaped(page, about)?;
    page.push_str("\n.SH SYNOPSIS\n.B ")?;
    page.push_str(name)?;
    page.push_str("\n.I COMMAND\n[\\fIOPTIONS\\fR]\n.SH COMMANDS\n")
}

fn push_command(page: &mut String, command: &Command<'_>) -> Result<(), AllocError> {
    page.push_str(".SS ")?;
    page.push_str(command.get_name())?;
    page.push('\n')?;
    push_escaped(page, command.get_about().unwrap_or(""))?;
    page.push_str(".\n")?;
    for argument in command.get_arguments() {
        push_argument(page, argument)?;
    }
    Ok(())
}

fn push_argument(page: &mut String, argument: &Arg<'_>) -> Result<(), AllocError> {
    let (before, name) = match argument.get_long() {
        None => (".TP\n.I ", argument.get_id()),
        Some(long) => (".TP\n.B \\-\\-", long),
    };
    page.push_str(before)?;
    page.push_str(name)?;
    page.push('\n')?;
    push_escaped(page, argument.get_help().unwrap_or(""))?;
    page.push_str(".\n")
}

/// Adds a text in which troff reads nothing as a command of its own.
fn push_escaped(page: &mut String, text: &str) -> Result<(), AllocError> {
    for character in text.chars() {
        match character {
            '\\' => page.push_str("\\e")?,
            '-' => page.push_str("\\-")?,
            _ => page.push(character)?,
        }
    }
    Ok(())
}

fn push_statuses(page: &mut String) -> Result<(), AllocError> {
    for status in EXIT_STATUSES {
        let code = status.code();
        write!(page, ".TP\n.B {code}\n")?;
        push_escaped(page, status.meaning())?;
        page.push('\n')?;
    }
    Ok(())
}
