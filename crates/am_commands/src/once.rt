//! Standard input among the files of a command line.
ghost use Rattle.std.specs.Prelude.{◌≡◌, IfErr, map};
ghost use Rattle.am_commands.specs.Inputs.{ReadsTwice};

use am_command_line::exit_status::ExitStatus;
use am_command_line::request::STANDARD_INPUT;

/// Refuses standard input as two of these files, since it can be read once. The error is the status.
pub fn accept_inputs<R: Eprint>(rt: &R, files: &[&str]) -> Result<(), ExitStatus>
    ensures rejected { IfErr result (λ status. status ≡ ExitStatus.Rejected) }
    ensures twice { IfErr result (λ _. ReadsTwice (map (λ file. file.now) files.now)) }
{
    let mut is_taken = false;
    for file in files {
        if *file == STANDARD_INPUT {
            if is_taken {
                let _ = eprintln!(rt;
                    "am-rehearse: two files are -, and standard input is read once"
                );
                return Err(ExitStatus::Rejected);
            }
            is_taken = true;
        }
    }
    Ok(())
}
