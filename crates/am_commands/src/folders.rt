//! The files of folders that a command line names.
ghost use Rattle.std.specs.Prelude.{◌≡◌, ◌+◌, ◌<◌, IfErr, IsTrue, OnOk, vec_len};
ghost use Rattle.am_console.specs.Complaints.{is_complaint};

use am_command_line::exit_status::ExitStatus;
use am_command_line::request::STANDARD_INPUT;
use am_console::console::Console;
use am_console::files::FileFault;
use std::alloc::{AllocError, Global};
use std::fs;
use std::io::{self, ErrorKind};
use std::rt::Files;

/// Adds a file, or the files of a folder. The error is the status.
pub fn add_files<R: Files + Eprint + AllocGlobal + Clone + Drop>(
    rt: &R,
    console: &Console,
    path: &str,
    files: &mut Vec<String>,
) -> Result<(), ExitStatus>
    ensures adds { OnOk result (vec_len files.old < vec_len files.new) }
    ensures complains { IfErr result (λ status. IsTrue (is_complaint status)) }
{
    if path == STANDARD_INPUT || !is_folder(rt, path) {
        return match add_file(rt.alloc(), path, files) {
            Ok(()) => Ok(()),
            Err(_) => Err(console.complain_of_memory(rt)),
        };
    }
    let before = files.len();
    match add_folder(rt, path, files) {
        Ok(()) if files.len() > before => Ok(()),
        Ok(()) => {
            let _ = eprintln!(rt;
                "am-rehearse: {path}: no file in it ends with .yml, .yaml or .json"
            );
            Err(ExitStatus::Rejected)
        }
        Err(fault) if fault.kind() == ErrorKind::OutOfMemory => Err(console.complain_of_memory(rt)),
        Err(_) => Err(console.complain_of_file(rt, path, FileFault::Unopened)),
    }
}

fn is_folder<R: Files>(rt: &R, path: &str) -> bool {
    match fs::metadata(rt, path) {
        Ok(metadata) => metadata.is_dir(),
        Err(_) => false,
    }
}

/// Adds the files of a folder in YAML or JSON, in the order of their names.
fn add_folder<R: Files + AllocGlobal + Clone + Drop>(
    rt: &R,
    path: &str,
    files: &mut Vec<String>,
) -> io::Result<()> {
    let mut found = Vec::new(rt.alloc());
    for entry in fs::read_dir(rt, path)? {
        let entry = entry?;
        if is_read(entry.file_name()) {
            found.push(String::from_str(rt.alloc(), entry.path().to_string_lossy())?)?;
        }
    }
    found.sort()?;
    for file in found.as_slice() {
        add_file(rt.alloc(), file.as_str(), files)?;
    }
    Ok(())
}

fn add_file(alloc: Global, path: &str, files: &mut Vec<String>) -> Result<(), AllocError>
    ensures { OnOk result (vec_len files.new ≡ vec_len files.old + 1) }
{
    files.push(String::from_str(alloc, path)?)?;
    Ok(())
}

/// Whether a file of a folder is in YAML or JSON, by its name.
fn is_read(name: &str) -> bool {
    !name.starts_with('.')
        && (name.ends_with(".yml") || name.ends_with(".yaml") || name.ends_with(".json"))
}
