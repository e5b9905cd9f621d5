//! Files that are read with their values, and the output in colors.
ghost use Rattle.std.specs.Prelude.{◌≡◌, ◌≢◌, ◌≤◌, ◌+◌, ◌++◌, ◌==◌, false, length, IfErr, IfOk, IsTrue, if◌then◌else◌};
ghost use Rattle.std.specs.Result.{result_unwrap_or};
ghost use Rattle.serde_json.specs.View.{view};
ghost use Rattle.am_json.specs.Bytes.{moved};
ghost use Rattle.am_console.specs.Complaints.{is_complaint};
ghost use Rattle.am_console.specs.Source.{IsReadAt, RefusesFile};

use crate::source::{SourceFault, SourceText, read_source};
use am_command_line::exit_status::ExitStatus;
use am_command_line::paint::painted;
use am_command_line::request::STANDARD_INPUT;
use am_json::device::{DeviceFault, Sink, Source, StandardInput, StandardOutput};
use am_json::io_trace::IoTrace;
use am_json::transfer::write_all;
use am_yaml::document::DocumentFault;
use std::alloc::Global;
use std::fs;
use std::io::{ErrorKind, Read};
use std::rt::Files;

/// A file that is read.
#[derive(Drop)]
pub struct FileSource<F: Read + Drop> {
    file: F,
    io_trace: IoTrace,
}

/// The standard output, perhaps with colors. Without them, contracts see what the standard output itself took.
#[derive(Drop)]
pub struct PaintedOutput {
    alloc: Global,
    output: StandardOutput,
    is_colored: bool,
    io_trace: IoTrace,
}

/// Why a file isn't read.
#[derive(Clone, Copy, PartialEq, Eq)]
pub enum FileFault {
    Missing,
    Denied,
    /// The path is a folder's.
    Folder,
    Unopened,
    /// A read failed, or the file has more than 64 MiB.
    Unreadable,
    NoMemory,
}

impl FileFault {
    /// Returns the fault in words.
    pub fn message(self) -> &'static str {
        match self {
            FileFault::Missing => "there is no such file",
            FileFault::Denied => "the file may not be read",
            FileFault::Folder => "this is a folder; name a file in it",
            FileFault::Unopened => "the file can't be opened",
            FileFault::Unreadable => "not readable, or longer than 64 MiB",
            FileFault::NoMemory => "out of memory",
        }
    }

    /// Returns the status with which the program ends on the fault.
    pub fn status(self) -> ExitStatus
        ensures complains { IsTrue (is_complaint result) }
        ensures only { result ≢ ExitStatus.Rejected }
    {
        match self {
            FileFault::NoMemory => ExitStatus::NoMemory,
            _ => ExitStatus::Unreadable,
        }
    }
}

/// Why a file has no value.
#[derive(Clone, Copy)]
pub enum Unread {
    File { fault: FileFault },
    /// Its text is neither JSON nor YAML.
    Text { fault: DocumentFault },
}

impl From<FileFault> for Unread {
    ghost use Rattle.std.specs.Prelude.{◌≡◌};
    ghost use Rattle.am_console.specs.declared.files.Unread.TheVariants.{File};

    ghost from_gives = { λ fault unread. unread ≡ File fault };

    fn from(fault: FileFault) -> Unread {
        Unread::File { fault }
    }
}

impl From<SourceFault> for Unread {
    ghost use Rattle.std.specs.Prelude.{◌≡◌};
    ghost use Rattle.am_console.specs.Source.{fault_of_source};

    ghost from_gives = { λ fault unread. unread ≡ fault_of_source fault };

    fn from(fault: SourceFault) -> Unread {
        match fault {
            SourceFault::Unreadable => Unread::from(FileFault::Unreadable),
            SourceFault::NoMemory => Unread::from(FileFault::NoMemory),
            SourceFault::NotRead { fault } => Unread::Text { fault },
        }
    }
}

/// Opens a file.
pub fn open<R: Files>(rt: &R, path: &str) -> Result<FileSource<R::File>, FileFault> {
    match fs::open(rt, path) {
        Ok(_) if is_folder(rt, path) => Err(FileFault::Folder),
        Ok(file) => Ok(FileSource {
            file,
            io_trace: IoTrace::none(),
        }),
        Err(fault) => Err(match fault.kind() {
            ErrorKind::NotFound => FileFault::Missing,
            ErrorKind::PermissionDenied => FileFault::Denied,
            ErrorKind::OutOfMemory => FileFault::NoMemory,
            _ => FileFault::Unopened,
        }),
    }
}

/// Returns whether a path is a folder's. One can be opened, and not read.
fn is_folder<R: Files>(rt: &R, path: &str) -> bool {
    match fs::metadata(rt, path) {
        Ok(metadata) => metadata.is_dir(),
        Err(_) => false,
    }
}

/// Reads a whole file with its value, or standard input where the path is `-`.
pub fn read<R: Files + AllocGlobal>(
    rt: &R,
    input: &mut StandardInput,
    path: &str,
) -> Result<SourceText, Unread>
    ensures read { IfOk result (λ source_text. IsReadAt path.now (⟦<StandardInput as Source>⟧.given input.old)
        (⟦<StandardInput as Source>⟧.given input.new) source_text.text.items (view source_text.value)) }
    ensures refused { IfErr result (RefusesFile path.now (⟦<StandardInput as Source>⟧.given input.old)
        (⟦<StandardInput as Source>⟧.given input.new)) }
{
    if path == STANDARD_INPUT {
        return Ok(read_source(rt.alloc(), input)?);
    }
    let mut file = open(rt, path)?;
    Ok(read_source(rt.alloc(), &mut file)?)
}

impl<F: Read + Drop> Source for FileSource<F> {
    ghost reads = { λ s. s.io_trace.reads };

    ghost failed = { λ s. s.io_trace.failed };

    ghost ended = { λ s. s.io_trace.ended };

    ghost given = { λ s. s.io_trace.moved };

    fn read(&mut self, buffer: &mut [u8]) -> Result<usize, DeviceFault> {
        match self.file.read(buffer) {
            Ok(0) if !buffer.is_empty() => {
                self.io_trace.add_end();
                Ok(0)
            }
            Ok(count) => {
                self.io_trace.add_success(&buffer[..count]);
                Ok(count)
            }
            Err(_) => {
                self.io_trace.add_failure();
                Err(DeviceFault)
            }
        }
    }
}

impl PaintedOutput {
    /// Returns the output that paints what it writes, or doesn't.
    pub fn new(alloc: Global, output: StandardOutput, is_colored: bool) -> PaintedOutput {
        PaintedOutput {
            alloc,
            output,
            is_colored,
            io_trace: IoTrace::none(),
        }
    }

    /// Writes all bytes in their colors, and returns how many they are; or as many as the output takes, without colors.
    fn pass(&mut self, bytes: &[u8]) -> Result<usize, DeviceFault>
        ensures count { IfOk result (λ count. count ≤ length bytes.now) }
        ensures trace { self.new.io_trace ≡ self.old.io_trace }
        ensures colors { self.new.is_colored ≡ self.old.is_colored }
        ensures reads { self.old.is_colored ≡ false → ⟦<StandardOutput as Sink>⟧.reads self.new.output
            ≡ ⟦<StandardOutput as Sink>⟧.reads self.old.output + 1 }
        ensures fails { self.old.is_colored ≡ false → ⟦<StandardOutput as Sink>⟧.failed self.new.output
            ≡ ⟦<StandardOutput as Sink>⟧.failed self.old.output + (if result_unwrap_or result 0 == 0 then 1 else 0) }
        ensures takes { self.old.is_colored ≡ false → ⟦<StandardOutput as Sink>⟧.taken self.new.output
            ≡ ⟦<StandardOutput as Sink>⟧.taken self.old.output ++ moved result bytes.now }
    {
        if !self.is_colored {
            return self.output.write(bytes);
        }
        let Ok(text) = std::str::from_utf8(bytes) else {
            return self.output.write(bytes);
        };
        let Ok(painted) = painted(self.alloc, text) else {
            return Err(DeviceFault);
        };
        match write_all(&mut self.output, painted.as_bytes()) {
            Ok(()) => Ok(bytes.len()),
            Err(_) => Err(DeviceFault),
        }
    }
}

/// It takes the bytes without their colors: where it paints, those that it was given to paint; else those that the standard output took.
impl Sink for PaintedOutput {
    ghost use Rattle.std.specs.Prelude.{if◌then◌else◌};

    ghost reads = { λ o. if o.is_colored then o.io_trace.reads else ⟦<StandardOutput as Sink>⟧.reads o.output };

    ghost failed = { λ o. if o.is_colored then o.io_trace.failed else ⟦<StandardOutput as Sink>⟧.failed o.output };

    ghost taken = { λ o. if o.is_colored then o.io_trace.moved else ⟦<StandardOutput as Sink>⟧.taken o.output };

    fn write(&mut self, bytes: &[u8]) -> Result<usize, DeviceFault> {
        match self.pass(bytes) {
            Ok(count) if count > 0 => {
                self.io_trace.add_success(&bytes[..count]);
                Ok(count)
            }
            _ => {
                self.io_trace.add_failure();
                Err(DeviceFault)
            }
        }
    }
}
