//! `Source` and `Sink`: where an input comes from and where an output goes. Programs have those of
//! standard input and output; tests have fake ones.
//!
//! Contracts see the bytes that went through our own calls, in an `IoTrace`. Nothing says that the
//! system shows the bytes on a screen.
ghost use Rattle.std.specs.Prelude.{◌≡◌, ◌≤◌, ◌+◌, ◌++◌, ◌==◌, List, ℕ, length, IfOk, is_ok, if◌then◌else◌};
ghost use Rattle.std.specs.Result.{result_unwrap_or};
ghost use Rattle.am_json.specs.Bytes.{moved, is_end};

use crate::io_trace::IoTrace;
use std::io::{Read, Stdin, Stdout, Write};

/// A read or a write failed.
#[derive(Clone, Copy, Debug, PartialEq, Eq)]
pub struct DeviceFault;

/// Where bytes are read from.
///
/// Contracts see how often it was asked, how often it failed, how often it reported its end, and the
/// list of the bytes that it gave.
pub trait Source {
    ghost reads: { Self → ℕ };

    ghost failed: { Self → ℕ };

    ghost ended: { Self → ℕ };

    ghost given: { Self → List ℕ };

    /// Reads into the front of the buffer, and answers how many bytes. None is the end of the
    /// input, where the buffer isn't empty.
    fn read(&mut self, buffer: &mut [u8]) -> Result<usize, DeviceFault>
        ensures within { IfOk result (λ count. count ≤ length buffer.new) }
        ensures counts_read { reads self.new ≡ reads self.old + 1 }
        ensures fails { failed self.new ≡ failed self.old + (if is_ok result then 0 else 1) }
        ensures ends { ended self.new ≡ ended self.old + (if is_end result buffer.new then 1 else 0) }
        ensures gives { given self.new ≡ given self.old ++ moved result buffer.new };
}

/// Where bytes are written to.
///
/// Contracts see how often it was asked, how often it failed and the list of the bytes that it took.
pub trait Sink {
    ghost reads: { Self → ℕ };

    ghost failed: { Self → ℕ };

    ghost taken: { Self → List ℕ };

    /// Writes from the front of the bytes, and answers how many it took. To take none is to fail.
    fn write(&mut self, bytes: &[u8]) -> Result<usize, DeviceFault>
        ensures within { IfOk result (λ count. count ≤ length bytes.now) }
        ensures counts_read { reads self.new ≡ reads self.old + 1 }
        ensures fails { failed self.new ≡ failed self.old
            + (if result_unwrap_or result 0 == 0 then 1 else 0) }
        ensures takes { taken self.new ≡ taken self.old ++ moved result bytes.now };
}

/// The standard input.
#[derive(Drop)]
pub struct StandardInput {
    stdin: Stdin,
    io_trace: IoTrace,
}

/// The standard output.
#[derive(Drop)]
pub struct StandardOutput {
    stdout: Stdout,
    io_trace: IoTrace,
}

impl StandardInput {
    pub fn new(stdin: Stdin) -> StandardInput {
        StandardInput {
            stdin,
            io_trace: IoTrace::none(),
        }
    }
}

impl StandardOutput {
    pub fn new(stdout: Stdout) -> StandardOutput {
        StandardOutput {
            stdout,
            io_trace: IoTrace::none(),
        }
    }
}

impl Source for StandardInput {
    ghost reads = { λ i. i.io_trace.reads };

    ghost failed = { λ i. i.io_trace.failed };

    ghost ended = { λ i. i.io_trace.ended };

    ghost given = { λ i. i.io_trace.moved };

    fn read(&mut self, buffer: &mut [u8]) -> Result<usize, DeviceFault> {
        match self.stdin.read(buffer) {
            Ok(0) if !buffer.is_empty() => {
                self.io_trace.add_end();
                Ok(0)
            }
            Ok(count) => {
                self.io_trace.add_success(&buffer[..count]);
                Ok(count)
            }
            Err(_) => {
                self.io_trace.add_failure();
                Err(DeviceFault)
            }
        }
    }
}

impl Sink for StandardOutput {
    ghost reads = { λ o. o.io_trace.reads };

    ghost failed = { λ o. o.io_trace.failed };

    ghost taken = { λ o. o.io_trace.moved };

    fn write(&mut self, bytes: &[u8]) -> Result<usize, DeviceFault> {
        match self.stdout.write(bytes) {
            Ok(count) if count > 0 => {
                self.io_trace.add_success(&bytes[..count]);
                Ok(count)
            }
            _ => {
                self.io_trace.add_failure();
                Err(DeviceFault)
            }
        }
    }
}
