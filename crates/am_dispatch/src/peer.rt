//! `Peer`: whoever writes lines to a program and waits for their answers.
//!
//! Contracts see what went through our own calls. Nothing says that the system hands the bytes on.
ghost use Rattle.std.specs.Prelude.{◌≤◌, ◌<◌, List, IfOk, length};
ghost use Rattle.am_dispatch.specs.declared.event.Event.{Event};
ghost use Rattle.am_dispatch.specs.Trail.{Happens, IsReadAs, IsWrittenAs};

use crate::event::Event;
use am_ghost::GhostList;
use am_json::device::DeviceFault;
use std::io::{Read, Stdin, Stdout, Write};

/// Where bytes are read from, and where the answers to them are written to.
///
/// Contracts see each read and each write, in their order.
pub trait Peer {
    ghost trail: { Self → List Event };

    /// Reads into the front of the buffer, and returns how many bytes. None is the end of the input.
    fn read(&mut self, buffer: &mut [u8]) -> Result<usize, DeviceFault>
        requires { 0 < length buffer.old }
        ensures within { IfOk result (λ count. count ≤ length buffer.new) }
        ensures happens { Happens (trail self.old) (trail self.new) (IsReadAs result buffer.new) };

    /// Writes from the front of the bytes, and returns how many it took. To take none is to fail.
    fn write(&mut self, bytes: &[u8]) -> Result<usize, DeviceFault>
        ensures within { IfOk result (λ count. count ≤ length bytes.now) }
        ensures happens { Happens (trail self.old) (trail self.new) (IsWrittenAs result bytes.now) };
}

/// Whoever is at the other ends of standard input and standard output.
#[derive(Drop)]
pub struct StandardPeer {
    stdin: Stdin,
    stdout: Stdout,
    trail: GhostList<Event>,
}

impl StandardPeer {
    /// Returns a peer that nothing was asked of.
    pub fn new(stdin: Stdin, stdout: Stdout) -> StandardPeer {
        StandardPeer {
            stdin,
            stdout,
            trail: GhostList::new(),
        }
    }
}

impl Peer for StandardPeer {
    ghost trail = { λ p. p.trail.items };

    fn read(&mut self, buffer: &mut [u8]) -> Result<usize, DeviceFault> {
        match self.stdin.read(buffer) {
            Ok(0) => {
                self.trail.add(&Event::Ended);
                Ok(0)
            }
            Ok(count) => {
                let mut bytes = GhostList::new();
                bytes.add_all(&buffer[..count]);
                self.trail.add(&Event::Given(bytes));
                Ok(count)
            }
            Err(_) => {
                self.trail.add(&Event::Unread);
                Err(DeviceFault)
            }
        }
    }

    fn write(&mut self, bytes: &[u8]) -> Result<usize, DeviceFault> {
        match self.stdout.write(bytes) {
            Ok(count) if count > 0 => {
                let mut front = GhostList::new();
                front.add_all(&bytes[..count]);
                self.trail.add(&Event::Taken(front));
                Ok(count)
            }
            _ => {
                self.trail.add(&Event::Unwritten);
                Err(DeviceFault)
            }
        }
    }
}
