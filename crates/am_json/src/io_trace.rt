//! `IoTrace`: what a device did, in proofs alone. Devices keep one.
ghost use Rattle.std.specs.Prelude.{◌≡◌, ◌+◌, ◌++◌, []};

use am_ghost::GhostList;
use std::marker::Model;

/// How often a device was asked, how often it failed, how often it reported its end, and the bytes that
/// it moved, in their order. They exist in proofs alone: a trace takes no memory.
#[derive(Drop)]
pub struct IoTrace {
    reads: GhostList<()>,
    failed: GhostList<()>,
    ended: GhostList<()>,
    moved: GhostList<u8>,
}

impl Model for IoTrace {
    ghost use Rattle.std.specs.Prelude.{length};
    ghost use Rattle.am_json.specs.Bytes.{IoTraceData};

    ghost Value = { IoTraceData };

    ghost view = { λ u. record {
      reads = length u.reads.items;
      failed = length u.failed.items;
      ended = length u.ended.items;
      moved = u.moved.items;
    } };
}

impl IoTrace {
    /// The trace of a device that wasn't asked yet.
    pub fn none() -> IoTrace
        ensures reads { result.reads ≡ 0 }
        ensures failed { result.failed ≡ 0 }
        ensures ended { result.ended ≡ 0 }
        ensures moved { result.moved ≡ [] }
    {
        IoTrace {
            reads: GhostList::new(),
            failed: GhostList::new(),
            ended: GhostList::new(),
            moved: GhostList::new(),
        }
    }

    /// The device was asked, and moved these bytes.
    pub fn add_success(&mut self, bytes: &[u8])
        ensures reads { self.new.reads ≡ self.old.reads + 1 }
        ensures failed { self.new.failed ≡ self.old.failed }
        ensures ended { self.new.ended ≡ self.old.ended }
        ensures moved { self.new.moved ≡ self.old.moved ++ bytes.now }
    {
        self.reads.add(&());
        self.moved.add_all(bytes);
    }

    /// The device was called, and reported the end.
    pub fn add_end(&mut self)
        ensures reads { self.new.reads ≡ self.old.reads + 1 }
        ensures failed { self.new.failed ≡ self.old.failed }
        ensures ended { self.new.ended ≡ self.old.ended + 1 }
        ensures moved { self.new.moved ≡ self.old.moved }
    {
        self.reads.add(&());
        self.ended.add(&());
    }

    /// The device was asked, and failed.
    pub fn add_failure(&mut self)
        ensures reads { self.new.reads ≡ self.old.reads + 1 }
        ensures failed { self.new.failed ≡ self.old.failed + 1 }
        ensures ended { self.new.ended ≡ self.old.ended }
        ensures moved { self.new.moved ≡ self.old.moved }
    {
        self.reads.add(&());
        self.failed.add(&());
    }
}
