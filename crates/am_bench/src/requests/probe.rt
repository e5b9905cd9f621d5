//! Where calls are named and answers reported.
use std::fmt::Debug;
use std::rt::Stdout;

/// Writes the name of a call before it and the answer after it, each at once and without memory. A
/// write that fails leaves the line out, which whoever compares the lines sees.
#[derive(Drop)]
pub struct Probe {
    out: Stdout,
}

impl Probe {
    pub fn new(out: Stdout) -> Probe {
        Probe { out }
    }

    /// Names the call that comes next.
    pub fn ask(&self, call: &str) {
        let _ = print!(&self.out; "{call}");
    }

    /// Prints the answer to the call that was named last.
    pub fn show<D: Debug>(&self, answer: &D) {
        let _ = println!(&self.out; " -> {answer:?}");
    }
}
