//! `Overheard`: a runtime that keeps the lines which are printed to standard error, for the report on a story that is rejected.
use std::alloc::{AllocError, Allocator, Global};
use std::cell::RefCell;
use std::fmt::Display;
use std::fs::{Metadata, OpenOptions, Permissions};
use std::io;
use std::path::PathBuf;
use std::rt::{Clock, Files};
use std::time::Duration;

/// A runtime, and the lines that were printed to its standard error.
#[derive(Drop)]
pub(crate) struct Overheard<'r, R> {
    rt: &'r R,
    lines: RefCell<String>,
}

impl<'r, R: AllocGlobal> Overheard<'r, R> {
    /// Returns a runtime of which nothing was heard.
    pub(crate) fn new(rt: &'r R) -> Overheard<'r, R> {
        Overheard {
            rt,
            lines: RefCell::new(String::new(rt.alloc())),
        }
    }

    /// Returns the lines that were printed.
    pub(crate) fn lines(&self) -> Result<String, AllocError> {
        match self.lines.try_borrow() {
            Ok(lines) => String::from_str(self.rt.alloc(), lines.as_str()),
            Err(_) => Ok(String::new(self.rt.alloc())),
        }
    }

    /// Keeps a line. Without memory it is left out.
    fn keep<D: Display>(&self, line: &D) {
        if let Ok(mut lines) = self.lines.try_borrow_mut() {
            let _ = writeln!(lines, "{line}");
        }
    }
}

impl<R: Eprint + AllocGlobal> Eprint for Overheard<'_, R> {
    fn eprint<D: Display + Drop>(&self, value: D) -> io::Result<()> {
        self.rt.eprint(value)
    }

    fn eprintln<D: Display + Drop>(&self, value: D) -> io::Result<()> {
        self.keep(&value);
        self.rt.eprintln(value)
    }
}

impl<R: AllocGlobal> Alloc for Overheard<'_, R> {
    type A = Global;

    fn alloc(&self) -> Global {
        self.rt.alloc()
    }
}

impl<R: Clock> Clock for Overheard<'_, R> {
    fn monotonic(&self) -> io::Result<Duration> {
        self.rt.monotonic()
    }

    fn since_1970(&self) -> io::Result<Duration> {
        self.rt.since_1970()
    }

    fn sleep(&self, duration: Duration) {
        self.rt.sleep(duration)
    }
}

impl<R: Files> Files for Overheard<'_, R> {
    type File = R::File;

    type Dir = R::Dir;

    fn open_file(&self, how: &OpenOptions, path: &str) -> io::Result<R::File> {
        self.rt.open_file(how, path)
    }

    fn open_dir(&self, path: &str) -> io::Result<R::Dir> {
        self.rt.open_dir(path)
    }

    fn metadata(&self, path: &str) -> io::Result<Metadata> {
        self.rt.metadata(path)
    }

    fn symlink_metadata(&self, path: &str) -> io::Result<Metadata> {
        self.rt.symlink_metadata(path)
    }

    fn copy(&self, from: &str, to: &str) -> io::Result<u64> {
        self.rt.copy(from, to)
    }

    fn rename(&self, from: &str, to: &str) -> io::Result<()> {
        self.rt.rename(from, to)
    }

    fn remove_file(&self, path: &str) -> io::Result<()> {
        self.rt.remove_file(path)
    }

    fn create_dir(&self, path: &str) -> io::Result<()> {
        self.rt.create_dir(path)
    }

    fn remove_dir(&self, path: &str) -> io::Result<()> {
        self.rt.remove_dir(path)
    }

    fn remove_dir_all<B: Allocator>(&self, alloc: B, path: &str) -> io::Result<()> {
        self.rt.remove_dir_all(alloc, path)
    }

    fn canonicalize<B: Allocator>(&self, alloc: B, path: &str) -> io::Result<PathBuf<B>> {
        self.rt.canonicalize(alloc, path)
    }

    fn read_link<B: Allocator>(&self, alloc: B, path: &str) -> io::Result<PathBuf<B>> {
        self.rt.read_link(alloc, path)
    }

    fn hard_link(&self, original: &str, link: &str) -> io::Result<()> {
        self.rt.hard_link(original, link)
    }

    fn set_permissions(&self, path: &str, perm: Permissions) -> io::Result<()> {
        self.rt.set_permissions(path, perm)
    }
}
