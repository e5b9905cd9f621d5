//! `Fentdolmen`: what C holds.
ghost use Rattle.std.specs.Prelude.{◌≡◌, ◌==◌, IsTrue, None, Some, is_some, option_map};

mod held;

use am_session::service::Service;
use held::Held;
use std::alloc::Global;
use std::mem::replace;

/// A handle: all zero while it is closed. C never writes it after that, and makes no second one of it.
#[repr(C)]
pub struct Fentdolmen {
    is_open: u64,
    pub(crate) held: Held,
    ghost tied: { is_some held.kept ≡ (is_open == 1) },
}

impl Fentdolmen {
    /// Whether it is open.
    pub fn is_open(&self) -> bool
        ensures { result ≡ is_some self.now.held.kept }
    {
        self.is_open == 1
    }

    /// Opens it with this service.
    pub fn put(&mut self, service: Box<Service>)
        requires { self.old.held.kept ≡ None }
        ensures { self.new.held.kept ≡ Some service.value }
    {
        let open = Fentdolmen {
            is_open: 1,
            held: Held::of(service),
        };
        let Fentdolmen { is_open: _, held } = replace(self, open);
        held.end();
    }

    /// Closes it, and returns its service, if it was open.
    pub fn take(&mut self, alloc: Global) -> Option<Box<Service>>
        ensures taken { option_map (λ service. service.value) result ≡ self.old.held.kept }
        ensures closed { self.new.held.kept ≡ None }
    {
        if !self.is_open() {
            return None;
        }
        let closed = Fentdolmen {
            is_open: 0,
            held: Held::nothing(),
        };
        let Fentdolmen { is_open: _, held } = replace(self, closed);
        Some(held.into_box(alloc))
    }
}
