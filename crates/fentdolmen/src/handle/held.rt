//! `Held`: the part of a handle that owns a service, or nothing. It is one pointer, whose type C need not know.
ghost use Rattle.std.specs.Prelude.{◌≡◌, ℕ, IfSome, IsSome, Some, None, Option};
ghost use Rattle.am_session.specs.declared.service.Service.{Service};
ghost use Rattle.fentdolmen.specs.Held.{held_owns, kept_coded};

mod parts;

use am_session::service::Service;
use parts::Parts;
use std::alloc::Global;
use std::marker::Model;
use std::ptr::null_mut;

#[repr(C)]
pub struct Held {
    at: *mut u8,
    pub ghost kept: { Option Service } by { kept_coded },
}

impl Model for Held {
    ghost also_owns = { λ h. held_owns h.at h.kept };
}

impl Held {
    pub fn nothing() -> Held
        ensures { result.kept ≡ None }
    {
        Held { at: null_mut() }
    }

    pub fn end(self)
        requires { self.kept ≡ None }
    {
        let Held { at: _ } = self;
    }

    pub fn of(service: Box<Service>) -> Held
        ensures { result.kept ≡ Some service.value }
    {
        Held::of_parts(Parts::of(service))
    }

    pub fn into_box(self, alloc: Global) -> Box<Service>
        requires { IsSome self.kept }
        ensures { IfSome self.kept (λ service. result.value ≡ service) }
    {
        self.into_parts(alloc).into_box()
    }

    fn of_parts(parts: Parts<Service, Global>) -> Held
        ensures { result.kept ≡ Some parts.value }
    {
        let Parts { ptr, alloc: _ } = parts;
        Held { at: ptr as *mut u8 }
    }

    fn into_parts(self, alloc: Global) -> Parts<Service, Global>
        requires { IsSome self.kept }
        ensures { IfSome self.kept (λ service. result.value ≡ service) }
    {
        let Held { at } = self;
        Parts {
            ptr: at as *mut Service,
            alloc,
        }
    }
}
