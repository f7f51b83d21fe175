//! A box, or nothing, behind a pointer that C holds.
ghost use Rattle.std.specs.Prelude.{◌≡◌, Option, Some, None, IsSome};
ghost use Rattle.afdx_handle.specs.declared.handle.Home.{Home};
ghost use Rattle.afdx_handle.specs.Sealed.{sealed_owns};
ghost use Rattle.afdx_handle.specs.contracts.handle.Home.{the_row as home_row};
ghost use Rattle.std.specs.Coded.{coded_option};
ghost use Rattle.std.specs.Box.Ownership.{box_owns};

use crate::handle::Home;
use parts::BoxParts;
use std::alloc::Global;
use std::marker::Model;

// A `Box` whose fields the parent module can name.
mod parts {
    use std::alloc::Allocator;
    use std::marker::Model;

    pub struct BoxParts<T, A: Allocator> {
        pub(super) ptr: *mut T,
        pub(super) alloc: A,
        pub ghost value: { T },
    }

    impl<T, A: Allocator> Model for BoxParts<T, A> {
        ghost also_owns = { λ p. box_owns (A.dealloc_token p.alloc) T.row p.ptr p.value };
    }

    impl<T, A: Allocator> BoxParts<T, A> {
        pub fn of(b: Box<T, A>) -> BoxParts<T, A>
        where
            T: Drop,
            ensures { result.value ≡ b.value }
        {
            let (ptr, alloc) = Box::into_raw_with_allocator(b);
            BoxParts { ptr, alloc }
        }
    }
}

/// A box whose type names no other type, or nothing. Dropping it frees nothing: its content is then C's.
#[repr(C)]
#[derive(Drop)]
pub struct Sealed {
    ptr: *mut u8,
    alloc: Global,
    pub ghost home: { Option Home } by { coded_option home_row.coded },
}

impl Model for Sealed {
    ghost also_owns = { λ s. sealed_owns s.alloc s.ptr s.home };
}

impl Sealed {
    ghost use Rattle.std.specs.Borrow.{sem};
    ghost use Rattle.afdx_handle.specs.Held.{LendsHome};

    fn of_parts(parts: BoxParts<Home, Global>) -> Sealed
        ensures { result.home ≡ Some parts.value }
    {
        let BoxParts { ptr, alloc } = parts;
        Sealed {
            ptr: ptr as *mut u8,
            alloc,
        }
    }

    /// Returns the seal of a box.
    pub fn of(home: Box<Home>) -> Sealed
        ensures { result.home ≡ Some home.value }
    {
        Sealed::of_parts(BoxParts::of(home))
    }

    /// Lends the content, which stays in place.
    pub fn get_mut(&mut self) -> &mut Home
        requires { IsSome self.old.home }
        ensures* writes_back { sem 𝓛 (LendsHome self.entry result) }
        ensures value { Some result.now ≡ self.old.home }
    {
        unsafe { &mut *(self.ptr as *mut Home) }
    }

    /// Takes the box out, and leaves the seal empty.
    pub fn take(&mut self) -> Box<Home>
        requires { IsSome self.old.home }
        ensures taken { Some result.value ≡ self.old.home }
        ensures left { self.new.home ≡ None }
    {
        unsafe { Box::from_raw(self.alloc, self.ptr as *mut Home) }
    }
}
