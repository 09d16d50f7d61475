ghost use Rattle.std.specs.Prelude.{◌≡◌, Option, Some, None};
ghost use Rattle.std.specs.Coded.{coded_option};
ghost use Rattle.std.specs.Option.{option_map};
ghost use Rattle.machines_c.specs.contracts.versions.following.Following.{the_row};
ghost use Rattle.machines_c.specs.declared.versions.following.Following.{Following};

use crate::handles::Loose;
use crate::versions::following::Following;
use std::alloc::Global;
use std::marker::Model;
use std::mem;
use std::ptr::null_mut;

/// What is known of leases of version 2, or nothing: `smblease_versions`.
#[repr(C)]
pub struct VersionsHandle {
    at: *mut u8,
    pub ghost held: { Option Following } by { coded_option the_row.coded },
}

impl Model for VersionsHandle {
    ghost use Rattle.machines_c.specs.handles.Owned.{handle_owns};
    ghost use Rattle.machines_c.specs.contracts.versions.following.Following.{the_row};

    ghost also_owns = { λ handle. handle_owns the_row handle.held handle.at };
}

// A handle may go to another thread.
unsafe impl Send for VersionsHandle {}

impl VersionsHandle {
    /// A handle that holds nothing.
    pub(crate) fn none() -> VersionsHandle
        ensures { result.held ≡ None }
    {
        VersionsHandle { at: null_mut() }
    }

    fn of(loose: Loose<Following, Global>) -> VersionsHandle
        ensures { result.held ≡ Some loose.value }
    {
        let Loose { at, alloc: _ } = loose;
        VersionsHandle { at: at as *mut u8 }
    }

    /// What is held, as its pointer.
    pub(crate) fn into_loose(self, alloc: Global) -> Option<Loose<Following, Global>>
        ensures { option_map (λ loose. loose.value) result ≡ self.held }
    {
        let VersionsHandle { at } = self;
        if at.is_null() {
            None
        } else {
            Some(Loose {
                at: at as *mut Following,
                alloc,
            })
        }
    }

    /// What is held is taken out.
    pub(crate) fn take(&mut self, alloc: Global) -> Option<Box<Following>>
        ensures taken { option_map (λ following. following.value) result ≡ self.old.held }
        ensures none { self.new.held ≡ None }
    {
        match mem::replace(self, VersionsHandle::none()).into_loose(alloc) {
            None => None,
            Some(loose) => Some(loose.into_box()),
        }
    }

    /// This is held from now on, and what was held is freed.
    pub(crate) fn put(&mut self, alloc: Global, following: Box<Following>)
        ensures { self.new.held ≡ Some following.value }
    {
        let old = mem::replace(self, VersionsHandle::of(Loose::of(following)));
        match old.into_loose(alloc) {
            None => (),
            Some(loose) => drop(loose.into_box()),
        }
    }
}
