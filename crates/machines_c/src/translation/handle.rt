ghost use Rattle.std.specs.Prelude.{◌≡◌, Option, Some, None};
ghost use Rattle.std.specs.Coded.{coded_option};
ghost use Rattle.std.specs.Option.{option_map};
ghost use Rattle.machines_c.specs.contracts.translation.translating.Translating.{the_row};
ghost use Rattle.machines_c.specs.declared.translation.translating.Translating.{Translating};

use crate::handles::Loose;
use crate::translation::translating::Translating;
use std::alloc::Global;
use std::marker::Model;
use std::mem;
use std::ptr::null_mut;

/// What a client knows of leases of version 2, or nothing: `smblease_client_versions`.
#[repr(C)]
pub struct ClientVersionsHandle {
    at: *mut u8,
    pub ghost held: { Option Translating } by { coded_option the_row.coded },
}

impl Model for ClientVersionsHandle {
    ghost use Rattle.machines_c.specs.handles.Owned.{handle_owns};
    ghost use Rattle.machines_c.specs.contracts.translation.translating.Translating.{the_row};

    ghost also_owns = { λ handle. handle_owns the_row handle.held handle.at };
}

// A handle may go to another thread.
unsafe impl Send for ClientVersionsHandle {}

impl ClientVersionsHandle {
    /// A handle that holds nothing.
    pub(crate) fn none() -> ClientVersionsHandle
        ensures { result.held ≡ None }
    {
        ClientVersionsHandle { at: null_mut() }
    }

    fn of(loose: Loose<Translating, Global>) -> ClientVersionsHandle
        ensures { result.held ≡ Some loose.value }
    {
        let Loose { at, alloc: _ } = loose;
        ClientVersionsHandle { at: at as *mut u8 }
    }

    /// What is held, as its pointer.
    pub(crate) fn into_loose(self, alloc: Global) -> Option<Loose<Translating, Global>>
        ensures { option_map (λ loose. loose.value) result ≡ self.held }
    {
        let ClientVersionsHandle { at } = self;
        if at.is_null() {
            None
        } else {
            Some(Loose {
                at: at as *mut Translating,
                alloc,
            })
        }
    }

    /// What is held is taken out.
    pub(crate) fn take(&mut self, alloc: Global) -> Option<Box<Translating>>
        ensures taken { option_map (λ translating. translating.value) result ≡ self.old.held }
        ensures none { self.new.held ≡ None }
    {
        match mem::replace(self, ClientVersionsHandle::none()).into_loose(alloc) {
            None => None,
            Some(loose) => Some(loose.into_box()),
        }
    }

    /// This is held from now on, and what was held is freed.
    pub(crate) fn put(&mut self, alloc: Global, translating: Box<Translating>)
        ensures { self.new.held ≡ Some translating.value }
    {
        let old = mem::replace(self, ClientVersionsHandle::of(Loose::of(translating)));
        match old.into_loose(alloc) {
            None => (),
            Some(loose) => drop(loose.into_box()),
        }
    }
}
