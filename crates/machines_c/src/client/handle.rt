ghost use Rattle.std.specs.Prelude.{◌≡◌, Option, Some, None};
ghost use Rattle.std.specs.Option.{option_map};
ghost use Rattle.machines_c.specs.declared.client.stepping.Stepping.{Stepping};

use crate::client::stepping::Stepping;
use crate::handles::Loose;
use std::alloc::Global;
use std::marker::Model;
use std::mem;
use std::ptr::null_mut;

/// A client machine and what its last call gave out, or nothing: `smblease_client`.
#[repr(C)]
pub struct ClientHandle {
    at: *mut u8,
    pub ghost held: { Option Stepping },
}

impl Model for ClientHandle {
    ghost use Rattle.machines_c.specs.handles.Owned.{handle_owns};
    ghost use Rattle.machines_c.specs.contracts.client.stepping.Stepping.{the_row};

    ghost also_owns = { λ handle. handle_owns the_row handle.held handle.at };
}

// A handle may go to another thread.
unsafe impl Send for ClientHandle {}

impl ClientHandle {
    /// A handle that holds nothing.
    pub(crate) fn none() -> ClientHandle
        ensures { result.held ≡ None }
    {
        ClientHandle { at: null_mut() }
    }

    fn of(loose: Loose<Stepping, Global>) -> ClientHandle
        ensures { result.held ≡ Some loose.value }
    {
        let Loose { at, alloc: _ } = loose;
        ClientHandle { at: at as *mut u8 }
    }

    /// What is held, as its pointer.
    pub(crate) fn into_loose(self, alloc: Global) -> Option<Loose<Stepping, Global>>
        ensures { option_map (λ loose. loose.value) result ≡ self.held }
    {
        let ClientHandle { at } = self;
        if at.is_null() {
            None
        } else {
            Some(Loose {
                at: at as *mut Stepping,
                alloc,
            })
        }
    }

    /// What is held is taken out.
    pub(crate) fn take(&mut self, alloc: Global) -> Option<Box<Stepping>>
        ensures taken { option_map (λ step. step.value) result ≡ self.old.held }
        ensures none { self.new.held ≡ None }
    {
        match mem::replace(self, ClientHandle::none()).into_loose(alloc) {
            None => None,
            Some(loose) => Some(loose.into_box()),
        }
    }

    /// This is held from now on, and what was held is freed.
    pub(crate) fn put(&mut self, alloc: Global, step: Box<Stepping>)
        ensures { self.new.held ≡ Some step.value }
    {
        let old = mem::replace(self, ClientHandle::of(Loose::of(step)));
        match old.into_loose(alloc) {
            None => (),
            Some(loose) => drop(loose.into_box()),
        }
    }
}
