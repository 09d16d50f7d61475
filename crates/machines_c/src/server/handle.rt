ghost use Rattle.std.specs.Prelude.{◌≡◌, Option, Some, None};
ghost use Rattle.std.specs.Option.{option_map};
ghost use Rattle.machines_c.specs.declared.server.handle.Hosted.{Hosted};

use crate::handles::Loose;
use share_server::{Out, Server};
use std::alloc::Global;
use std::marker::Model;
use std::mem;
use std::ptr::null_mut;

/// A server, which is missing only while it is called, and what its last call gave out.
#[derive(Debug, Drop)]
pub struct Hosted {
    pub server: Option<Server>,
    pub outs: Vec<Out>,
}

/// A server and what its last call gave out, or nothing: `smblease_server`.
#[repr(C)]
pub struct ServerHandle {
    at: *mut u8,
    pub ghost held: { Option Hosted },
}

impl Model for ServerHandle {
    ghost use Rattle.machines_c.specs.handles.Owned.{handle_owns};
    ghost use Rattle.machines_c.specs.contracts.server.handle.Hosted.{the_row};

    ghost also_owns = { λ handle. handle_owns the_row handle.held handle.at };
}

// A handle may go to another thread.
unsafe impl Send for ServerHandle {}

impl ServerHandle {
    /// A handle that holds nothing.
    pub(crate) fn none() -> ServerHandle
        ensures { result.held ≡ None }
    {
        ServerHandle { at: null_mut() }
    }

    fn of(loose: Loose<Hosted, Global>) -> ServerHandle
        ensures { result.held ≡ Some loose.value }
    {
        let Loose { at, alloc: _ } = loose;
        ServerHandle { at: at as *mut u8 }
    }

    /// What is held, as its pointer.
    pub(crate) fn into_loose(self, alloc: Global) -> Option<Loose<Hosted, Global>>
        ensures { option_map (λ loose. loose.value) result ≡ self.held }
    {
        let ServerHandle { at } = self;
        if at.is_null() {
            None
        } else {
            Some(Loose {
                at: at as *mut Hosted,
                alloc,
            })
        }
    }

    /// What is held is taken out.
    pub(crate) fn take(&mut self, alloc: Global) -> Option<Box<Hosted>>
        ensures taken { option_map (λ hosted. hosted.value) result ≡ self.old.held }
        ensures none { self.new.held ≡ None }
    {
        match mem::replace(self, ServerHandle::none()).into_loose(alloc) {
            None => None,
            Some(loose) => Some(loose.into_box()),
        }
    }

    /// This is held from now on, and what was held is freed.
    pub(crate) fn put(&mut self, alloc: Global, hosted: Box<Hosted>)
        ensures { self.new.held ≡ Some hosted.value }
    {
        let old = mem::replace(self, ServerHandle::of(Loose::of(hosted)));
        match old.into_loose(alloc) {
            None => (),
            Some(loose) => drop(loose.into_box()),
        }
    }
}
