ghost use Rattle.std.specs.Prelude.{◌≡◌, Option, Some, None};
ghost use Rattle.std.specs.Option.{option_map};
ghost use Rattle.machines_c.specs.declared.manager.managing.Managing.{Managing};

use crate::handles::Loose;
use crate::manager::managing::Managing;
use std::alloc::Global;
use std::marker::Model;
use std::mem;
use std::ptr::null_mut;

/// A manager with what it gave last, or nothing: `smblease_manager`.
#[repr(C)]
pub struct ManagerHandle {
    at: *mut u8,
    pub ghost held: { Option Managing },
}

impl Model for ManagerHandle {
    ghost use Rattle.machines_c.specs.handles.Owned.{handle_owns};
    ghost use Rattle.machines_c.specs.contracts.manager.managing.Managing.{the_row};

    ghost also_owns = { λ handle. handle_owns the_row handle.held handle.at };
}

// A handle may go to another thread.
unsafe impl Send for ManagerHandle {}

impl ManagerHandle {
    /// A handle that holds nothing.
    pub(crate) fn none() -> ManagerHandle
        ensures { result.held ≡ None }
    {
        ManagerHandle { at: null_mut() }
    }

    fn of(loose: Loose<Managing, Global>) -> ManagerHandle
        ensures { result.held ≡ Some loose.value }
    {
        let Loose { at, alloc: _ } = loose;
        ManagerHandle { at: at as *mut u8 }
    }

    /// What is held, as its pointer.
    pub(crate) fn into_loose(self, alloc: Global) -> Option<Loose<Managing, Global>>
        ensures { option_map (λ loose. loose.value) result ≡ self.held }
    {
        let ManagerHandle { at } = self;
        if at.is_null() {
            None
        } else {
            Some(Loose {
                at: at as *mut Managing,
                alloc,
            })
        }
    }

    /// What is held is taken out.
    pub(crate) fn take(&mut self, alloc: Global) -> Option<Box<Managing>>
        ensures taken { option_map (λ managing. managing.value) result ≡ self.old.held }
        ensures none { self.new.held ≡ None }
    {
        match mem::replace(self, ManagerHandle::none()).into_loose(alloc) {
            None => None,
            Some(loose) => Some(loose.into_box()),
        }
    }

    /// This is held from now on, and what was held is freed.
    pub(crate) fn put(&mut self, alloc: Global, managing: Box<Managing>)
        ensures { self.new.held ≡ Some managing.value }
    {
        let old = mem::replace(self, ManagerHandle::of(Loose::of(managing)));
        match old.into_loose(alloc) {
            None => (),
            Some(loose) => drop(loose.into_box()),
        }
    }
}
