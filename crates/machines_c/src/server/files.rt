ghost use Rattle.std.specs.Prelude.{◌≡◌, Option, Some, None};
ghost use Rattle.std.specs.Option.{option_map};
ghost use Rattle.machines_c.specs.declared.server.files.Files.{Files};

use crate::handles::Loose;
use lease_state::Content;
use std::alloc::Global;
use std::marker::Model;
use std::mem;
use std::ptr::null_mut;

/// The contents of files, numbered from 1 in their order.
#[derive(Debug, Drop)]
pub struct Files {
    pub contents: Vec<Content>,
}

/// Files that a server is to begin with, or none: `smblease_files`.
#[repr(C)]
pub struct FilesHandle {
    at: *mut u8,
    pub ghost held: { Option Files },
}

impl Model for FilesHandle {
    ghost use Rattle.machines_c.specs.handles.Owned.{handle_owns};
    ghost use Rattle.machines_c.specs.contracts.server.files.Files.{the_row};

    ghost also_owns = { λ handle. handle_owns the_row handle.held handle.at };
}

// A handle may go to another thread.
unsafe impl Send for FilesHandle {}

impl FilesHandle {
    /// A handle that holds nothing.
    pub(crate) fn none() -> FilesHandle
        ensures { result.held ≡ None }
    {
        FilesHandle { at: null_mut() }
    }

    fn of(loose: Loose<Files, Global>) -> FilesHandle
        ensures { result.held ≡ Some loose.value }
    {
        let Loose { at, alloc: _ } = loose;
        FilesHandle { at: at as *mut u8 }
    }

    /// What is held, as its pointer.
    pub(crate) fn into_loose(self, alloc: Global) -> Option<Loose<Files, Global>>
        ensures { option_map (λ loose. loose.value) result ≡ self.held }
    {
        let FilesHandle { at } = self;
        if at.is_null() {
            None
        } else {
            Some(Loose {
                at: at as *mut Files,
                alloc,
            })
        }
    }

    /// What is held is taken out.
    pub(crate) fn take(&mut self, alloc: Global) -> Option<Box<Files>>
        ensures taken { option_map (λ files. files.value) result ≡ self.old.held }
        ensures none { self.new.held ≡ None }
    {
        match mem::replace(self, FilesHandle::none()).into_loose(alloc) {
            None => None,
            Some(loose) => Some(loose.into_box()),
        }
    }

    /// This is held from now on, and what was held is freed.
    pub(crate) fn put(&mut self, alloc: Global, files: Box<Files>)
        ensures { self.new.held ≡ Some files.value }
    {
        let old = mem::replace(self, FilesHandle::of(Loose::of(files)));
        match old.into_loose(alloc) {
            None => (),
            Some(loose) => drop(loose.into_box()),
        }
    }
}
