ghost use Rattle.std.specs.Prelude.{◌≡◌, ◌<◌, [], IfOk, OnOk, vec_len};
ghost use Rattle.std.specs.Borrow.{sem};
ghost use Rattle.lease_world.specs.judge.Clients.{HasSameCaches};
ghost use Rattle.lease_world.specs.judge.Lends.{LendsCache};
ghost use Rattle.lease_world.specs.judge.Seen.{cache_in};

use crate::judging::cache::CacheSeen;
use lease_state::{FileNo, Memory};
use std::alloc::Global;
use std::marker::Model;

/// What a judge keeps of a client's files, by their numbers.
#[derive(Debug, Drop)]
pub struct Caches {
    seen: Vec<CacheSeen>,
}

impl Model for Caches {
    ghost use Rattle.std.specs.Prelude.{List};
    ghost use Rattle.lease_world.specs.judge.Seen.{SeenCache};

    ghost Value = { List SeenCache };

    ghost view = { λ caches. caches.seen.items };
}

impl Caches {
    /// Of no file. Allocates nothing.
    pub fn new(alloc: Global) -> Caches
        ensures { result ≡ [] }
    {
        Caches {
            seen: Vec::new(alloc),
        }
    }

    /// What is kept of each file, in the order of their numbers.
    pub fn as_slice(&self) -> &[CacheSeen]
        ensures { result.now ≡ self.now }
    {
        self.seen.as_slice()
    }

    /// What is kept of the file, to be changed in its place.
    ///
    /// # Errors
    ///
    /// `Memory` where there is none left for it.
    pub fn get_mut(&mut self, file: FileNo) -> Result<&mut CacheSeen, Memory>
        ensures* lends { sem 𝓛 (LendsCache self.entry file.0 result) }
        ensures value { IfOk result (λ cache. cache.now ≡ cache_in self.old file.0) }
    {
        reach(&mut self.seen, file)?;
        Ok(&mut self.seen[usize::from(file.0)])
    }
}

// Makes a place for what is kept of the file.
fn reach(caches: &mut Vec<CacheSeen>, file: FileNo) -> Result<(), Memory>
    ensures there { OnOk result (file.0 < vec_len caches.new) }
    ensures same { HasSameCaches caches.old.items caches.new.items }
{
    let alloc = *caches.allocator();
    while caches.len() <= usize::from(file.0) {
        caches.push(CacheSeen::new(alloc))?;
    }
    Ok(())
}
