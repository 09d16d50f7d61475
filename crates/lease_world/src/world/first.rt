ghost use Rattle.std.specs.Prelude.{◌≡◌, ◌≤◌, map, length, IfOk};
ghost use Rattle.lease_model.specs.world.World.{starts_from};
ghost use Rattle.lease_facts.specs.Facts.{fact_of};
ghost use Rattle.lease_world.specs.world.First.{AreNew};

use crate::world::seat::Seat;
use lease_client::Client;
use lease_facts::Fact;
use lease_state::{Bytes, Content, FileNo, Memory};
use std::alloc::Global;

/// Equal contents in memory of their own.
///
/// # Errors
///
/// `Memory` where there is none left.
pub fn copy_contents(alloc: Global, files: &[Content]) -> Result<Vec<Content>, Memory>
    ensures { IfOk result (λ copies. copies.items ≡ files.now) }
{
    let mut copies = Vec::new(alloc);
    for place in 0..files.len() {
        copies.push(files[place].try_copy()?)?;
    }
    Ok(copies)
}

/// The facts that the files are there.
///
/// # Errors
///
/// `Memory` where there is none left.
pub fn starts(alloc: Global, files: &[Content]) -> Result<Vec<Fact>, Memory>
    requires { length files.now ≤ 255 }
    ensures { IfOk result (λ facts. map fact_of facts.items ≡ starts_from 1 files.now) }
{
    let mut facts = Vec::new(alloc);
    for place in 0..files.len() {
        let bytes = Bytes::new(Vec::from_slice(alloc, files[place].bytes())?);
        facts.push(Fact::Start(FileNo(place as u8 + 1), bytes))?;
    }
    Ok(facts)
}

/// Clients that were never connected, each of this many files.
///
/// # Errors
///
/// `Memory` where there is none left.
pub fn seats(alloc: Global, guids: &[[u8; 16]], files: u8) -> Result<Vec<Seat>, Memory>
    ensures { IfOk result (λ seats. AreNew files guids.now seats.items) }
{
    let mut seats = Vec::new(alloc);
    for place in 0..guids.len() {
        let guid = guids[place];
        let client = Client::new(alloc, guid, files)?;
        seats.push(Seat::new(alloc, guid, client))?;
    }
    Ok(seats)
}
