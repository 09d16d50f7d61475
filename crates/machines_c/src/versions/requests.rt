ghost use Rattle.std.specs.Prelude.{◌≡◌, ◌≢◌, ◌≤◌, None};
ghost use Rattle.lease_versions.specs.Asking.{all_forgotten, tags_forgotten, with_asked};
ghost use Rattle.lease_versions.specs.Layer as layer;
ghost use Rattle.machines_c.specs.versions.Layers.{Becomes, Stays, came_as};

use crate::handles::Outcome;
use crate::manager::leaving::tags_of;
use crate::versions::handle::VersionsHandle;
use lease_manager::{ClientNo, Tag};
use lease_state::{FileId, Memory};
use std::alloc::Global;

// What became of a call that may want memory.
fn outcome_of(came: Result<(), Memory>) -> Outcome
    ensures { result ≡ came_as came }
{
    match came {
        Ok(()) => Outcome::Done,
        Err(_) => Outcome::NoMemory,
    }
}

/// A client asks the manager under this tag that the open of this FileId be closed.
///
/// Returns 0; 1 where there is no memory, and nothing changed; 3 where the handle holds nothing.
#[unsafe(no_mangle)]
pub extern "C" fn smblease_versions_closing(
    alloc: Global,
    versions: &mut VersionsHandle,
    client: u64,
    tag: u64,
    file_id: u64,
) -> u32
    ensures asked { result ≡ 0 → Becomes (with_asked client tag (layer.Asked.Close file_id)) versions.old.held versions.new.held }
    ensures unchanged { result ≢ 0 → Stays versions.old.held versions.new.held }
    ensures some { versions.old.held ≢ None → result ≤ 1 }
    ensures none { versions.old.held ≡ None → (result ≡ 3) × (versions.new.held ≡ None) }
{
    match versions.take(alloc) {
        None => Outcome::Nothing.code(),
        Some(mut following) => {
            let came = following
                .versions
                .closing(ClientNo(client), Tag(tag), FileId(file_id));
            versions.put(alloc, following);
            outcome_of(came).code()
        }
    }
}

/// What the client asked is forgotten, as its connection is cut.
///
/// Returns 0; 3 where the handle holds nothing.
#[unsafe(no_mangle)]
pub extern "C" fn smblease_versions_forget(
    alloc: Global,
    versions: &mut VersionsHandle,
    client: u64,
) -> u32
    ensures forgotten { Becomes (all_forgotten client) versions.old.held versions.new.held }
    ensures some { versions.old.held ≢ None → result ≡ 0 }
    ensures none { versions.old.held ≡ None → (result ≡ 3) × (versions.new.held ≡ None) }
{
    match versions.take(alloc) {
        None => Outcome::Nothing.code(),
        Some(mut following) => {
            following.versions.forget(ClientNo(client));
            versions.put(alloc, following);
            Outcome::Done.code()
        }
    }
}

/// What the client asked under these tags is forgotten, as it leaves them.
///
/// Returns 0; 1 where there is no memory for the list, and nothing changed; 3 where the handle holds nothing.
#[unsafe(no_mangle)]
pub extern "C" fn smblease_versions_leave(
    alloc: Global,
    versions: &mut VersionsHandle,
    client: u64,
    tags: &[u64],
) -> u32
    ensures forgotten { result ≡ 0 → Becomes (tags_forgotten client tags.now) versions.old.held versions.new.held }
    ensures unchanged { result ≢ 0 → versions.new.held ≡ versions.old.held }
    ensures some { versions.old.held ≢ None → result ≤ 1 }
    ensures none { versions.old.held ≡ None → result ≢ 0 }
{
    match tags_of(alloc, tags) {
        Err(_) => Outcome::NoMemory.code(),
        Ok(tags) => match versions.take(alloc) {
            None => Outcome::Nothing.code(),
            Some(mut following) => {
                following.versions.leave(ClientNo(client), &tags);
                versions.put(alloc, following);
                Outcome::Done.code()
            }
        },
    }
}
