ghost use Rattle.std.specs.Prelude.{◌≡◌, ◌≢◌, IfOk};
ghost use Rattle.lease_manager.specs.LeftOpens.{numbers};
ghost use Rattle.lease_manager.specs.Parting.{tag_numbers};
ghost use Rattle.machines_c.specs.handles.Outcomes.{IsCall, code_of};
ghost use Rattle.machines_c.specs.manager.Asked.{is_absent};
ghost use Rattle.machines_c.specs.manager.Calls.{Left, MayBeLostUnless};

use crate::handles::Outcome;
use crate::manager::handle::ManagerHandle;
use lease_manager::{ClientNo, Tag};
use lease_state::{FileId, Memory};
use std::alloc::Global;

impl ManagerHandle {
    // A client leaves these of its opens, and what it asked under these tags.
    fn leave(
        &mut self,
        alloc: Global,
        client: ClientNo,
        file_ids: &[FileId],
        tags: &[Tag],
    ) -> Outcome
        ensures { IsCall (Left client.0 (numbers file_ids.now) (tag_numbers tags.now))
            (MayBeLostUnless (is_absent client.0)) (code_of result) self.old.held self.new.held }
    {
        match self.take(alloc) {
            None => Outcome::Nothing,
            Some(mut managing) => {
                let came = managing.leave(alloc, client, file_ids, tags);
                self.keep(alloc, managing, came)
            }
        }
    }
}

/// A client leaves these of its opens, and what it asked under these tags: the connection or the session that made them goes, and
/// the client stays, by another one (own; MS-SMB2 3.3.5.6, 3.3.7.1). Where it isn't connected nothing changes.
///
/// Returns 0; 1 where there is no memory for the lists: then nothing changed; 2 where memory ran out, and the manager is lost,
/// which is never where the client isn't connected; 3 where there is none.
#[unsafe(no_mangle)]
pub extern "C" fn smblease_manager_leave(
    alloc: Global,
    manager: &mut ManagerHandle,
    client: u64,
    file_ids: &[u64],
    tags: &[u64],
) -> u32
    ensures call { result ≢ 1 → IsCall (Left client file_ids.now tags.now)
        (MayBeLostUnless (is_absent client)) result manager.old.held manager.new.held }
    ensures no_memory { result ≡ 1 → manager.new.held ≡ manager.old.held }
{
    match (file_ids_of(alloc, file_ids), tags_of(alloc, tags)) {
        (Ok(file_ids), Ok(tags)) => manager
            .leave(alloc, ClientNo(client), &file_ids, &tags)
            .code(),
        _ => Outcome::NoMemory.code(),
    }
}

fn file_ids_of(alloc: Global, given: &[u64]) -> Result<Vec<FileId>, Memory>
    ensures { IfOk result (λ ids. numbers ids.items ≡ given.now) }
{
    let mut ids = Vec::new(alloc);
    for number in given {
        ids.push(FileId(*number))?;
    }
    Ok(ids)
}

pub(crate) fn tags_of(alloc: Global, given: &[u64]) -> Result<Vec<Tag>, Memory>
    ensures { IfOk result (λ tags. tag_numbers tags.items ≡ given.now) }
{
    let mut tags = Vec::new(alloc);
    for number in given {
        tags.push(Tag(*number))?;
    }
    Ok(tags)
}
