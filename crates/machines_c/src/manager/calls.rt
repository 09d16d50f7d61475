ghost use Rattle.std.specs.Prelude.{◌≡◌, None, Some, MatchResult};
ghost use Rattle.lease_model.specs.server.Naming.{key_of};
ghost use Rattle.machines_c.specs.handles.Outcomes.{IsCall, code_of};
ghost use Rattle.machines_c.specs.declared.handles.outcome.Outcome.TheVariants as outcomes;
ghost use Rattle.manager_model.specs.Handling as rules;
ghost use Rattle.machines_c.specs.manager.About.{at_open, if_left, nowhere};
ghost use Rattle.machines_c.specs.manager.Asked.{is_present, is_absent, is_settled, is_gone};
ghost use Rattle.machines_c.specs.manager.Coming.{Came, MayBeLostBy};
ghost use Rattle.machines_c.specs.manager.Calls.{Cut, Expired, Handled, MayBeLostUnless, MayBeLostUnlessAnswered};
ghost use Rattle.machines_c.specs.manager.Calls.{MayBeLostUnlessOver, RunOut, Withdrawn};

use crate::handles::Outcome;
use crate::manager::coming::Coming;
use crate::manager::handle::ManagerHandle;
use crate::manager::managing::Managing;
use crate::values::KeyBytes;
use break_timers::BreakNo;
use lease_manager::{ClientNo, FileNo, Tag};
use lease_state::{FileId, LeaseKey, Memory};
use std::alloc::Global;

impl ManagerHandle {
    // What a call came to is held from now on; where it ran out of memory nothing is.
    pub(crate) fn keep(
        &mut self,
        alloc: Global,
        managing: Box<Managing>,
        came: Result<(), Memory>,
    ) -> Outcome
        requires { self.old.held ≡ None }
        ensures { MatchResult came (λ _. (self.new.held ≡ Some managing.value) × (result ≡ outcomes.Done))
            (λ _. (self.new.held ≡ None) × (result ≡ outcomes.Lost)) }
    {
        match came {
            Ok(()) => {
                self.put(alloc, managing);
                Outcome::Done
            }
            Err(_) => Outcome::Lost,
        }
    }

    /// Something comes to the manager that is held.
    pub(crate) fn call(&mut self, alloc: Global, coming: Coming) -> Outcome
        ensures { IsCall (Came coming) (MayBeLostBy coming) (code_of result) self.old.held self.new.held }
    {
        match self.take(alloc) {
            None => Outcome::Nothing,
            Some(mut managing) => {
                let came = managing.call(alloc, coming);
                self.keep(alloc, managing, came)
            }
        }
    }
}

/// A client connects (MS-SMB2 3.3.5.1). Where it is connected nothing changes.
///
/// Returns 0; 2 where memory ran out, and the manager is lost, which is never where nothing
/// changes; 3 where there is none.
#[unsafe(no_mangle)]
pub extern "C" fn smblease_manager_join(
    alloc: Global,
    manager: &mut ManagerHandle,
    client: u64,
) -> u32
    ensures { IsCall (Handled nowhere (λ one. rules.join one client)) (MayBeLostUnless (is_present client))
        result manager.old.held manager.new.held }
{
    manager.call(alloc, Coming::Joins(ClientNo(client))).code()
}

/// A client's connection is lost (3.3.7.1). Where it isn't connected nothing changes. The outcomes
/// are those of `smblease_manager_join`.
#[unsafe(no_mangle)]
pub extern "C" fn smblease_manager_cut(
    alloc: Global,
    manager: &mut ManagerHandle,
    client: u64,
) -> u32
    ensures { IsCall (Cut client) (MayBeLostUnless (is_absent client))
        result manager.old.held manager.new.held }
{
    manager.call(alloc, Coming::IsCut(ClientNo(client))).code()
}

/// The timer of the break of a client's lease runs out (3.3.6.5). Where no break of it waits for its
/// acknowledgment nothing changes. The outcomes are those of `smblease_manager_join`.
#[unsafe(no_mangle)]
pub extern "C" fn smblease_manager_expire(
    alloc: Global,
    manager: &mut ManagerHandle,
    client: u64,
    key: &KeyBytes,
) -> u32
    ensures { IsCall (Expired (key_of client key.now.bytes))
        (MayBeLostUnless (is_settled client key.now.bytes)) result manager.old.held manager.new.held }
{
    manager
        .call(
            alloc,
            Coming::Expires(ClientNo(client), LeaseKey(key.bytes)),
        )
        .code()
}

/// The timer of this number, of a break, runs out (3.3.6.5). Where it doesn't run, or no break of
/// its lease waits for its acknowledgment, nothing changes but that it doesn't run any longer. The
/// outcomes are those of `smblease_manager_join`.
#[unsafe(no_mangle)]
pub extern "C" fn smblease_manager_run_out(
    alloc: Global,
    manager: &mut ManagerHandle,
    number: u64,
) -> u32
    ensures { IsCall (RunOut number) (MayBeLostUnlessOver number) result manager.old.held manager.new.held }
{
    manager.call(alloc, Coming::RunsOut(BreakNo(number))).code()
}

/// The timer of a durable open runs out (3.3.6.2). Where no such open waits for its client nothing
/// changes. The outcomes are those of `smblease_manager_join`.
#[unsafe(no_mangle)]
pub extern "C" fn smblease_manager_scavenge(
    alloc: Global,
    manager: &mut ManagerHandle,
    file_id: u64,
) -> u32
    ensures { IsCall (Handled (if_left file_id (at_open file_id)) (λ one. rules.scavenge one file_id))
        (MayBeLostUnless (is_gone file_id)) result manager.old.held manager.new.held }
{
    manager
        .call(alloc, Coming::Scavenges(FileId(file_id)))
        .code()
}

/// A request or a change of a client that waits on the file under the tag is taken back (3.3.5.16). Where
/// none waits nothing changes. The outcomes are those of `smblease_manager_join`.
#[unsafe(no_mangle)]
pub extern "C" fn smblease_manager_withdraw(
    alloc: Global,
    manager: &mut ManagerHandle,
    client: u64,
    tag: u64,
    file: u64,
) -> u32
    ensures { IsCall (Withdrawn file client tag) (MayBeLostUnlessAnswered client tag file)
        result manager.old.held manager.new.held }
{
    manager
        .call(
            alloc,
            Coming::Withdraws(FileNo(file), ClientNo(client), Tag(tag)),
        )
        .code()
}
