ghost use Rattle.std.specs.Prelude.{◌≡◌, ◌≤◌, ◌∷◌, ℕ, [], length, IfOk, OnOk};
ghost use Rattle.lease_manager.specs.Outs.{decision_of, decisions};
ghost use Rattle.lease_model.specs.server.State.{with_number};
ghost use Rattle.lease_model.specs.values.Tables.{numbered};
ghost use Rattle.lease_manager.specs.Table.{server_of};
ghost use Rattle.manager_model.specs.Answering.{answers};
ghost use Rattle.share_server.specs.Requests.{file_request_of};
ghost use Rattle.share_server.specs.Table.{HasAsked, HasDone, HasLetGo, HasSettled, fresh_kept};

use crate::asked::Asked;
use crate::files::Files;
use crate::handles::Handles;
use crate::outs::Outs;
use crate::requests::{close, go_on, open, refuse};
use crate::values::out::Out;
use crate::values::request::FileRequest;
use lease_manager::{Decision, Manager};
use lease_state::{ClientNo, Content, FileId, FileNo, Memory, Reply};
use std::alloc::Global;
use std::marker::Model;

/// What a server keeps apart from its manager: the bytes of its files, and what it asked.
#[derive(Debug, Drop)]
pub struct Host {
    files: Files,
    handles: Handles,
    asked: Asked,
    /// The tag of the next request.
    next: u64,
}

impl Model for Host {
    ghost use Rattle.share_server.specs.Table as table;

    ghost Value = { table.Kept };

    ghost view = { λ host. record {
      contents = host.files;
      handles = host.handles;
      requests = host.asked;
      next = host.next;
    } };
}

impl Host {
    /// The host of files with these contents, of which those past the last file number are dropped. Allocates nothing.
    pub fn new(alloc: Global, contents: Vec<Content>) -> Host
        ensures { result ≡ fresh_kept (with_number contents.items) }
    {
        Host {
            files: Files::new(contents),
            handles: Handles::new(alloc),
            asked: Asked::new(alloc),
            next: 0,
        }
    }

    /// How many files there are.
    pub fn count(&self) -> u8
        ensures { result ≡ length self.now.contents }
    {
        self.files.count()
    }

    /// The bytes of a file, and none where there is no file of this number.
    pub fn bytes(&self, file: FileNo) -> &[u8]
        ensures { result.now ≡ numbered [] self.now.contents file.0 }
    {
        self.files.bytes(file)
    }

    /// The next tag is that of the request.
    ///
    /// # Errors
    ///
    /// `Memory` where there is none left for it, and where no tag is left.
    pub fn ask(&mut self, request: FileRequest) -> Result<u64, Memory>
        ensures tag { IfOk result (λ tag. tag ≡ self.old.next) }
        ensures asked { OnOk result (HasAsked (file_request_of request) self.old self.new) }
    {
        if self.next == u64::MAX {
            return Err(Memory);
        }
        let tag = self.next;
        self.asked.put(tag, request)?;
        self.next = tag + 1;
        Ok(tag)
    }

    // Carries out all decisions, in their order.
    fn carry_out_all(&mut self, told: &[Decision], outs: &mut Outs) -> Result<(), Memory>
        requires { (tag : ℕ) → answers tag (decisions told.now) ≤ 1 }
        ensures { OnOk result (HasDone (decisions told.now) self.old self.new outs.old outs.new) }
    {
        for decision in told {
            self.carry_out(*decision, outs)?;
        }
        Ok(())
    }

    // Carries out a decision.
    fn carry_out(&mut self, decision: Decision, outs: &mut Outs) -> Result<(), Memory>
        ensures { OnOk result (HasDone (decision_of decision ∷ []) self.old self.new outs.old outs.new) }
    {
        match decision {
            Decision::Opened {
                client,
                tag,
                file_id,
                answer,
            } => {
                let client = client_of(client)?;
                let request = self.asked.take(tag.0);
                open(&mut self.handles, outs, client, file_id, answer, request)?;
                Ok(())
            }
            Decision::GoesOn { client, tag } => {
                let client = client_of(client)?;
                let request = self.asked.take(tag.0);
                go_on(&mut self.files, &self.handles, outs, client, request)?;
                Ok(())
            }
            Decision::Closed { client, tag } => {
                let client = client_of(client)?;
                let request = self.asked.take(tag.0);
                close(outs, client, request)?;
                Ok(())
            }
            Decision::Refused {
                client,
                tag,
                status,
            } => {
                let client = client_of(client)?;
                let request = self.asked.take(tag.0);
                refuse(outs, client, request, status)?;
                Ok(())
            }
            Decision::Breaks { client, notice } => {
                outs.lease_broken(client_of(client)?, notice)?;
                Ok(())
            }
            Decision::Acknowledged { client, key, state } => {
                outs.ack_done(client_of(client)?, key, state)?;
                Ok(())
            }
            Decision::NotAcknowledged { client, status } => {
                outs.refuse_ack(client_of(client)?, status)?;
                Ok(())
            }
            Decision::Waits { .. } => Ok(()),
            Decision::Withdrawn { .. } => Ok(()),
            Decision::Ended { .. } => Ok(()),
            Decision::LeftBehind { .. } => Ok(()),
        }
    }

    /// Carries out decisions of the manager, in their order, each of which answers a request that no other one answers, and lets
    /// go of the opens that ended, or were closed, by them.
    ///
    /// # Errors
    ///
    /// `Memory` where there is none left.
    pub fn settle(
        &mut self,
        manager: &Manager,
        told: &[Decision],
        outs: &mut Outs,
    ) -> Result<(), Memory>
        requires { (tag : ℕ) → answers tag (decisions told.now) ≤ 1 }
        ensures { OnOk result (HasSettled (decisions told.now) (server_of manager.now).opens self.old self.new outs.old outs.new) }
    {
        self.carry_out_all(told, outs)?;
        self.let_go_ended(manager, told);
        self.let_go_closed(manager, outs.items());
        Ok(())
    }

    fn let_go_ended(&mut self, manager: &Manager, told: &[Decision])
        ensures { HasLetGo (server_of manager.now).opens self.old self.new }
    {
        for decision in told {
            if let Decision::Ended { file_id } = decision {
                self.let_go_of(manager, *file_id);
            }
        }
    }

    fn let_go_closed(&mut self, manager: &Manager, outs: &[Out])
        ensures { HasLetGo (server_of manager.now).opens self.old self.new }
    {
        for out in outs {
            if let Out::Sent(_, Reply::Closed { fid }) = out {
                self.let_go_of(manager, *fid);
            }
        }
    }

    // Lets go of the open, unless the manager still has it.
    fn let_go_of(&mut self, manager: &Manager, fid: FileId)
        ensures { HasLetGo (server_of manager.now).opens self.old self.new }
    {
        if !manager.has_open(fid) {
            self.handles.remove(fid);
        }
    }
}

// The client, whose number is one of a byte: no other one asked anything.
fn client_of(client: lease_manager::ClientNo) -> Result<ClientNo, Memory>
    ensures { IfOk result (λ one. one.0 ≡ client.0) }
{
    if client.0 <= 255 {
        Ok(ClientNo(client.0 as u8))
    } else {
        Err(Memory)
    }
}
