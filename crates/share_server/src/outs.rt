ghost use Rattle.std.specs.Prelude.{◌≡◌, ◌++◌, [], ◌∷◌, map, length, Some, IfSome, OnOk};
ghost use Rattle.lease_model.specs.messages.FromBytes.{reply_of};
ghost use Rattle.lease_model.specs.messages.Replies as model;
ghost use Rattle.lease_model.specs.messages.ToBytes.{reply_written};
ghost use Rattle.lease_manager.specs.Outs.{answer_told, notice_of};
ghost use Rattle.lease_model.specs.server.Progress.{refusal_of};
ghost use Rattle.lease_state.specs.State.{state_of};
ghost use Rattle.share_server.specs.Requests.{file_request_of};
ghost use Rattle.share_server.specs.Written.{out_of, out_written, IsWritten};

use crate::values::out::Out;
use crate::values::request::FileRequest;
use lease_laws::bytes_laws;
use lease_manager::{BreakNotice, CreateAnswer};
use lease_state::{
    Bytes, ClientNo, FileId, FileNo, LeaseKey, LeaseState, Memory, Patch, Reply, Status,
};
use lease_wire::{BreakResponse, Notification, write_create_reply};
use std::alloc::Global;
use std::marker::Model;

/// What a call gives out so far, in order, with its bytes. Contracts see what the rules give out,
/// and every item is written as those are.
#[derive(Debug, Drop)]
pub struct Outs {
    items: Vec<Out>,
}

impl Model for Outs {
    ghost use Rattle.std.specs.Prelude.{List, map, ◌≡◌};
    ghost use Rattle.lease_model.specs.messages.Replies as model;

    ghost Value = { List model.Out };

    ghost use Rattle.share_server.specs.Written.{out_of, out_written};

    ghost view = { λ outs. map out_of outs.items.items };

    ghost invariant = { λ outs. map out_written (map out_of outs.items.items) ≡ outs.items.items };
}

impl Outs {
    /// Nothing yet. Allocates nothing.
    pub fn new(alloc: Global) -> Outs
        ensures { result ≡ [] }
    {
        Outs {
            items: Vec::new(alloc),
        }
    }

    /// One more, which is written as what is read in it.
    fn push(&mut self, out: Out) -> Result<(), Memory>
        requires { IsWritten out }
        ensures { OnOk result (self.new ≡ self.old ++ out_of out ∷ []) }
    {
        self.items.push(out)?;
        Ok(())
    }

    /// The file was opened for the client.
    pub fn opened(&mut self, file: FileNo, client: ClientNo) -> Result<(), Memory>
        ensures { OnOk result (self.new ≡ self.old ++ model.Out.Opened file.0 client.0 ∷ []) }
    {
        self.push(Out::Opened(file, client))
    }

    /// The file was changed by the client's write of this number.
    pub fn changed(
        &mut self,
        file: FileNo,
        client: ClientNo,
        number: u64,
        patch: Patch,
    ) -> Result<(), Memory>
        ensures { OnOk result (self.new ≡ self.old ++ model.Out.Changed file.0 client.0 number patch ∷ []) }
    {
        self.push(Out::Changed(file, client, number, patch))
    }

    // A reply is sent that is written as what is read in it.
    fn send(&mut self, client: ClientNo, reply: Reply) -> Result<(), Memory>
        requires { reply_written (reply_of reply) ≡ reply }
        ensures { OnOk result (self.new ≡ self.old ++ model.Out.Sent client.0 (reply_of reply) ∷ []) }
    {
        self.push(Out::Sent(client, reply))
    }

    /// The request is refused.
    pub fn refuse(
        &mut self,
        client: ClientNo,
        request: &FileRequest,
        status: Status,
    ) -> Result<(), Memory>
        ensures { OnOk result (self.new
            ≡ self.old ++ model.Out.Sent client.0 (refusal_of (file_request_of request.now) status) ∷ []) }
    {
        match request {
            FileRequest::Create { file, .. } => self.refuse_create(client, *file, status),
            FileRequest::Read { fid } => self.send(client, Reply::ReadFailed { fid: *fid, status }),
            FileRequest::Write { fid, number, .. } => self.send(
                client,
                Reply::WriteFailed {
                    fid: *fid,
                    number: *number,
                    status,
                },
            ),
            FileRequest::Close { fid } => self.send(
                client,
                Reply::CloseFailed { fid: *fid, status },
            ),
        }
    }

    /// A create is refused.
    pub fn refuse_create(
        &mut self,
        client: ClientNo,
        file: FileNo,
        status: Status,
    ) -> Result<(), Memory>
        ensures { OnOk result (self.new
            ≡ self.old ++ model.Out.Sent client.0 (model.Reply.CreateFailed file.0 status) ∷ []) }
    {
        self.send(client, Reply::CreateFailed { file, status })
    }

    /// A read is done.
    pub fn read_done(&mut self, client: ClientNo, fid: FileId, bytes: Bytes) -> Result<(), Memory>
        ensures { OnOk result (self.new
            ≡ self.old ++ model.Out.Sent client.0 (model.Reply.ReadDone fid.0 bytes) ∷ []) }
    {
        self.send(client, Reply::ReadDone { fid, bytes })
    }

    /// A write is done.
    pub fn write_done(&mut self, client: ClientNo, fid: FileId, number: u64) -> Result<(), Memory>
        ensures { OnOk result (self.new
            ≡ self.old ++ model.Out.Sent client.0 (model.Reply.WriteDone fid.0 number) ∷ []) }
    {
        self.send(client, Reply::WriteDone { fid, number })
    }

    /// An open is closed.
    pub fn closed(&mut self, client: ClientNo, fid: FileId) -> Result<(), Memory>
        ensures { OnOk result (self.new ≡ self.old ++ model.Out.Sent client.0 (model.Reply.Closed fid.0) ∷ []) }
    {
        self.send(client, Reply::Closed { fid })
    }

    /// An acknowledgment is refused.
    pub fn refuse_ack(&mut self, client: ClientNo, status: Status) -> Result<(), Memory>
        ensures { OnOk result (self.new ≡ self.old ++ model.Out.Sent client.0 (model.Reply.AckFailed status) ∷ []) }
    {
        self.send(client, Reply::AckFailed { status })
    }

    /// A break of the lease is acknowledged, and it has this state.
    pub fn ack_done(
        &mut self,
        client: ClientNo,
        key: LeaseKey,
        state: LeaseState,
    ) -> Result<(), Memory>
        ensures { OnOk result (self.new ≡ self.old ++ model.Out.Sent client.0
            (model.Reply.AckDone (Some (record { key = key.0; state = state_of state }))) ∷ []) }
    {
        bytes_laws();
        let response = BreakResponse { key, state };
        self.send(client, Reply::AckDone(response.encode()))?;
        Ok(())
    }

    /// The client is sent the notice of a break.
    pub fn lease_broken(&mut self, client: ClientNo, given: BreakNotice) -> Result<(), Memory>
        ensures { OnOk result (self.new ≡ self.old
            ++ model.Out.Sent client.0 (model.Reply.Break (Some (notice_of given))) ∷ []) }
    {
        bytes_laws();
        let notice = Notification {
            ack_required: given.ack_required,
            key: given.key,
            current: given.current,
            new: given.lowered,
        };
        self.send(client, Reply::Break(notice.encode()))?;
        Ok(())
    }

    /// A create is done.
    pub fn created(
        &mut self,
        client: ClientNo,
        file: FileNo,
        fid: FileId,
        given: CreateAnswer,
    ) -> Result<(), Memory>
        ensures { OnOk result (self.new ≡ self.old
            ++ model.Out.Sent client.0 (model.Reply.Created file.0 fid.0 (Some (answer_told given))) ∷ []) }
    {
        bytes_laws();
        let answer = lease_wire::CreateAnswer {
            lease: given.lease,
            durable: given.durable,
        };
        full_key(&answer);
        let mut text = Vec::new(self.alloc());
        write_create_reply(&answer, &mut text)?;
        let contexts = Bytes::new(text);
        self.send(
            client,
            Reply::Created {
                file,
                fid,
                contexts,
            },
        )
    }

    /// The allocator of the list.
    pub fn alloc(&self) -> Global {
        *self.items.allocator()
    }

    /// What was given out, in order.
    pub fn items(&self) -> &[Out] {
        self.items.as_slice()
    }

    /// The list. Allocates nothing.
    pub fn into_vec(self) -> Vec<Out>
        ensures { result.items ≡ map out_written self }
    {
        let Outs { items } = self;
        items
    }
}

// The key in a reply has 16 bytes.
fn full_key(answer: &lease_wire::CreateAnswer)
    ensures { IfSome answer.now.lease (λ lease. length lease.0.0 ≡ 16) }
{
    if let Some(lease) = answer.lease {
        let _key = key_length(lease.0);
    }
}

// As many bytes as a key has.
fn key_length(key: LeaseKey) -> usize
    ensures result { result ≡ 16 }
    ensures length { length key.0 ≡ 16 }
{
    key.0.len()
}
