ghost use Rattle.std.specs.Prelude.{◌≡◌, ◌++◌, ◌∷◌, [], true, Some, OnOk, map};
ghost use Rattle.lease_model.specs.messages.Replies as model;
ghost use Rattle.lease_model.specs.server.Progress.{break_notice, refusal_of};
ghost use Rattle.lease_state.specs.State.{state_of};
ghost use Rattle.lease_manager.specs.Outs.{answer_told, out_of};
ghost use Rattle.lease_manager.specs.Requests.{patch_like, request_like};

use crate::values::decision::CreateAnswer;
use crate::values::key::LeaseName;
use crate::values::number::{ClientNo, FileNo};
use crate::values::out::Out;
use crate::values::request::Ask;
use lease_state::{FileId, LeaseState, Memory, Status};
use std::alloc::Global;
use std::marker::Model;

/// What the server of the rules gives out for one request so far, in order, without bytes.
#[derive(Debug, Drop)]
pub struct Outs {
    items: Vec<Out>,
}

impl Model for Outs {
    ghost use Rattle.std.specs.Prelude.{List, map};
    ghost use Rattle.lease_model.specs.messages.Replies as model;
    ghost use Rattle.lease_manager.specs.Outs.{out_of};

    ghost Value = { List model.Out };

    ghost view = { λ outs. map out_of outs.items.items };
}

impl Outs {
    /// Nothing yet. Allocates nothing.
    pub fn new(alloc: Global) -> Outs
        ensures { result ≡ [] }
    {
        Outs {
            items: Vec::new(alloc),
        }
    }

    /// What was given out, in order.
    pub fn items(&self) -> &[Out]
        ensures { map out_of result.now ≡ self.now }
    {
        self.items.as_slice()
    }

    /// One more.
    fn push(&mut self, out: Out) -> Result<(), Memory>
        ensures { OnOk result (self.new ≡ self.old ++ out_of out ∷ []) }
    {
        self.items.push(out)?;
        Ok(())
    }

    /// The file was opened for the client.
    pub fn opened(&mut self, file: FileNo, client: ClientNo) -> Result<(), Memory>
        ensures { OnOk result (self.new ≡ self.old ++ model.Out.Opened file.0 client.0 ∷ []) }
    {
        self.push(Out::Opened { file, client })
    }

    /// The file was changed by the client's write.
    pub fn changed(&mut self, file: FileNo, client: ClientNo) -> Result<(), Memory>
        ensures { OnOk result (self.new ≡ self.old ++ model.Out.Changed file.0 client.0 0 (patch_like true) ∷ []) }
    {
        self.push(Out::Changed { file, client })
    }

    /// The request is refused.
    pub fn refuse(&mut self, client: ClientNo, ask: Ask, status: Status) -> Result<(), Memory>
        ensures { OnOk result (self.new
            ≡ self.old ++ model.Out.Sent client.0 (refusal_of (request_like ask) status) ∷ []) }
    {
        self.push(Out::Refused {
            client,
            ask,
            status,
        })
    }

    /// A read is done.
    pub fn read_done(&mut self, client: ClientNo, file_id: FileId) -> Result<(), Memory>
        ensures { OnOk result (self.new
            ≡ self.old ++ model.Out.Sent client.0 (model.Reply.ReadDone file_id.0 []) ∷ []) }
    {
        self.push(Out::ReadDone { client, file_id })
    }

    /// A write is done.
    pub fn write_done(&mut self, client: ClientNo, file_id: FileId) -> Result<(), Memory>
        ensures { OnOk result (self.new
            ≡ self.old ++ model.Out.Sent client.0 (model.Reply.WriteDone file_id.0 0) ∷ []) }
    {
        self.push(Out::WriteDone { client, file_id })
    }

    /// An open is closed.
    pub fn close_done(&mut self, client: ClientNo, file_id: FileId) -> Result<(), Memory>
        ensures { OnOk result (self.new ≡ self.old ++ model.Out.Sent client.0 (model.Reply.Closed file_id.0) ∷ []) }
    {
        self.push(Out::Closed { client, file_id })
    }

    /// An acknowledgment is refused.
    pub fn refuse_ack(&mut self, client: ClientNo, status: Status) -> Result<(), Memory>
        ensures { OnOk result (self.new ≡ self.old ++ model.Out.Sent client.0 (model.Reply.AckFailed status) ∷ []) }
    {
        self.push(Out::NotAcknowledged { client, status })
    }

    /// A break of the lease is acknowledged, and it has this state.
    pub fn ack_done(&mut self, key: LeaseName, state: LeaseState) -> Result<(), Memory>
        ensures { OnOk result (self.new ≡ self.old ++ model.Out.Sent key.client
            (model.Reply.AckDone (Some (record { key = key.bytes; state = state_of state }))) ∷ []) }
    {
        self.push(Out::Acknowledged { key, state })
    }

    /// The client is sent the break of its lease, from this state to that.
    pub fn lease_broken(
        &mut self,
        key: LeaseName,
        current: LeaseState,
        lowered: LeaseState,
    ) -> Result<(), Memory>
        ensures { OnOk result (self.new ≡ self.old
            ++ model.Out.Sent key.client (break_notice key (state_of current) (state_of lowered)) ∷ []) }
    {
        self.push(Out::Broken {
            key,
            current,
            lowered,
        })
    }

    /// A create is done.
    pub fn created(
        &mut self,
        client: ClientNo,
        file: FileNo,
        file_id: FileId,
        answer: CreateAnswer,
    ) -> Result<(), Memory>
        ensures { OnOk result (self.new ≡ self.old
            ++ model.Out.Sent client.0 (model.Reply.Created file.0 file_id.0 (Some (answer_told answer))) ∷ []) }
    {
        self.push(Out::Created {
            client,
            file,
            file_id,
            answer,
        })
    }
}
