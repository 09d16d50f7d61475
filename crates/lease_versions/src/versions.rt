ghost use Rattle.std.specs.Prelude.{◌≡◌, true, false, Some, None, IfOk, IsOk, OnErr, OnOk, if◌then◌else◌, is_some};
ghost use Rattle.std.specs.Option.{option_map};
ghost use Rattle.lease_manager.specs.Outs.{answer_told, decision_of, notice_of};
ghost use Rattle.lease_manager.specs.Parting.{tag_numbers};
ghost use Rattle.lease_model.specs.values.Tables.{put};
ghost use Rattle.lease_state.specs.State.{state_of};
ghost use Rattle.lease_versions.specs.Arriving.{HasArrived, IsFoundOf, refusal_in};
ghost use Rattle.lease_versions.specs.Asking.{all_forgotten, create_asked, durable_guid, tags_forgotten, with_asked};
ghost use Rattle.lease_versions.specs.Kept.{carried_of, create_of, layer_of, leases_of, open_of, opens_of};
ghost use Rattle.lease_versions.specs.Layer as layer;
ghost use Rattle.lease_versions.specs.Refusals.{HasCreate, HasNoCreate, HasNoOpen, HasOpen, IsAgain, reconnect_refusal};
ghost use Rattle.lease_versions.specs.Rows as rows;
ghost use Rattle.lease_wire_v2.specs.Views.{ask_of, asked_durable, reconnect_view, second_of};

use crate::carried::{Arrival, Carried, Replayed};
use crate::leases::Leases;
use crate::opens::{Open, Opens};
use crate::requests::{Asked, AskedCreate, Requests};
use capture_wire::Guid;
use lease_manager::{BreakNotice, ClientNo, CreateAnswer, Decision, LeaseName, Tag};
use lease_state::{FileId, LeaseKey, LeaseState, Memory, Status};
use lease_wire_v2::{CreateAskV2, DurableAsk, Reconnect, SecondVersion};
use std::alloc::Global;

/// What a server knows of leases and durable opens of version 2, apart from what its lease manager knows.
#[derive(Debug, Drop)]
pub struct Versions {
    requests: Requests,
    leases: Leases,
    opens: Opens,
}

fn named(client: ClientNo, key: LeaseKey) -> LeaseName
    ensures { result ≡ record { client = client.0; bytes = key.0 } }
{
    LeaseName { client, bytes: key }
}

fn open_made(client: ClientNo, create: AskedCreate, answer: &CreateAnswer) -> Open
    ensures { open_of result ≡ rows.open_made client.0 (create_of create) (answer_told answer.now) }
{
    let key = match answer.lease {
        Some((key, _, _)) => Some(key),
        None => None,
    };
    let guid = if answer.durable || create.reconnects {
        create.guid
    } else {
        None
    };
    Open { client, key, guid }
}

fn is_durable_second(create: AskedCreate, answer: &CreateAnswer) -> bool
    ensures { result ≡ rows.is_durable_second (answer_told answer.now) (create_of create) }
{
    answer.durable && create.guid.is_some() && !create.reconnects
}

impl Versions {
    /// Where nothing is open, and nothing was asked. Allocates nothing.
    pub fn new(alloc: Global) -> Versions
        ensures { layer_of result ≡ layer.nothing_known }
    {
        Versions {
            requests: Requests::new(alloc),
            leases: Leases::new(alloc),
            opens: Opens::new(alloc),
        }
    }

    /// A client asks for a create by these contexts under this tag, which stands until the create is answered.
    ///
    /// # Errors
    ///
    /// `Memory` where there is none left; nothing has changed then.
    pub fn asked(&mut self, client: ClientNo, tag: Tag, ask: &CreateAskV2) -> Result<(), Memory>
        ensures asked { OnOk result (layer_of self.new
            ≡ with_asked client.0 tag.0 (layer.Asked.Create (create_asked (ask_of ask.now))) (layer_of self.old)) }
        ensures refused { OnErr result (layer_of self.new ≡ layer_of self.old) }
    {
        self.requests
            .put(client, tag, Asked::Create(AskedCreate::of(ask)))
    }

    /// A client asks under this tag that the open of this FileId be closed, which stands until the close is answered.
    ///
    /// # Errors
    ///
    /// `Memory` where there is none left; nothing has changed then.
    pub fn closing(&mut self, client: ClientNo, tag: Tag, file_id: FileId) -> Result<(), Memory>
        ensures asked { OnOk result (layer_of self.new
            ≡ with_asked client.0 tag.0 (layer.Asked.Close file_id.0) (layer_of self.old)) }
        ensures refused { OnErr result (layer_of self.new ≡ layer_of self.old) }
    {
        self.requests.put(client, tag, Asked::Close(file_id))
    }

    /// What a decision of the manager changes, and what version 2 adds to the message that the host sends for it (MS-SMB2
    /// 3.3.5.9.8, 3.3.5.9.11, 3.3.4.7). Decisions are followed in their order.
    ///
    /// # Errors
    ///
    /// `Memory` where a create is answered and there is none left, or a lease has 2^64 - 1 opens; nothing has changed then.
    pub fn follow(&mut self, decision: &Decision) -> Result<Carried, Memory>
        ensures carried { IfOk result (λ carried. carried_of carried
            ≡ rows.carried (decision_of decision.now) (layer_of self.old)) }
        ensures followed { OnOk result (layer_of self.new ≡ rows.followed (decision_of decision.now) (layer_of self.old)) }
        ensures refused { OnErr result (layer_of self.new ≡ layer_of self.old) }
        ensures free { rows.takes_memory (decision_of decision.now) ≡ false → IsOk result }
    {
        match decision {
            Decision::Opened {
                client,
                tag,
                file_id,
                answer,
            } => self.opened(*client, *tag, *file_id, answer),
            Decision::Closed { client, tag } => {
                self.closed(*client, *tag);
                Ok(Carried::Nothing)
            }
            Decision::Refused { client, tag, .. } | Decision::Withdrawn { client, tag } => {
                self.requests.forget(*client, *tag);
                Ok(Carried::Nothing)
            }
            Decision::Breaks { client, notice } => {
                let epoch = self.broken(*client, notice);
                Ok(Carried::Notice(epoch))
            }
            Decision::Acknowledged { client, key, state } => {
                self.acknowledged(*client, *key, *state);
                Ok(Carried::Nothing)
            }
            Decision::Ended { file_id } => {
                self.ended(*file_id);
                Ok(Carried::Nothing)
            }
            _ => Ok(Carried::Nothing),
        }
    }

    /// What the client asked is forgotten, as its connection is cut.
    pub fn forget(&mut self, client: ClientNo)
        ensures { layer_of self.new ≡ all_forgotten client.0 (layer_of self.old) }
    {
        self.requests.forget_all(client);
    }

    /// What the client asked under these tags is forgotten, as it leaves them.
    pub fn leave(&mut self, client: ClientNo, tags: &[Tag])
        ensures { layer_of self.new ≡ tags_forgotten client.0 (tag_numbers tags.now) (layer_of self.old) }
    {
        self.requests.forget_these(client, tags);
    }

    /// Whether a `DH2C` context is refused before the manager is asked: the open is there, and under another CreateGuid (MS-SMB2
    /// 3.3.5.9.12). Of an open that isn't there the manager says what becomes of it, and `DHnC` asks for no guid.
    pub fn reconnect_refusal(&self, file_id: FileId, create_guid: Guid) -> Option<Status>
        ensures { result ≡ reconnect_refusal create_guid.0 ((layer_of self.now).opens file_id.0) }
    {
        match self.opens.open(file_id) {
            Some(one) if one.guid.unwrap_or(Guid([0; 16])) != create_guid => Some(
                Status::ObjectNameNotFound,
            ),
            _ => None,
        }
    }

    /// What becomes of a `DH2Q` context under this CreateGuid before the manager is asked, where the request has
    /// SMB2_FLAGS_REPLAY_OPERATION or hasn't (MS-SMB2 3.3.5.9.10); `None` where the manager is to be asked. It looks through the
    /// opens.
    pub fn replayed(&self, client: ClientNo, create_guid: Guid, replay: bool) -> Option<Replayed>
        ensures duplicate { HasOpen client.0 create_guid.0 (layer_of self.now) → replay ≡ false
            → result ≡ Some Replayed.DuplicateObjectId }
        ensures again { HasOpen client.0 create_guid.0 (layer_of self.now) → replay ≡ true
            → IsAgain client.0 create_guid.0 (layer_of self.now) result }
        ensures waits { HasNoOpen client.0 create_guid.0 (layer_of self.now)
            → HasCreate client.0 create_guid.0 (layer_of self.now) → replay ≡ true → result ≡ Some Replayed.FileNotAvailable }
        ensures fresh { HasNoOpen client.0 create_guid.0 (layer_of self.now)
            → HasNoCreate client.0 create_guid.0 (layer_of self.now) → result ≡ None }
        ensures asked { HasNoOpen client.0 create_guid.0 (layer_of self.now) → replay ≡ false → result ≡ None }
    {
        match self.opens.under(client, create_guid) {
            Some(file_id) if replay => Some(Replayed::Again(file_id)),
            Some(_) => Some(Replayed::DuplicateObjectId),
            None if replay && self.requests.has_create(client, create_guid) => Some(
                Replayed::FileNotAvailable,
            ),
            None => None,
        }
    }

    // The status by which its `DH2C` is refused.
    fn refusal(&self, reconnect: Option<Reconnect>) -> Option<Status>
        ensures { result ≡ refusal_in (option_map reconnect_view reconnect) (layer_of self.now) }
    {
        match reconnect {
            Some(Reconnect::Second(again)) => self.reconnect_refusal(
                FileId(again.file_id.persistent),
                again.create_guid,
            ),
            _ => None,
        }
    }

    // What became of the CreateGuid of its `DH2Q`.
    fn found(&self, client: ClientNo, durable: Option<DurableAsk>, replay: bool) -> Option<Replayed>
        ensures { IsFoundOf client.0 (durable_guid (option_map asked_durable durable)) replay (layer_of self.now) result }
    {
        match durable {
            Some(DurableAsk::Second(ask)) => self.replayed(client, ask.create_guid, replay),
            _ => None,
        }
    }

    /// What becomes of a create by its contexts, where its request has SMB2_FLAGS_REPLAY_OPERATION or hasn't: as `reconnect_refusal`
    /// and `replayed` say, and else it is `asked`.
    ///
    /// # Errors
    ///
    /// `Memory` where there is none left; nothing has changed then.
    pub fn arrived(
        &mut self,
        client: ClientNo,
        tag: Tag,
        ask: &CreateAskV2,
        replay: bool,
    ) -> Result<Arrival, Memory>
        ensures arrived { IfOk result
            (λ arrival. HasArrived client.0 tag.0 (ask_of ask.now) replay (layer_of self.old) (layer_of self.new) arrival) }
        ensures refused { OnErr result (layer_of self.new ≡ layer_of self.old) }
    {
        if let Some(status) = self.refusal(ask.reconnect) {
            return Ok(Arrival::Refused(status));
        }
        if let Some(found) = self.found(client, ask.durable, replay) {
            return Ok(Arrival::Again(found));
        }
        self.asked(client, tag, ask)?;
        Ok(Arrival::Asked)
    }

    // A create is answered.
    fn opened(
        &mut self,
        client: ClientNo,
        tag: Tag,
        file_id: FileId,
        answer: &CreateAnswer,
    ) -> Result<Carried, Memory>
        ensures carried { IfOk result (λ carried. carried_of carried
            ≡ rows.answer_carried client.0 file_id.0 (answer_told answer.now)
            (rows.create_in ((layer_of self.old).asked client.0 tag.0)) (layer_of self.old)) }
        ensures opened { OnOk result (layer_of self.new
            ≡ rows.opened client.0 tag.0 file_id.0 (answer_told answer.now)
            (rows.create_in ((layer_of self.old).asked client.0 tag.0)) (layer_of self.old)) }
        ensures refused { OnErr result (layer_of self.new ≡ layer_of self.old) }
    {
        let create = self.requests.create(client, tag);
        let second = self.noted(client, file_id, create, answer)?;
        self.requests.forget(client, tag);
        Ok(Carried::Answer {
            second,
            durable: is_durable_second(create, answer),
        })
    }

    // The open and its lease are noted; what version 2 adds to the lease.
    fn noted(
        &mut self,
        client: ClientNo,
        file_id: FileId,
        create: AskedCreate,
        answer: &CreateAnswer,
    ) -> Result<Option<SecondVersion>, Memory>
        ensures requests { self.new.requests ≡ self.old.requests }
        ensures second { IfOk result (λ second. option_map second_of second
            ≡ rows.second_given client.0 (answer_told answer.now).lease (create_of create).second
            (is_some (opens_of self.old.opens file_id.0)) (leases_of self.old.leases)) }
        ensures leases { OnOk result (leases_of self.new.leases
            ≡ rows.leases_given client.0 (answer_told answer.now).lease (create_of create).second
            (is_some (opens_of self.old.opens file_id.0)) (leases_of self.old.leases)) }
        ensures opens { OnOk result (opens_of self.new.opens ≡ rows.noted file_id.0
            (rows.open_made client.0 (create_of create) (answer_told answer.now)) (opens_of self.old.opens)) }
        ensures refused { OnErr result (leases_of self.new.leases ≡ leases_of self.old.leases) }
        ensures opens_refused { OnErr result (opens_of self.new.opens ≡ opens_of self.old.opens) }
    {
        let known = self.opens.has(file_id);
        self.opens.note(file_id, open_made(client, create, answer))?;
        match self.leases.give(client, answer.lease, create.second, known) {
            Ok(second) => Ok(second),
            Err(refused) => {
                self.take_back(file_id, known);
                Err(refused)
            }
        }
    }

    // The open that came last goes again, unless it was known before.
    fn take_back(&mut self, file_id: FileId, known: bool)
        ensures leases { self.new.leases ≡ self.old.leases }
        ensures requests { self.new.requests ≡ self.old.requests }
        ensures opens { opens_of self.new.opens
            ≡ (if known then opens_of self.old.opens else put (opens_of self.old.opens) file_id.0 None) }
    {
        if !known {
            self.opens.remove(file_id);
        }
    }

    // A close is answered.
    fn closed(&mut self, client: ClientNo, tag: Tag)
        ensures { layer_of self.new ≡ rows.forgotten client.0 tag.0
            (rows.closed_by ((layer_of self.old).asked client.0 tag.0) (layer_of self.old)) }
    {
        let asked = self.requests.asked(client, tag);
        if let Some(Asked::Close(file_id)) = asked {
            self.ended(file_id);
        }
        self.requests.forget(client, tag);
    }

    // An open is no more.
    fn ended(&mut self, file_id: FileId)
        ensures { layer_of self.new ≡ rows.ended file_id.0 (layer_of self.old) }
    {
        if let Some(one) = self.opens.open(file_id) {
            self.leases.leave(one.client, one.key);
        }
        self.opens.remove(file_id);
    }

    // The notice of a break is sent: its NewEpoch.
    fn broken(&mut self, client: ClientNo, notice: &BreakNotice) -> u16
        ensures epoch { result ≡ rows.epoch_of (option_map (rows.broken (notice_of notice.now))
            ((layer_of self.old).leases (record { client = client.0; bytes = notice.now.key.0 }))) }
        ensures layer { layer_of self.new ≡ rows.with_lease (record { client = client.0; bytes = notice.now.key.0 })
            (rows.broken (notice_of notice.now)) (layer_of self.old) }
    {
        let name = named(client, notice.key);
        match self.leases.lease(name) {
            Some(lease) => {
                let broken = lease.broken(notice);
                self.leases.set(name, broken);
                broken.epoch()
            }
            None => 0,
        }
    }

    // An acknowledgment is answered.
    fn acknowledged(&mut self, client: ClientNo, key: LeaseKey, state: LeaseState)
        ensures { layer_of self.new ≡ rows.with_lease (record { client = client.0; bytes = key.0 })
            (rows.acknowledged (state_of state)) (layer_of self.old) }
    {
        let name = named(client, key);
        if let Some(lease) = self.leases.lease(name) {
            self.leases.set(name, lease.acknowledged(state));
        }
    }
}
