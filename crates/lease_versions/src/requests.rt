ghost use Rattle.std.specs.Prelude.{◌≡◌, ℕ, true, false, OnErr, OnOk, Some, None};
ghost use Rattle.std.specs.Option.{option_map};
ghost use Rattle.lease_manager.specs.Parting.{tag_numbers};
ghost use Rattle.lease_versions.specs.Asking.{create_asked, durable_guid, reconnect_guid, without_client, without_tags};
ghost use Rattle.lease_versions.specs.Kept.{asked_of, create_of, guid_of, request_name, requests_of};
ghost use Rattle.lease_versions.specs.Layer.{put_asked};
ghost use Rattle.lease_versions.specs.Refusals.{is_create_under};
ghost use Rattle.lease_versions.specs.Rows.{create_in, plain_create};
ghost use Rattle.lease_wire_v2.specs.Views.{ask_of, asked_durable, reconnect_view};

use capture_wire::Guid;
use lease_manager::{ClientNo, Tag};
use lease_state::{FileId, Memory};
use lease_wire_v2::{CreateAskV2, DurableAsk, Reconnect, SecondVersion};
use std::alloc::Global;
use std::collections::BTreeMap;

/// What version 2 adds to a create that isn't answered.
#[derive(Clone, Copy, Debug, PartialEq, Eq)]
pub struct AskedCreate {
    /// To its `RqLs` context; `None` where that is of version 1, or there is none.
    pub second: Option<SecondVersion>,
    /// The CreateGuid of its `DH2Q` or `DH2C`.
    pub guid: Option<Guid>,
    /// It connects an open again.
    pub reconnects: bool,
}

/// What names a request: its client, and the tag under which it was asked.
#[derive(Clone, Copy, Debug, PartialEq, Eq, PartialOrd, Ord)]
pub struct RequestName {
    pub client: u64,
    pub tag: u64,
}

fn named(client: ClientNo, tag: Tag) -> RequestName
    ensures { result ≡ request_name client.0 tag.0 }
{
    RequestName {
        client: client.0,
        tag: tag.0,
    }
}

/// A request that isn't answered.
#[derive(Clone, Copy, Debug, PartialEq, Eq)]
pub enum Asked {
    Create(AskedCreate),
    Close(FileId),
}

fn durable_guid(durable: Option<DurableAsk>) -> Option<Guid>
    ensures { option_map guid_of result ≡ durable_guid (option_map asked_durable durable) }
{
    match durable {
        Some(DurableAsk::Second(ask)) => Some(ask.create_guid),
        _ => None,
    }
}

fn reconnect_guid(reconnect: Option<Reconnect>) -> Option<Guid>
    ensures { option_map guid_of result ≡ reconnect_guid (option_map reconnect_view reconnect) }
{
    match reconnect {
        Some(Reconnect::Second(again)) => Some(again.create_guid),
        _ => None,
    }
}

impl AskedCreate {
    /// Without anything of version 2.
    pub fn plain() -> AskedCreate
        ensures { create_of result ≡ plain_create }
    {
        AskedCreate {
            second: None,
            guid: None,
            reconnects: false,
        }
    }

    /// From its contexts.
    pub fn of(ask: &CreateAskV2) -> AskedCreate
        ensures { create_of result ≡ create_asked (ask_of ask.now) }
    {
        let second = match ask.lease {
            Some(lease) => lease.second,
            None => None,
        };
        let guid = match ask.reconnect {
            Some(_) => reconnect_guid(ask.reconnect),
            None => durable_guid(ask.durable),
        };
        AskedCreate {
            second,
            guid,
            reconnects: ask.reconnect.is_some(),
        }
    }
}

/// The requests that aren't answered, by their clients and tags.
#[derive(Debug, Drop)]
pub struct Requests {
    by_tag: BTreeMap<RequestName, Asked>,
}

impl Requests {
    /// None. Allocates nothing.
    pub fn new(alloc: Global) -> Requests
        ensures { (client tag : ℕ) → requests_of result client tag ≡ None }
    {
        Requests {
            by_tag: BTreeMap::new(alloc),
        }
    }

    /// What was asked under the tag.
    pub fn asked(&self, client: ClientNo, tag: Tag) -> Option<Asked>
        ensures { option_map asked_of result ≡ requests_of self.now client.0 tag.0 }
    {
        self.by_tag.get(&named(client, tag)).copied()
    }

    /// The create that was asked under the tag.
    pub fn create(&self, client: ClientNo, tag: Tag) -> AskedCreate
        ensures { create_of result ≡ create_in (requests_of self.now client.0 tag.0) }
    {
        match self.asked(client, tag) {
            Some(Asked::Create(create)) => create,
            _ => AskedCreate::plain(),
        }
    }

    /// This is asked under the tag.
    ///
    /// # Errors
    ///
    /// `Memory` where there is none left; nothing has changed then.
    pub fn put(&mut self, client: ClientNo, tag: Tag, asked: Asked) -> Result<(), Memory>
        ensures put { OnOk result (requests_of self.new
            ≡ put_asked (requests_of self.old) client.0 tag.0 (Some (asked_of asked))) }
        ensures refused { OnErr result (requests_of self.new ≡ requests_of self.old) }
    {
        self.by_tag.insert(named(client, tag), asked)?;
        Ok(())
    }

    /// What was asked under the tag is forgotten.
    pub fn forget(&mut self, client: ClientNo, tag: Tag)
        ensures { requests_of self.new ≡ put_asked (requests_of self.old) client.0 tag.0 None }
    {
        self.by_tag.remove(&named(client, tag));
    }

    /// What the client asked is forgotten.
    pub fn forget_all(&mut self, client: ClientNo)
        ensures { requests_of self.new ≡ without_client client.0 (requests_of self.old) }
    {
        self.by_tag.retain(|under, _| under.client != client.0);
    }

    /// What the client asked under these tags is forgotten.
    pub fn forget_these(&mut self, client: ClientNo, tags: &[Tag])
        ensures { requests_of self.new ≡ without_tags client.0 (tag_numbers tags.now) (requests_of self.old) }
    {
        for tag in tags {
            self.forget(client, *tag);
        }
    }

    // Whether this is asked under the tag: a create under this CreateGuid that connects no open again.
    fn is_create_under(&self, client: ClientNo, tag: Tag, guid: Guid) -> bool
        ensures { result ≡ is_create_under guid.0 (requests_of self.now client.0 tag.0) }
    {
        match self.asked(client, tag) {
            Some(Asked::Create(create)) => create.guid == Some(guid) && !create.reconnects,
            _ => false,
        }
    }

    /// Whether a create of the client under this CreateGuid isn't answered, other than one that connects an open again.
    pub fn has_create(&self, client: ClientNo, guid: Guid) -> bool
        ensures has { result ≡ true → (tag : ℕ) × (is_create_under guid.0 (requests_of self.now client.0 tag) ≡ true) }
        ensures none { result ≡ false → (tag : ℕ) → is_create_under guid.0 (requests_of self.now client.0 tag) ≡ false }
    {
        for under in self.by_tag.keys() {
            if under.client == client.0 && self.is_create_under(client, Tag(under.tag), guid) {
                return true;
            }
        }
        false
    }
}
