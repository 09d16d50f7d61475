ghost use Rattle.std.specs.Prelude.{◌≡◌};
ghost use Rattle.std.specs.Option.{option_map};
ghost use Rattle.lease_wire.specs.Create as first;
ghost use Rattle.lease_wire_v2.specs.Names.{go_together};
ghost use Rattle.lease_wire_v2.specs.Views.{ask_of, asked_lease, plain_of, plain_lease, file_id_in, reconnect_view};

use capture_wire::{DurableReconnectV2, DurableRequestV2, DurableResponseV2};
use lease_state::{FileId, LeaseKey, LeaseState};
use lease_wire::CreateAsk;

mod borne;
mod meaning;
mod reading;
mod text;
mod writing;

pub use borne::{ask_is_read_back, reply_is_read_back};
pub use reading::{create_laws, read_create_reply_v2, read_create_v2};
pub use text::CONTEXTS_LIMIT;
pub use writing::{
    fill_create_ask_v2, fill_create_reply_v2, first_version_laws, write_create_ask_v2,
    write_create_reply_v2, written_laws,
};

/// What version 2 adds to a lease context (MS-SMB2 2.2.13.2.10, 2.2.14.2.11).
#[derive(Clone, Copy, Debug, PartialEq, Eq)]
pub struct SecondVersion {
    /// ParentLeaseKey, where SMB2_LEASE_FLAG_PARENT_LEASE_KEY_SET says that it is set: the key of the parent folder's lease.
    pub parent: Option<LeaseKey>,
    /// In a request the epoch that the client knows, in a response that of the lease.
    pub epoch: u16,
}

/// `RqLs` of a request, of either version.
#[derive(Clone, Copy, Debug, PartialEq, Eq)]
pub struct LeaseAsk {
    pub key: LeaseKey,
    /// The state that is wanted, which may be one that is never granted.
    pub state: LeaseState,
    /// What version 2 adds; `None` where the context is of version 1.
    pub second: Option<SecondVersion>,
}

/// `RqLs` of a response, of either version.
#[derive(Clone, Copy, Debug, PartialEq, Eq)]
pub struct LeaseAnswer {
    pub key: LeaseKey,
    /// The state that the lease has.
    pub state: LeaseState,
    /// SMB2_LEASE_FLAG_BREAK_IN_PROGRESS: a break of the lease is in progress.
    pub breaking: bool,
    /// What version 2 adds; `None` where the context is of version 1.
    pub second: Option<SecondVersion>,
}

/// A durable open that is asked for.
#[derive(Clone, Copy, Debug, PartialEq, Eq)]
pub enum DurableAsk {
    /// `DHnQ`
    First,
    /// `DH2Q`
    Second(DurableRequestV2),
}

/// A durable open that is granted.
#[derive(Clone, Copy, Debug, PartialEq, Eq)]
pub enum DurableAnswer {
    /// `DHnQ`
    First,
    /// `DH2Q`
    Second(DurableResponseV2),
}

/// A durable open that is to be connected again.
#[derive(Clone, Copy, Debug, PartialEq, Eq)]
pub enum Reconnect {
    /// `DHnC`: the FileId's Persistent part.
    First(FileId),
    /// `DH2C`
    Second(DurableReconnectV2),
}

/// What the create contexts of a CREATE request ask for, in either version (MS-SMB2 2.2.13.2).
#[derive(Clone, Copy, Debug, PartialEq, Eq)]
pub struct CreateAskV2 {
    pub lease: Option<LeaseAsk>,
    pub durable: Option<DurableAsk>,
    pub reconnect: Option<Reconnect>,
}

/// What the create contexts of a CREATE response grant, in either version (MS-SMB2 2.2.14.2).
#[derive(Clone, Copy, Debug, PartialEq, Eq)]
pub struct CreateAnswerV2 {
    pub lease: Option<LeaseAnswer>,
    pub durable: Option<DurableAnswer>,
}

impl Reconnect {
    /// The open that is to be connected again: the FileId's Persistent part.
    pub fn file_id(self) -> FileId
        ensures { result.0 ≡ file_id_in (reconnect_view self) }
    {
        match self {
            Reconnect::First(file_id) => file_id,
            Reconnect::Second(reconnect) => FileId(reconnect.file_id.persistent),
        }
    }
}

impl CreateAskV2 {
    /// Whether its durable contexts may stand together: there is one at most, or `DHnQ` with `DHnC` (MS-SMB2 3.3.5.9.7).
    /// [`read_create_v2`] refuses the others.
    pub fn goes_together(&self) -> bool
        ensures { result ≡ go_together (ask_of self.now).durable (ask_of self.now).reconnect }
    {
        match (self.durable, self.reconnect) {
            (Some(DurableAsk::First), Some(Reconnect::First(_))) => true,
            (Some(_), Some(_)) => false,
            _ => true,
        }
    }

    /// What a lease manager takes: the same request without what version 2 adds, which decides nothing of who may cache
    /// what.
    pub fn plain(&self) -> CreateAsk
        ensures { first.ask_of result ≡ plain_of (ask_of self.now) }
    {
        CreateAsk {
            lease: plain_lease(self.lease),
            durable: self.durable.is_some(),
            reconnect: plain_reconnect(self.reconnect),
        }
    }
}

fn plain_lease(lease: Option<LeaseAsk>) -> Option<(LeaseKey, LeaseState)>
    ensures { option_map first.asked_view result ≡ option_map plain_lease (option_map asked_lease lease) }
{
    match lease {
        Some(lease) => Some((lease.key, lease.state)),
        None => None,
    }
}

fn plain_reconnect(reconnect: Option<Reconnect>) -> Option<FileId>
    ensures { option_map (λ file_id. file_id.0) result ≡ option_map file_id_in (option_map reconnect_view reconnect) }
{
    match reconnect {
        Some(reconnect) => Some(reconnect.file_id()),
        None => None,
    }
}
