use crate::values::number::{ClientNo, FileNo, Tag};
use crate::values::request::Ask;
use lease_state::{LeaseKey, LeaseState};

/// A lease, as a host lists it (MS-SMB2 3.3.1.12).
#[derive(Clone, Copy, Debug)]
pub struct ListedLease {
    /// Its client.
    pub client: ClientNo,
    /// Its key, which is the client's.
    pub key: LeaseKey,
    /// The file that its opens are on.
    pub file: FileNo,
    /// What it holds.
    pub state: LeaseState,
    /// While a break waits for its acknowledgment: what it is to hold.
    pub broken_to: Option<LeaseState>,
    /// How many opens it has, at least one.
    pub opens: u64,
}

/// A request that waits, as a host lists it (MS-SMB2 3.3.5.16).
#[derive(Clone, Copy, Debug)]
pub struct ListedRequest {
    /// The file that it waits on.
    pub file: FileNo,
    /// Its client.
    pub client: ClientNo,
    /// The tag under which it came.
    pub tag: Tag,
    /// What it asks.
    pub ask: Ask,
}
