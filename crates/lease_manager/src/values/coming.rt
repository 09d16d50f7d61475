use crate::values::extent::Extent;
use crate::values::key::LeaseName;
use crate::values::number::{ClientNo, FileNo, Tag};
use crate::values::request::Ask;
use lease_state::{FileId, LeaseState};

/// What comes to a manager, and is decided about.
#[derive(Clone, Copy, Debug)]
pub enum Coming {
    /// A client asks something of a file.
    Asks {
        client: ClientNo,
        tag: Tag,
        ask: Ask,
    },
    /// A client acknowledges a break of its lease.
    Acknowledges {
        key: LeaseName,
        state: LeaseState,
    },
    /// A client sends an acknowledgment that can't be read.
    IsMalformed(ClientNo),
    /// A client's connection is lost.
    IsCut(ClientNo),
    /// The timer of a lease break runs out.
    Expires(LeaseName),
    /// The timer of a durable open runs out.
    Scavenges(FileId),
    /// A request that waits is taken back.
    Withdraws {
        file: FileNo,
        client: ClientNo,
        tag: Tag,
    },
    /// Other keys on a file are to give up what they hold.
    GivesUp {
        own: Option<LeaseName>,
        file: FileNo,
        extent: Extent,
    },
}
