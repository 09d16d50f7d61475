use crate::values::number::{ClientNo, Tag};
use lease_state::{FileId, LeaseKey, LeaseState, Status};

/// What a create is answered (MS-SMB2 2.2.14.2).
#[derive(Clone, Copy, Debug, PartialEq, Eq)]
pub struct CreateAnswer {
    /// Of an open under a lease key: the key, the state that the lease has, and whether a break of it is in progress.
    pub lease: Option<(LeaseKey, LeaseState, bool)>,
    /// The open is durable.
    pub durable: bool,
}

/// The notice of a lease break (MS-SMB2 2.2.23.2).
#[derive(Clone, Copy, Debug, PartialEq, Eq)]
pub struct BreakNotice {
    /// The client has to acknowledge it.
    pub ack_required: bool,
    /// The key of the lease.
    pub key: LeaseKey,
    /// The state that the lease had.
    pub current: LeaseState,
    /// The state that it is to have.
    pub lowered: LeaseState,
}

/// What a host is to do, at its place in the order of the decisions of a call.
#[derive(Clone, Copy, Debug, PartialEq, Eq, Drop)]
pub enum Decision {
    /// The create is answered: its file is open under this FileId (MS-SMB2 3.3.5.9).
    Opened {
        client: ClientNo,
        tag: Tag,
        file_id: FileId,
        answer: CreateAnswer,
    },
    /// The read or the write is done now, and answered.
    GoesOn {
        client: ClientNo,
        tag: Tag,
    },
    /// The close is done, and answered (MS-SMB2 3.3.5.10).
    Closed {
        client: ClientNo,
        tag: Tag,
    },
    /// The request is answered with this status.
    Refused {
        client: ClientNo,
        tag: Tag,
        status: Status,
    },
    /// The request waits for a lease break: a decision under its tag follows later (MS-SMB2 3.3.4.2).
    Waits {
        client: ClientNo,
        tag: Tag,
    },
    /// The request that waited was taken back (MS-SMB2 3.3.5.16).
    Withdrawn {
        client: ClientNo,
        tag: Tag,
    },
    /// The client is sent the notice of a break (MS-SMB2 3.3.4.7).
    Breaks {
        client: ClientNo,
        notice: BreakNotice,
    },
    /// The acknowledgment is answered: the lease of the key has this state (MS-SMB2 3.3.5.22.2).
    Acknowledged {
        client: ClientNo,
        key: LeaseKey,
        state: LeaseState,
    },
    /// The acknowledgment is answered with this status.
    NotAcknowledged {
        client: ClientNo,
        status: Status,
    },
    /// The open of this FileId is no more, though its client didn't close it (profile).
    Ended {
        file_id: FileId,
    },
    /// The open of this FileId waits for its client from now on: its timer is started (MS-SMB2 3.3.7.1).
    LeftBehind {
        file_id: FileId,
    },
}
