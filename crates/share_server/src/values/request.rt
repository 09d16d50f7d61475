ghost use Rattle.std.specs.Prelude.{◌≡◌};
ghost use Rattle.lease_manager.specs.Requests.{request_like};
ghost use Rattle.lease_model.specs.values.Patches.{is_within_limit};
ghost use Rattle.manager_model.specs.Bare.{bare_request};
ghost use Rattle.share_server.specs.Requests.{file_request_of};

use crate::values::number::file_no;
use lease_manager::{Ask, CreateAsk};
use lease_state::{Access, FILE_LIMIT, FileId, FileNo, Patch, Share};

/// A request about a file, with its create contexts read.
#[derive(Debug, Drop)]
pub enum FileRequest {
    Create {
        file: FileNo,
        access: Access,
        share: Share,
        ask: CreateAsk,
    },
    Read {
        fid: FileId,
    },
    Write {
        fid: FileId,
        number: u64,
        patch: Patch,
    },
    Close {
        fid: FileId,
    },
}

impl FileRequest {
    /// What of the request decides when it can be answered.
    pub fn ask(&self) -> Ask
        ensures { request_like result ≡ bare_request (file_request_of self.now) }
    {
        match self {
            FileRequest::Create {
                file,
                access,
                share,
                ask,
            } => Ask::Create {
                file: file_no(*file),
                access: *access,
                share: *share,
                ask: *ask,
            },
            FileRequest::Read { fid } => Ask::Read { fid: *fid },
            FileRequest::Write { fid, patch, .. } => Ask::Write {
                fid: *fid,
                fits: fits(patch),
            },
            FileRequest::Close { fid } => Ask::Close { fid: *fid },
        }
    }
}

// Whether the patch ends within the limit of a file.
fn fits(patch: &Patch) -> bool
    ensures { result ≡ is_within_limit patch.now }
{
    let count = patch.bytes.len();
    count <= FILE_LIMIT && patch.offset as usize <= FILE_LIMIT - count
}
