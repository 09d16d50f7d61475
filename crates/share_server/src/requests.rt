ghost use Rattle.std.specs.Prelude.{◌≡◌, ℕ, List, [], ◌∷◌, ◌++◌, OnOk};
ghost use Rattle.lease_manager.specs.Outs.{answer_told};
ghost use Rattle.lease_model.specs.messages.Requests.FileRequest.{Read, Write};
ghost use Rattle.lease_model.specs.messages.Replies.{Out};
ghost use Rattle.lease_model.specs.server.Progress.{refusal_of};
ghost use Rattle.lease_model.specs.values.Tables.{numbered};
ghost use Rattle.manager_model.specs.Hosting as model;
ghost use Rattle.share_server.specs.Requests.{file_request_of};
ghost use Rattle.share_server.specs.Table.{handles_in, hosted};

use crate::files::Files;
use crate::handles::Handles;
use crate::outs::Outs;
use crate::values::request::FileRequest;
use lease_manager::CreateAnswer;
use lease_state::{Bytes, ClientNo, FileId, Memory, Patch, Status};

/// The create is answered: its file is open under this FileId (MS-SMB2 3.3.5.9).
///
/// # Errors
///
/// `Memory` where there is none left.
pub fn open(
    handles: &mut Handles,
    outs: &mut Outs,
    client: ClientNo,
    fid: FileId,
    answer: CreateAnswer,
    request: FileRequest,
) -> Result<(), Memory>
    ensures { OnOk result ((contents : ℕ → List ℕ) → hosted contents (handles_in handles.new) outs.new
        ≡ model.opened_as client.0 fid.0 (answer_told answer) (file_request_of request)
        (hosted contents (handles_in handles.old) outs.old)) }
{
    if let FileRequest::Create { file, ask, .. } = request {
        if ask.reconnect.is_none() {
            handles.put(fid, file)?;
            outs.opened(file, client)?;
        }
        outs.created(client, file, fid, answer)?;
    }
    Ok(())
}

/// The read copies the bytes that are there, or the write puts its own over them (MS-SMB2 3.3.5.12, 3.3.5.13).
///
/// # Errors
///
/// `Memory` where there is none left.
pub fn go_on(
    files: &mut Files,
    handles: &Handles,
    outs: &mut Outs,
    client: ClientNo,
    request: FileRequest,
) -> Result<(), Memory>
    ensures { OnOk result (hosted (numbered [] files.new) (handles_in handles.now) outs.new
        ≡ model.gone_on_with client.0 (file_request_of request) (hosted (numbered [] files.old) (handles_in handles.now) outs.old)) }
{
    match request {
        FileRequest::Read { fid } => read(files, handles, outs, client, fid),
        FileRequest::Write { fid, number, patch } => {
            write(files, handles, outs, client, fid, number, patch)
        }
        FileRequest::Create { .. } | FileRequest::Close { .. } => Ok(()),
    }
}

// A read gives the whole file (profile; MS-SMB2 3.3.5.12).
fn read(
    files: &Files,
    handles: &Handles,
    outs: &mut Outs,
    client: ClientNo,
    fid: FileId,
) -> Result<(), Memory>
    ensures { OnOk result (hosted (numbered [] files.now) (handles_in handles.now) outs.new
        ≡ model.gone_on_with client.0 (Read fid.0) (hosted (numbered [] files.now) (handles_in handles.now) outs.old)) }
{
    let bytes = Vec::from_slice(outs.alloc(), files.bytes(handles.file(fid)))?;
    outs.read_done(client, fid, Bytes::new(bytes))
}

// A write changes its file, and its reply follows directly (3.3.5.13).
fn write(
    files: &mut Files,
    handles: &Handles,
    outs: &mut Outs,
    client: ClientNo,
    fid: FileId,
    number: u64,
    patch: Patch,
) -> Result<(), Memory>
    ensures { OnOk result (hosted (numbered [] files.new) (handles_in handles.now) outs.new
        ≡ model.gone_on_with client.0 (Write fid.0 number patch) (hosted (numbered [] files.old) (handles_in handles.now) outs.old)) }
{
    let file = handles.file(fid);
    files.change(file, &patch)?;
    outs.changed(file, client, number, patch)?;
    outs.write_done(client, fid, number)
}

/// The close is answered (MS-SMB2 3.3.5.10).
///
/// # Errors
///
/// `Memory` where there is none left.
pub fn close(outs: &mut Outs, client: ClientNo, request: FileRequest) -> Result<(), Memory>
    ensures { OnOk result ((contents : ℕ → List ℕ) (handles : ℕ → ℕ) → hosted contents handles outs.new
        ≡ model.closed_as client.0 (file_request_of request) (hosted contents handles outs.old)) }
{
    if let FileRequest::Close { fid } = request {
        outs.closed(client, fid)?;
    }
    Ok(())
}

/// The request is answered with the status.
///
/// # Errors
///
/// `Memory` where there is none left.
pub fn refuse(
    outs: &mut Outs,
    client: ClientNo,
    request: FileRequest,
    status: Status,
) -> Result<(), Memory>
    ensures { OnOk result (outs.new ≡ outs.old ++ Out.Sent client.0 (refusal_of (file_request_of request) status) ∷ []) }
{
    outs.refuse(client, &request, status)?;
    Ok(())
}
