ghost use Rattle.std.specs.Prelude.{◌≡◌, true, IfSome, OnOk};
ghost use Rattle.std.specs.Option.{option_map};
ghost use Rattle.lease_model.specs.server.Answers as rules;
ghost use Rattle.lease_model.specs.server.Findings.{connected_open};
ghost use Rattle.lease_manager.specs.Findings.{outcome_of, file_ready};
ghost use Rattle.lease_manager.specs.OneFile.{IsAbout, IsOpenOn};
ghost use Rattle.lease_manager.specs.Outs.{progress_of};
ghost use Rattle.lease_manager.specs.Requests.{lease_asked, patch_like, request_like};
ghost use Rattle.lease_model.specs.server.Attempt.Outcome.{Ready};
ghost use Rattle.lease_model.specs.server.Naming.{own_key};
ghost use Rattle.lease_model.specs.values.Patches.{is_within_limit};
ghost use Rattle.lease_manager.specs.Kept.{CanBeAnswered, IsCreateAtHome};
ghost use Rattle.lease_manager.specs.Table.{server_of};

use crate::outs::Outs;
use crate::requests::attempt::Outcome;
use crate::requests::grant::{Opening, grant, reconnect};
use crate::tables::Tables;
use crate::values::closing::Closing;
use crate::values::number::{ClientNo, FileNo};
use crate::values::request::Ask;
use lease_state::{FileId, Memory};

/// Ends a try that doesn't wait: the request is refused or answered.
///
/// # Errors
///
/// `Memory` where there is none left.
#[tactic(auto)]
pub fn conclude(
    tables: &mut Tables,
    outs: &mut Outs,
    client: ClientNo,
    ask: Ask,
    outcome: Outcome,
) -> Result<(), Memory>
    requires met { outcome_of outcome ≡ Ready → CanBeAnswered client.0 (request_like ask) (server_of tables.old) }
    requires about { IfSome (file_ready outcome)
        (λ file. IsAbout (server_of tables.old) file client.0 (request_like ask)) }
    ensures step { OnOk result (progress_of tables.new outs.new
        ≡ rules.concluded client.0 (request_like ask) (progress_of tables.old outs.old) (outcome_of outcome)) }
    ensures queues { OnOk result (tables.new.queues ≡ tables.old.queues) }
{
    match outcome {
        Outcome::Refused(status) => outs.refuse(client, ask, status),
        Outcome::Waits => Ok(()),
        Outcome::Ready(file) => answer(tables, outs, client, file, ask),
    }
}

// Answers a request about the file, which is ready.
#[tactic(auto, unfolding(lease_model::specs::server::Answers::answered))]
fn answer(
    tables: &mut Tables,
    outs: &mut Outs,
    client: ClientNo,
    file: FileNo,
    ask: Ask,
) -> Result<(), Memory>
    requires met { CanBeAnswered client.0 (request_like ask) (server_of tables.old) }
    requires about { IsAbout (server_of tables.old) file.0 client.0 (request_like ask) }
    ensures step { OnOk result (progress_of tables.new outs.new
        ≡ rules.answered client.0 (request_like ask) (progress_of tables.old outs.old)) }
    ensures queues { OnOk result (tables.new.queues ≡ tables.old.queues) }
{
    match ask {
        Ask::Create {
            file,
            access,
            share,
            ask,
        } => create(
            tables,
            outs,
            Opening {
                client,
                file,
                access,
                share,
                ask,
            },
        ),
        Ask::Read { fid } => read(tables, outs, client, file, fid),
        Ask::Write { fid, fits } => write(tables, outs, client, file, fid, fits),
        Ask::Close { fid } => close(tables, outs, client, fid),
    }
}

fn create(tables: &mut Tables, outs: &mut Outs, opening: Opening) -> Result<(), Memory>
    requires { IsCreateAtHome (own_key opening.client.0 (option_map lease_asked opening.ask.lease)) opening.file.0
        (option_map (λ file_id. file_id.0) opening.ask.reconnect) (server_of tables.old) }
    ensures step { OnOk result (progress_of tables.new outs.new
        ≡ rules.created opening.client.0 opening.file.0 opening.access opening.share
        (option_map lease_asked opening.ask.lease) opening.ask.durable
        (option_map (λ file_id. file_id.0) opening.ask.reconnect) (progress_of tables.old outs.old)) }
    ensures queues { OnOk result (tables.new.queues ≡ tables.old.queues) }
{
    match opening.ask.reconnect {
        Some(fid) => reconnect(
            tables,
            outs,
            opening.client,
            opening.file,
            opening.ask.lease,
            fid,
        ),
        None => grant(tables, outs, opening),
    }
}

// A read goes on (profile; MS-SMB2 3.3.5.12).
fn read(
    tables: &mut Tables,
    outs: &mut Outs,
    client: ClientNo,
    file: FileNo,
    fid: FileId,
) -> Result<(), Memory>
    requires { IsOpenOn (server_of tables.old) file.0 client.0 fid.0 }
    ensures step { OnOk result (progress_of tables.new outs.new
        ≡ rules.on_open (connected_open (server_of tables.old) client.0 fid.0)
        (λ file. rules.read_done client.0 file fid.0) (progress_of tables.old outs.old)) }
    ensures queues { OnOk result (tables.new.queues ≡ tables.old.queues) }
{
    outs.read_done(client, fid)
}

// A write goes on: it is told that its file changes, and its reply follows directly (3.3.5.13).
#[tactic(auto)]
fn write(
    tables: &mut Tables,
    outs: &mut Outs,
    client: ClientNo,
    file: FileNo,
    fid: FileId,
    fits: bool,
) -> Result<(), Memory>
    requires fits { is_within_limit (patch_like fits) ≡ true }
    requires about { IsOpenOn (server_of tables.old) file.0 client.0 fid.0 }
    ensures step { OnOk result (progress_of tables.new outs.new
        ≡ rules.on_open (connected_open (server_of tables.old) client.0 fid.0)
        (λ file. rules.changed client.0 file fid.0 0 (patch_like fits)) (progress_of tables.old outs.old)) }
    ensures queues { OnOk result (tables.new.queues ≡ tables.old.queues) }
{
    outs.changed(file, client)?;
    outs.write_done(client, fid)?;
    Ok(())
}

// An open is closed (3.3.5.10).
fn close(tables: &mut Tables, outs: &mut Outs, client: ClientNo, fid: FileId) -> Result<(), Memory>
    ensures step { OnOk result (progress_of tables.new outs.new
        ≡ rules.closed client.0 fid.0 (progress_of tables.old outs.old)) }
    ensures queues { OnOk result (tables.new.queues ≡ tables.old.queues) }
{
    tables.close(Closing::Named(fid))?;
    outs.close_done(client, fid)?;
    Ok(())
}
