ghost use Rattle.std.specs.Prelude.{◌≡◌, Ok, OnOk};
ghost use Rattle.lease_manager.specs.Lanes.{lane_like};
ghost use Rattle.lease_manager.specs.Outs.{handling_of};
ghost use Rattle.lease_manager.specs.Requests.{file_result, lease_asked, request_like};
ghost use Rattle.lease_manager.specs.Table.{server_of};
ghost use Rattle.lease_model.specs.server.Calls as calls;
ghost use Rattle.lease_model.specs.server.Findings.{connected_open};
ghost use Rattle.lease_model.specs.server.Lanes.{lane_of, lane_under};
ghost use Rattle.manager_model.specs.Handling as rules;
ghost use Rattle.std.specs.Option.{option_map};

use crate::outs::Outs;
use crate::requests::answer::conclude;
use crate::requests::trial::try_now;
use crate::tables::Tables;
use crate::told::Told;
use crate::values::number::{ClientNo, FileNo, Tag};
use crate::values::request::{Ask, Held, Lane};
use lease_state::{FileId, LeaseKey, LeaseState, Memory, Status};

/// A request is tried as it comes.
///
/// # Errors
///
/// `Memory` where there is none left.
#[tactic(auto)]
pub fn first_try(
    tables: &mut Tables,
    told: &mut Told,
    client: ClientNo,
    tag: Tag,
    ask: Ask,
) -> Result<(), Memory>
    ensures { OnOk result (handling_of tables.new told.new
        ≡ rules.first_tried tag.0 client.0 (request_like ask) (handling_of tables.old told.old)) }
{
    match file_asked(tables, client, ask) {
        Ok(file) => {
            try_on(tables, told, client, file, tag, ask)?;
            Ok(())
        }
        Err(status) => {
            told.refused(client, tag, status)?;
            Ok(())
        }
    }
}

// The file that the request is about, or the status that refuses it as it comes.
#[tactic(auto)]
fn file_asked(tables: &Tables, client: ClientNo, ask: Ask) -> Result<FileNo, Status>
    ensures { file_result result ≡ calls.file_asked (server_of tables.now) client.0 (request_like ask) }
{
    match ask {
        Ask::Create { file, .. } => {
            if tables.has_file(file) {
                Ok(file)
            } else {
                Err(Status::ObjectNameNotFound)
            }
        }
        Ask::Read { fid } => file_of_open(tables, client, fid),
        Ask::Write { fid, .. } => file_of_open(tables, client, fid),
        Ask::Close { fid } => file_of_open(tables, client, fid),
    }
}

fn file_of_open(tables: &Tables, client: ClientNo, fid: FileId) -> Result<FileNo, Status>
    ensures { file_result result
        ≡ calls.file_of_open (connected_open (server_of tables.now) client.0 fid.0) }
{
    match tables.open_file(client, fid) {
        Some(file) => Ok(file),
        None => Err(Status::FileClosed),
    }
}

/// The lane of a request, as it comes.
pub fn lane_of(tables: &Tables, client: ClientNo, ask: Ask) -> Lane
    ensures { lane_like result ≡ lane_of (server_of tables.now) client.0 (request_like ask) }
{
    match ask {
        Ask::Create { ask, .. } => lane_under(ask.lease),
        Ask::Read { fid } => tables.lane_of_open(client, fid),
        Ask::Write { fid, .. } => tables.lane_of_open(client, fid),
        Ask::Close { fid } => tables.lane_of_open(client, fid),
    }
}

// The lane of a create.
fn lane_under(asked: Option<(LeaseKey, LeaseState)>) -> Lane
    ensures { lane_like result ≡ lane_under (option_map lease_asked asked) }
{
    match asked {
        Some((key, _)) => Lane::Leased(key),
        None => Lane::Alone,
    }
}

// A request waits after an earlier one that it waits behind (profile), and else is tried.
fn try_on(
    tables: &mut Tables,
    told: &mut Told,
    client: ClientNo,
    file: FileNo,
    tag: Tag,
    ask: Ask,
) -> Result<(), Memory>
    ensures { OnOk result (handling_of tables.new told.new
        ≡ rules.arrived_before (rules.tagged_of (server_of tables.old) tag.0 client.0 (request_like ask))
        (handling_of tables.old told.old) (Ok file.0)) }
{
    let lane = lane_of(tables, client, ask);
    let one = Held {
        client,
        ask,
        lane,
        tag,
    };
    if one.is_behind(tables.rules(), tables.held(file)) {
        tables.hold(file, one)?;
        told.waits(client, tag)?;
        return Ok(());
    }
    let mut outs = Outs::new(tables.alloc());
    let outcome = try_now(tables, told, &mut outs, client, ask)?;
    if outcome.waits() {
        told.tell(tag, &outs)?;
        tables.hold(file, one)?;
        told.waits(client, tag)?;
        return Ok(());
    }
    conclude(tables, &mut outs, client, ask, outcome)?;
    told.tell(tag, &outs)?;
    Ok(())
}
