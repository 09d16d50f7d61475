ghost use Rattle.std.specs.Prelude.{◌≡◌, [], true, false, IsOk, OnOk, Some, None};
ghost use Rattle.std.specs.List.{list_any};
ghost use Rattle.lease_manager.specs.Coming.{applies, handled};
ghost use Rattle.lease_manager.specs.GivingUp.{extent_of};
ghost use Rattle.lease_manager.specs.LeftOpens.{numbers};
ghost use Rattle.lease_manager.specs.Outs.{handling_of};
ghost use Rattle.lease_manager.specs.Parting.{tag_numbers};
ghost use Rattle.lease_manager.specs.Requests.{request_like};
ghost use Rattle.lease_manager.specs.Table.{manager_of, queue_at, server_of};
ghost use Rattle.lease_model.specs.server.Acknowledge.{acknowledged};
ghost use Rattle.lease_model.specs.server.Calls as calls;
ghost use Rattle.lease_model.specs.server.Progress.{begun, opens_dropped};
ghost use Rattle.lease_model.specs.server.State.{has_key, is_breaking};
ghost use Rattle.lease_state.specs.State.{state_of};
ghost use Rattle.manager_model.specs.Handling as rules;

use crate::outs::Outs;
use crate::requests::acknowledge::acknowledge as judge;
use crate::requests::arrival::first_try;
use crate::requests::giving_up::break_others;
use crate::requests::passes::try_all;
use crate::tables::Tables;
use crate::told::Told;
use crate::values::closing::Closing;
use crate::values::coming::Coming;
use crate::values::extent::Extent;
use crate::values::key::LeaseName;
use crate::values::number::{ClientNo, FileNo, Tag};
use crate::values::request::Ask;
use lease_state::{FileId, LeaseState, Memory, Status};

/// The tag of what answers no request under a tag.
const NO_TAG: Tag = Tag(0);

/// Something comes whose decisions a host has to carry out.
pub fn handle(tables: &mut Tables, told: &mut Told, coming: Coming) -> Result<(), Memory>
    requires { told.old ≡ [] }
    ensures step { OnOk result (handling_of tables.new told.new ≡ handled coming (manager_of tables.old)) }
    ensures idle { applies coming tables.old ≡ false → IsOk result }
{
    match coming {
        Coming::Asks { client, tag, ask } => receive(tables, told, client, tag, ask),
        Coming::Acknowledges { key, state } => acknowledge(tables, told, key, state),
        Coming::IsMalformed(client) => acknowledge_malformed(tables, told, client),
        Coming::IsCut(client) => cut(tables, told, client),
        Coming::Expires(key) => expire(tables, told, key),
        Coming::Scavenges(fid) => scavenge(tables, told, fid),
        Coming::Withdraws { file, client, tag } => withdraw(tables, told, file, client, tag),
        Coming::GivesUp { own, file, extent } => give_up(tables, told, own, file, extent),
    }
}

/// A client connects.
#[tactic(auto, unfolding(manager_model::specs::Handling::join))]
pub fn join(tables: &mut Tables, client: ClientNo) -> Result<(), Memory>
    ensures step { OnOk result (handling_of tables.new [] ≡ rules.join (manager_of tables.old) client.0) }
    ensures idle { (server_of tables.old).present client.0 ≡ true → IsOk result }
{
    if !tables.is_present(client) {
        tables.join(client)?;
    }
    Ok(())
}

/// A request of a client comes.
#[tactic(auto, unfolding(manager_model::specs::Handling::receive))]
pub fn receive(
    tables: &mut Tables,
    told: &mut Told,
    client: ClientNo,
    tag: Tag,
    ask: Ask,
) -> Result<(), Memory>
    requires { told.old ≡ [] }
    ensures step { OnOk result (handling_of tables.new told.new
        ≡ rules.receive (manager_of tables.old) client.0 tag.0 (request_like ask)) }
    ensures idle { (server_of tables.old).present client.0 ≡ false → IsOk result }
{
    if tables.is_present(client) {
        arrive(tables, told, client, tag, ask)?;
    }
    Ok(())
}

// After a close what waits is tried again (profile).
fn arrive(
    tables: &mut Tables,
    told: &mut Told,
    client: ClientNo,
    tag: Tag,
    ask: Ask,
) -> Result<(), Memory>
    ensures { OnOk result (handling_of tables.new told.new
        ≡ rules.arrived tag.0 client.0 (request_like ask) (handling_of tables.old told.old)) }
{
    match ask {
        Ask::Close { .. } => {
            first_try(tables, told, client, tag, ask)?;
            try_all(tables, told)?;
            Ok(())
        }
        Ask::Create { .. } | Ask::Read { .. } | Ask::Write { .. } => {
            first_try(tables, told, client, tag, ask)?;
            Ok(())
        }
    }
}

/// A client acknowledges a break of its lease.
#[tactic(auto, unfolding(manager_model::specs::Handling::acknowledge))]
pub fn acknowledge(
    tables: &mut Tables,
    told: &mut Told,
    key: LeaseName,
    state: LeaseState,
) -> Result<(), Memory>
    requires { told.old ≡ [] }
    ensures step { OnOk result (handling_of tables.new told.new ≡ rules.acknowledge (manager_of tables.old) key.client
        (Some (record { key = key.bytes; state = state_of state }))) }
    ensures idle { (server_of tables.old).present key.client ≡ false → IsOk result }
{
    if tables.is_present(key.client) {
        judge_told(tables, told, key, state)?;
        try_all(tables, told)?;
    }
    Ok(())
}

/// An acknowledgment comes that can't be read.
#[tactic(auto, unfolding(manager_model::specs::Handling::acknowledge, lease_model::specs::server::Acknowledge::acknowledged))]
pub fn acknowledge_malformed(
    tables: &mut Tables,
    told: &mut Told,
    client: ClientNo,
) -> Result<(), Memory>
    requires { told.old ≡ [] }
    ensures step { OnOk result (handling_of tables.new told.new ≡ rules.acknowledge (manager_of tables.old) client.0 None) }
    ensures idle { (server_of tables.old).present client.0 ≡ false → IsOk result }
{
    if tables.is_present(client) {
        told.not_acknowledged(client, Status::InvalidParameter)?;
        try_all(tables, told)?;
    }
    Ok(())
}

// The acknowledgment is judged, and it is told how.
fn judge_told(
    tables: &mut Tables,
    told: &mut Told,
    key: LeaseName,
    state: LeaseState,
) -> Result<(), Memory>
    ensures { OnOk result (handling_of tables.new told.new ≡ rules.gone_on 0
        (acknowledged key.client (Some (record { key = key.bytes; state = state_of state })) (begun (server_of tables.old)))
        (handling_of tables.old told.old)) }
{
    let mut outs = Outs::new(tables.alloc());
    judge(tables, &mut outs, key, state)?;
    told.tell(NO_TAG, &outs)?;
    Ok(())
}

/// A client's connection is lost.
#[tactic(auto, unfolding(manager_model::specs::Handling::cut))]
pub fn cut(tables: &mut Tables, told: &mut Told, client: ClientNo) -> Result<(), Memory>
    requires { told.old ≡ [] }
    ensures step { OnOk result (handling_of tables.new told.new ≡ rules.cut (manager_of tables.old) client.0) }
    ensures idle { (server_of tables.old).present client.0 ≡ false → IsOk result }
{
    if tables.is_present(client) {
        lose(tables, told, client)?;
        try_all(tables, told)?;
    }
    Ok(())
}

// The client's opens that don't outlive its connection are closed, the others disconnected, and the connection and its
// requests that wait are forgotten.
fn lose(tables: &mut Tables, told: &mut Told, client: ClientNo) -> Result<(), Memory>
    ensures { OnOk result (handling_of tables.new told.new ≡ rules.lost client.0 (handling_of tables.old told.old)) }
{
    let named = tables.of_client(client)?;
    let parted = tables.part(&named)?;
    told.ended_all(&parted.ended)?;
    told.left_behind_all(&parted.left)?;
    tables.forget(client)?;
    Ok(())
}

/// The timer of a lease break runs out.
#[tactic(auto, unfolding(manager_model::specs::Handling::expire))]
pub fn expire(tables: &mut Tables, told: &mut Told, key: LeaseName) -> Result<(), Memory>
    requires { told.old ≡ [] }
    ensures step { OnOk result (handling_of tables.new told.new ≡ rules.expire (manager_of tables.old) key) }
    ensures idle { is_breaking ((server_of tables.old).leases key) ≡ false → IsOk result }
{
    if tables.lease(key).is_breaking() {
        end_lease(tables, told, key)?;
        try_all(tables, told)?;
    }
    Ok(())
}

// All opens of the lease are closed, and the key is expired.
fn end_lease(tables: &mut Tables, told: &mut Told, key: LeaseName) -> Result<(), Memory>
    ensures { OnOk result (handling_of tables.new told.new
        ≡ rules.at_server (calls.key_expired key (opens_dropped (has_key key) (begun (server_of tables.old)))).server
        (handling_of tables.old told.old)) }
{
    let ids = tables.close(Closing::Of(key))?;
    told.ended_all(&ids)?;
    tables.expire(key)?;
    Ok(())
}

/// The timer of a durable open runs out.
#[tactic(auto, unfolding(manager_model::specs::Handling::scavenge))]
pub fn scavenge(tables: &mut Tables, told: &mut Told, fid: FileId) -> Result<(), Memory>
    requires { told.old ≡ [] }
    ensures step { OnOk result (handling_of tables.new told.new ≡ rules.scavenge (manager_of tables.old) fid.0) }
    ensures idle { list_any (calls.is_left_behind fid.0) (server_of tables.old).opens ≡ false → IsOk result }
{
    if tables.has_left_behind(fid) {
        end_open(tables, told, fid)?;
        try_all(tables, told)?;
    }
    Ok(())
}

// The open that was left behind is closed.
fn end_open(tables: &mut Tables, told: &mut Told, fid: FileId) -> Result<(), Memory>
    ensures { OnOk result (handling_of tables.new told.new
        ≡ rules.at_server (opens_dropped (calls.is_left_behind fid.0) (begun (server_of tables.old))).server
        (handling_of tables.old told.old)) }
{
    let ids = tables.close(Closing::LeftBehind(fid))?;
    told.ended_all(&ids)?;
    Ok(())
}

/// A request that waits is taken back.
#[tactic(auto, unfolding(manager_model::specs::Handling::withdraw))]
pub fn withdraw(
    tables: &mut Tables,
    told: &mut Told,
    file: FileNo,
    client: ClientNo,
    tag: Tag,
) -> Result<(), Memory>
    requires { told.old ≡ [] }
    ensures step { OnOk result (handling_of tables.new told.new
        ≡ rules.withdraw (manager_of tables.old) file.0 client.0 tag.0) }
    ensures idle { list_any (rules.is_under client.0 tag.0) (queue_at tables.old.queues file.0) ≡ false → IsOk result }
{
    if tables.waits_under(file, client, tag) {
        take_back(tables, told, file, client, tag)?;
        try_all(tables, told)?;
    }
    Ok(())
}

// The request no longer waits.
fn take_back(
    tables: &mut Tables,
    told: &mut Told,
    file: FileNo,
    client: ClientNo,
    tag: Tag,
) -> Result<(), Memory>
    ensures { OnOk result (handling_of tables.new told.new
        ≡ rules.taken_back file.0 client.0 tag.0 (handling_of tables.old told.old)) }
{
    tables.withdraw(file, client, tag);
    told.withdrawn(client, tag)?;
    Ok(())
}

/// A client leaves some of its opens, and requests that wait, and stays connected.
#[tactic(auto, unfolding(manager_model::specs::Handling::leave))]
pub fn leave(
    tables: &mut Tables,
    told: &mut Told,
    client: ClientNo,
    file_ids: &[FileId],
    tags: &[Tag],
) -> Result<(), Memory>
    requires { told.old ≡ [] }
    ensures step { OnOk result (handling_of tables.new told.new
        ≡ rules.leave (manager_of tables.old) client.0 (numbers file_ids.now) (tag_numbers tags.now)) }
    ensures idle { (server_of tables.old).present client.0 ≡ false → IsOk result }
{
    if tables.is_present(client) {
        let_go(tables, told, client, file_ids, tags)?;
        try_all(tables, told)?;
    }
    Ok(())
}

// Of these opens those that don't outlive a connection are closed, and the others disconnected, and these requests are forgotten.
fn let_go(
    tables: &mut Tables,
    told: &mut Told,
    client: ClientNo,
    file_ids: &[FileId],
    tags: &[Tag],
) -> Result<(), Memory>
    ensures { OnOk result (handling_of tables.new told.new
        ≡ rules.left client.0 (numbers file_ids.now) (tag_numbers tags.now) (handling_of tables.old told.old)) }
{
    let named = tables.named(client, file_ids)?;
    let parted = tables.part(&named)?;
    told.ended_all(&parted.ended)?;
    told.left_behind_all(&parted.left)?;
    tables.leave(client, tags)?;
    Ok(())
}

/// Other keys on a file give up what they hold.
#[tactic(auto, unfolding(manager_model::specs::Handling::give_up))]
pub fn give_up(
    tables: &mut Tables,
    told: &mut Told,
    own: Option<LeaseName>,
    file: FileNo,
    extent: Extent,
) -> Result<(), Memory>
    requires { told.old ≡ [] }
    ensures step { OnOk result (handling_of tables.new told.new
        ≡ rules.give_up (manager_of tables.old) own file.0 (extent_of extent)) }
{
    break_others(tables, told, own, file, extent)?;
    try_all(tables, told)?;
    Ok(())
}
