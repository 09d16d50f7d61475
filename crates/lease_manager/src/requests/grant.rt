ghost use Rattle.std.specs.Prelude.{◌≡◌, ◌+◌, ◌<◌, ◌^◌, ◌||◌, false, not, OnOk, Some};
ghost use Rattle.lease_model.specs.server.Findings.{is_leased_elsewhere};
ghost use Rattle.lease_model.specs.server.Naming.{own_key};
ghost use Rattle.std.specs.Option.{option_map};
ghost use Rattle.lease_model.specs.server.Grant as rules;
ghost use Rattle.lease_model.specs.server.State.{has_lease};
ghost use Rattle.lease_state.specs.Rules.{is_as_free};
ghost use Rattle.lease_state.specs.State.{granted_form_of, is_state_within, state_of};
ghost use Rattle.lease_manager.specs.Leases.{lease_of};
ghost use Rattle.lease_manager.specs.Outs.{lease_told, progress_of};
ghost use Rattle.lease_manager.specs.Requests.{ask_of, lease_asked, request_like};
ghost use Rattle.lease_model.specs.messages.Requests as requests;
ghost use Rattle.lease_manager.specs.Table.{server_of};

use crate::outs::Outs;
use crate::tables::Tables;
use crate::values::decision::CreateAnswer;
use crate::values::key::LeaseName;
use crate::values::lease::HeldLease;
use crate::values::number::{ClientNo, FileNo};
use crate::values::open::OpenEntry;
use crate::values::request::{Ask, CreateAsk};
use lease_state::{Access, FileId, LeaseKey, LeaseState, Memory, Rise, Share, Status};

/// A create that is ready, with its client.
#[derive(Clone, Copy, Debug)]
pub struct Opening {
    pub client: ClientNo,
    pub file: FileNo,
    pub access: Access,
    pub share: Share,
    pub ask: CreateAsk,
}

impl Opening {
    // What its client asked.
    fn as_ask(&self) -> Ask
        ensures { request_like result ≡ requests.FileRequest.Create self.now.file.0 self.now.access self.now.share
            (Some (ask_of self.now.ask)) }
    {
        Ask::Create {
            file: self.file,
            access: self.access,
            share: self.share,
            ask: self.ask,
        }
    }
}

/// Grants a new open. FileIds are 1, 2, 3 and so on, never used again (profile); after the last
/// there is no grant.
///
/// # Errors
///
/// `Memory` where there is none left.
// docs/DECISIONS.md: "A lease belongs to one file".
#[tactic(auto, unfolding(lease_model::specs::values::Limits::last_file_id))]
pub fn grant(tables: &mut Tables, outs: &mut Outs, opening: Opening) -> Result<(), Memory>
    requires { is_leased_elsewhere (server_of tables.old)
        (own_key opening.client.0 (option_map lease_asked opening.ask.lease)) opening.file.0 ≡ false }
    ensures step { OnOk result (progress_of tables.new outs.new
        ≡ rules.granted opening.client.0 opening.file.0 opening.access opening.share
        (option_map lease_asked opening.ask.lease) opening.ask.durable (progress_of tables.old outs.old)) }
    ensures queues { OnOk result (tables.new.queues ≡ tables.old.queues) }
{
    if tables.last_id() == u64::MAX {
        return outs.refuse(
            opening.client,
            opening.as_ask(),
            Status::InsufficientResources,
        );
    }
    let lease = lease_after(tables, opening.client, opening.file, opening.ask.lease);
    grant_with(tables, outs, opening, lease)
}

// Grants a new open with this lease.
// docs/DECISIONS.md: "A durable grant looks at the lease's state alone".
#[tactic(auto)]
fn grant_with(
    tables: &mut Tables,
    outs: &mut Outs,
    opening: Opening,
    lease: HeldLease,
) -> Result<(), Memory>
    requires next { (server_of tables.old).last_id + 1 < 2 ^ 64 }
    requires home { is_leased_elsewhere (server_of tables.old)
        (own_key opening.client.0 (option_map lease_asked opening.ask.lease)) opening.file.0 ≡ false }
    ensures step { OnOk result (progress_of tables.new outs.new
        ≡ rules.granted_with opening.client.0 opening.file.0 opening.access opening.share
        (option_map lease_asked opening.ask.lease) opening.ask.durable (lease_of lease)
        (progress_of tables.old outs.old)) }
    ensures queues { OnOk result (tables.new.queues ≡ tables.old.queues) }
{
    let Opening {
        client,
        file,
        access,
        share,
        ask,
    } = opening;
    let durable = ask.durable && lease.state.caches_handles();
    let file_id = FileId(tables.last_id() + 1);
    let one = OpenEntry {
        file_id,
        client,
        file,
        lease_key: key_bytes(ask.lease),
        access,
        share,
        durable,
        connected: true,
    };
    tables.open(one, lease)?;
    outs.opened(file, client)?;
    let answer = CreateAnswer {
        lease: lease_given(ask.lease, lease),
        durable,
    };
    outs.created(client, file, file_id, answer)
}

// The key in an RqLs context.
fn key_bytes(asked: Option<(LeaseKey, LeaseState)>) -> Option<LeaseKey>
    ensures { option_map (λ key. key.0) result ≡ rules.asked_key (option_map lease_asked asked) }
{
    match asked {
        Some((bytes, _)) => Some(bytes),
        None => None,
    }
}

// The RqLs context of the reply (MS-SMB2 2.2.14.2.10).
fn lease_given(
    asked: Option<(LeaseKey, LeaseState)>,
    lease: HeldLease,
) -> Option<(LeaseKey, LeaseState, bool)>
    ensures { option_map lease_told result ≡ rules.lease_given (option_map lease_asked asked) (lease_of lease) }
{
    match asked {
        Some((bytes, _)) => Some((bytes, lease.state, lease.is_breaking())),
        None => None,
    }
}

// The lease after a grant; none for a create without an RqLs context.
fn lease_after(
    tables: &Tables,
    client: ClientNo,
    file: FileNo,
    asked: Option<(LeaseKey, LeaseState)>,
) -> HeldLease
    ensures { lease_of result
        ≡ rules.lease_after (server_of tables.now) client.0 file.0 (option_map lease_asked asked) }
{
    match asked {
        Some((bytes, want)) => lease_granted(tables, LeaseName { client, bytes }, file, want),
        None => HeldLease::none(),
    }
}

// One that is breaking stays; one within the granted form of the want, a new one too, becomes what is
// offered where it may; any other stays (profile).
#[tactic(auto)]
fn lease_granted(tables: &Tables, key: LeaseName, file: FileNo, want: LeaseState) -> HeldLease
    ensures { lease_of result ≡ rules.lease_granted (server_of tables.now) key file.0 (state_of want) }
{
    let lease = tables.lease(key);
    if lease.is_breaking() || !lease.state.is_within(want.granted_form()) {
        return lease;
    }
    let state = offered(tables, key, file, want);
    if !may_rise(tables, key, state, want) {
        return lease;
    }
    HeldLease {
        state,
        broken_to: None,
    }
}

// A lease becomes what it is offered, or, by the rule, does so only where it is new or all of the want is
// offered.
fn may_rise(tables: &Tables, key: LeaseName, offer: LeaseState, want: LeaseState) -> bool
    ensures { result ≡ (is_as_free (server_of tables.now).rules.rise || not (has_lease (server_of tables.now) key)
        || is_state_within (granted_form_of (state_of want)) (state_of offer)) }
{
    tables.rules().rise == Rise::AsFree
        || !tables.has_lease(key)
        || want.granted_form().is_within(offer)
}

// What a key is offered: nothing where its timer ran out (profile).
// docs/DECISIONS.md: "Expired keys count in a grant only".
#[tactic(auto)]
fn offered(tables: &Tables, key: LeaseName, file: FileNo, want: LeaseState) -> LeaseState
    ensures { state_of result ≡ rules.offered (server_of tables.now) key file.0 (state_of want) }
{
    if tables.is_expired(key) {
        LeaseState::NONE
    } else {
        tables.allowed(Some(key), file, want)
    }
}

/// Connects a durable open again (MS-SMB2 3.3.5.9.7): nothing is opened, and the lease is reported
/// as it stands.
///
/// # Errors
///
/// `Memory` where there is none left.
#[tactic(auto)]
pub fn reconnect(
    tables: &mut Tables,
    outs: &mut Outs,
    client: ClientNo,
    file: FileNo,
    asked: Option<(LeaseKey, LeaseState)>,
    file_id: FileId,
) -> Result<(), Memory>
    ensures step { OnOk result (progress_of tables.new outs.new
        ≡ rules.reconnected client.0 file.0 (option_map lease_asked asked) file_id.0
        (progress_of tables.old outs.old)) }
    ensures queues { OnOk result (tables.new.queues ≡ tables.old.queues) }
{
    let lease = standing_lease(tables, client, asked);
    tables.connect_again(file_id)?;
    let answer = CreateAnswer {
        lease: lease_given(asked, lease),
        durable: false,
    };
    outs.created(client, file, file_id, answer)
}

// The lease of the key that a create names.
fn standing_lease(
    tables: &Tables,
    client: ClientNo,
    asked: Option<(LeaseKey, LeaseState)>,
) -> HeldLease
    ensures { lease_of result ≡ rules.standing_lease (server_of tables.now) client.0 (option_map lease_asked asked) }
{
    match asked {
        Some((bytes, _)) => tables.lease(LeaseName { client, bytes }),
        None => HeldLease::none(),
    }
}
