ghost use Rattle.std.specs.Prelude.{◌≡◌, IfSome, None};
ghost use Rattle.std.specs.Option.{option_map};
ghost use Rattle.client_versions.specs.Kept.{key_bytes, layer_of};
ghost use Rattle.client_versions.specs.Rows as rows;
ghost use Rattle.machines_c.specs.Values.{key_given};
ghost use Rattle.machines_c.specs.translation.Layers.{Becomes, Stays};
ghost use Rattle.machines_c.specs.translation.Messages.{HasAsked};
ghost use Rattle.machines_c.specs.handles.Outcomes.{code_of};
ghost use Rattle.machines_c.specs.versions.Messages.{message_fields};
ghost use Rattle.lease_wire.specs.declared.create.Direction.TheVariants.{Request};
ghost use Rattle.lease_wire_v2.specs.Canonical.{canonical_text};
ghost use Rattle.lease_wire_v2.specs.Views as views;

use crate::client::values::ClientGuid;
use crate::handles::Outcome;
use crate::translation::handle::ClientVersionsHandle;
use crate::translation::translating::Translating;
use crate::values::MaybeKey;
use crate::versions::messages::MessageFields;
use capture_wire::Guid;
use lease_state::{FileId, LeaseKey};
use lease_wire::read_create;
use lease_wire_v2::{CreateAskV2, fill_create_ask_v2};
use std::alloc::Global;

impl MessageFields {
    // The create contexts of a request.
    fn of_ask(ask: &CreateAskV2) -> MessageFields
        ensures { result ≡ message_fields (canonical_text Request (views.ask_of ask.now)) }
    {
        let mut bytes = [0; 204];
        let length = fill_create_ask_v2(ask, &mut bytes) as u32;
        MessageFields { bytes, length }
    }
}

impl Translating {
    // What is sent for these contexts of the machine.
    fn ask(
        &self,
        parent: Option<LeaseKey>,
        guid: Guid,
        contexts: &[u8],
        out: &mut MessageFields,
    ) -> Outcome
        ensures { HasAsked (option_map key_bytes parent) guid.0 contexts.now out.old out.new (code_of result)
            (layer_of self.now.versions) }
    {
        let Ok(ask) = read_create(contexts) else {
            return Outcome::Damaged;
        };
        *out = MessageFields::of_ask(&self.versions.ask(&ask, parent, guid));
        Outcome::Done
    }
}

/// The create contexts that are sent for those of a request of the client's machine (MS-SMB2 2.2.13.2): in version 2, with the
/// epoch that is known of the lease, with this parent of the file's folder where there is one, and with this CreateGuid where the
/// open is to be durable; a reconnect has the CreateGuid of its open.
///
/// Returns 0; 3 where the handle holds nothing; 5 where the contexts have a fault. But for 0 nothing is written.
#[unsafe(no_mangle)]
pub extern "C" fn smblease_client_versions_ask(
    alloc: Global,
    versions: &mut ClientVersionsHandle,
    guid: &ClientGuid,
    parent: &MaybeKey,
    contexts: &[u8],
    out: &mut MessageFields,
) -> u32
    ensures asked { Stays (HasAsked (key_given parent.now) guid.now.bytes contexts.now out.old out.new result)
        versions.old.held versions.new.held }
    ensures none { versions.old.held ≡ None → (result ≡ 3) × (versions.new.held ≡ None) × (out.new ≡ out.old) }
{
    match versions.take(alloc) {
        None => Outcome::Nothing.code(),
        Some(translating) => {
            let outcome = translating.ask(parent.key(), Guid(guid.bytes), contexts, out);
            versions.put(alloc, translating);
            outcome.code()
        }
    }
}

/// The open of this FileId is closed, or the client's machine has given it up: its CreateGuid is forgotten.
///
/// Returns 0; 3 where the handle holds nothing.
#[unsafe(no_mangle)]
pub extern "C" fn smblease_client_versions_closed(
    alloc: Global,
    versions: &mut ClientVersionsHandle,
    file_id: u64,
) -> u32
    ensures closed { Becomes (rows.closed file_id) versions.old.held versions.new.held }
    ensures some { IfSome versions.old.held (λ held. result ≡ 0) }
    ensures none { versions.old.held ≡ None → (result ≡ 3) × (versions.new.held ≡ None) }
{
    match versions.take(alloc) {
        None => Outcome::Nothing.code(),
        Some(mut translating) => {
            translating.versions.closed(FileId(file_id));
            versions.put(alloc, translating);
            Outcome::Done.code()
        }
    }
}
