ghost use Rattle.std.specs.Prelude.{◌≡◌, ◌<◌, ◌^◌, length, true, IfSome, Ok};
ghost use Rattle.std.specs.Option.{option_map};
ghost use Rattle.lease_wire.specs.declared.create.Direction.TheVariants.{Request, Reply};
ghost use Rattle.lease_wire_v2.specs.Canonical.{IsBorneSecond, IsBorneLease, IsBorneDurable, IsBorneId, canonical_text};
ghost use Rattle.lease_wire_v2.specs.DurableData.{reconnect_of, IsBorneReconnect};
ghost use Rattle.lease_wire_v2.specs.Gathering.{value_of};
ghost use Rattle.lease_wire_v2.specs.Names.{is_directed, go_together};
ghost use Rattle.lease_wire_v2.specs.Views.{second_of, asked_lease, lease_view_of, asked_durable, granted_durable};
ghost use Rattle.lease_wire_v2.specs.Views.{reconnect_view, ask_of, answer_of};

use crate::create::{
    CreateAnswerV2, CreateAskV2, DurableAnswer, DurableAsk, LeaseAnswer, LeaseAsk, Reconnect,
    SecondVersion,
};
use capture_wire::{DurableReconnectV2, DurableRequestV2, DurableResponseV2, Guid, Smb2FileId};
use lease_state::{FileId, LeaseKey};

// The types of the fields bear what the laws of the canonical text ask for. These functions do nothing.
fn key_is_borne(key: LeaseKey)
    ensures { length key.0 ≡ 16 }
{}

fn parent_is_borne(parent: Option<LeaseKey>)
    ensures { IfSome (option_map (λ key. key.0) parent) (λ key. length key ≡ 16) }
{
    match parent {
        Some(key) => key_is_borne(key),
        None => {}
    }
}

fn second_is_borne(second: SecondVersion)
    ensures { IsBorneSecond (second_of second) }
{
    parent_is_borne(second.parent);
}

fn any_second_is_borne(second: Option<SecondVersion>)
    ensures { IfSome (option_map second_of second) IsBorneSecond }
{
    match second {
        Some(second) => second_is_borne(second),
        None => {}
    }
}

fn lease_ask_is_borne(lease: LeaseAsk)
    ensures { IsBorneLease Request (asked_lease lease) }
{
    key_is_borne(lease.key);
    any_second_is_borne(lease.second);
}

fn any_lease_ask_is_borne(lease: Option<LeaseAsk>)
    ensures { IfSome (option_map asked_lease lease) (IsBorneLease Request) }
{
    match lease {
        Some(lease) => lease_ask_is_borne(lease),
        None => {}
    }
}

fn lease_answer_is_borne(lease: LeaseAnswer)
    ensures { IsBorneLease Reply (lease_view_of lease) }
{
    key_is_borne(lease.key);
    any_second_is_borne(lease.second);
}

fn any_lease_answer_is_borne(lease: Option<LeaseAnswer>)
    ensures { IfSome (option_map lease_view_of lease) (IsBorneLease Reply) }
{
    match lease {
        Some(lease) => lease_answer_is_borne(lease),
        None => {}
    }
}

fn request_is_borne(durable: DurableRequestV2)
    ensures timeout { durable.timeout < 2 ^ 32 }
    ensures create_guid { length durable.create_guid.0 ≡ 16 }
{}

fn response_is_borne(durable: DurableResponseV2)
    ensures { durable.timeout < 2 ^ 32 }
{}

fn durable_ask_is_borne(durable: Option<DurableAsk>)
    ensures borne { IfSome (option_map asked_durable durable) IsBorneDurable }
    ensures directed { IfSome (option_map asked_durable durable) (λ durable. is_directed Request durable ≡ true) }
{
    match durable {
        Some(DurableAsk::Second(request)) => request_is_borne(request),
        Some(DurableAsk::First) | None => {}
    }
}

fn durable_answer_is_borne(durable: Option<DurableAnswer>)
    ensures borne { IfSome (option_map granted_durable durable) IsBorneDurable }
    ensures directed { IfSome (option_map granted_durable durable) (λ durable. is_directed Reply durable ≡ true) }
{
    match durable {
        Some(DurableAnswer::Second(response)) => response_is_borne(response),
        Some(DurableAnswer::First) | None => {}
    }
}

fn id_is_borne(file_id: Smb2FileId)
    ensures persistent { file_id.persistent < 2 ^ 64 }
    ensures volatile { file_id.volatile < 2 ^ 64 }
{}

fn guid_is_borne(guid: Guid)
    ensures { length guid.0 ≡ 16 }
{}

fn second_reconnect_is_borne(reconnect: DurableReconnectV2)
    ensures { IsBorneReconnect (reconnect_of reconnect) }
{
    id_is_borne(reconnect.file_id);
    guid_is_borne(reconnect.create_guid);
}

fn first_reconnect_is_borne(file_id: FileId)
    ensures { file_id.0 < 2 ^ 64 }
{}

fn reconnect_is_borne(reconnect: Option<Reconnect>)
    ensures { IfSome (option_map reconnect_view reconnect) IsBorneId }
{
    match reconnect {
        Some(Reconnect::First(file_id)) => first_reconnect_is_borne(file_id),
        Some(Reconnect::Second(reconnect)) => second_reconnect_is_borne(reconnect),
        None => {}
    }
}

/// The canonical text of each request whose durable contexts go together is read back. Does nothing.
pub fn ask_is_read_back(ask: CreateAskV2)
    ensures { go_together (ask_of ask).durable (ask_of ask).reconnect ≡ true
        → value_of Request (canonical_text Request (ask_of ask)) ≡ Ok (ask_of ask) }
{
    any_lease_ask_is_borne(ask.lease);
    durable_ask_is_borne(ask.durable);
    reconnect_is_borne(ask.reconnect);
}

/// The canonical text of each response is read back. Does nothing.
pub fn reply_is_read_back(answer: CreateAnswerV2)
    ensures { value_of Reply (canonical_text Reply (answer_of answer)) ≡ Ok (answer_of answer) }
{
    any_lease_answer_is_borne(answer.lease);
    durable_answer_is_borne(answer.durable);
}
