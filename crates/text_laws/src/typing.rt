ghost use Rattle.std.specs.Prelude.{◌<◌, ◌^◌};
ghost use Rattle.{text_laws.specs.Runs.IsTyped, hex.specs.Hex.IsBytes, lease_texts.specs.Tables.Each};

use lease_state::{Bytes, Patch};
use lease_world::Fact;

fn are_bytes(items: &[u8])
    ensures { IsBytes items.now }
{}

fn bytes_are_typed(bytes: &Bytes)
    ensures { IsBytes bytes.now }
{
    are_bytes(bytes.as_slice());
}

fn patch_is_typed(patch: &Patch)
    ensures offset { patch.now.offset < 2 ^ 32 }
    ensures bytes { IsBytes patch.now.bytes }
{
    let _offset = patch.offset;
    bytes_are_typed(&patch.bytes);
}

fn ordinal_is_typed(ordinal: u8)
    ensures { ordinal < 256 }
{}

fn number_is_typed(number: u64)
    ensures { number < 2 ^ 64 }
{}

fn fact_is_typed(fact: &Fact)
    ensures { IsTyped fact.now }
{
    match fact {
        Fact::Start(file, bytes) => {
            ordinal_is_typed(file.0);
            bytes_are_typed(bytes);
        }
        Fact::Joined(client)
        | Fact::Dropped(client)
        | Fact::Sent(client)
        | Fact::Took(client)
        | Fact::Strayed(client) => ordinal_is_typed(client.0),
        Fact::Expired(client, file)
        | Fact::Opened(file, client)
        | Fact::Believes(client, file, _) => {
            ordinal_is_typed(client.0);
            ordinal_is_typed(file.0);
        }
        Fact::Changed(file, client, number, patch) | Fact::Wrote(client, file, number, patch, _) =>
            {
                ordinal_is_typed(file.0);
                ordinal_is_typed(client.0);
                number_is_typed(*number);
                patch_is_typed(patch);
            }
        Fact::Settled(client, number, _) => {
            ordinal_is_typed(client.0);
            number_is_typed(*number);
        }
        Fact::CachedRead(client, file, bytes) => {
            ordinal_is_typed(client.0);
            ordinal_is_typed(file.0);
            are_bytes(bytes.as_slice());
        }
    }
}

/// The numbers and bytes of facts are those of their types. Reads them all, and does nothing with them.
pub fn facts_are_typed(facts: &[Fact])
    ensures { Each IsTyped facts.now }
{
    for fact in facts {
        fact_is_typed(fact);
    }
}
