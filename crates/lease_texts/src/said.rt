//! Lines that are written: a word, and what the fields after it hold.

ghost use Rattle.std.specs.Prelude.{◌≡◌, ◌++◌, ◌∷◌, [], OnOk, map};
ghost use Rattle.lease_texts.specs.{Kinds.line, Lines.line_text, Requests.plain_text, Words.digits_word};
ghost use Rattle.lease_texts.specs.Written.{said_text, said_word, spoken_of, texts_behind, words_behind};
ghost use Rattle.hex.specs.Hex.{encode_lower};
ghost use Rattle.{std.specs.String.string_bytes, uuid.specs.Text.hyphenated_text, uuid.specs.Text.lower};

use crate::replies::push_reply;
use crate::requests::push_request;
use crate::status::status_word;
use crate::words::{
    access_word, digits_of, outcome_word, push_number, rules_word, share_word, state_letters,
};
use lease_client::Settlement;
use lease_state::{
    Access, ClientNo, FileId, FileNo, LeaseKey, LeaseState, Reply, Request, Rules, Share, Status,
};
use std::alloc::AllocError;
use uuid::Uuid;

// Adds a line by its word, and by its fields with what they hold.
macro_rules! line {
    ($text:expr, $name:literal $(, $field:ident: $value:expr)*) => {
        $crate::said::push_line($text, $name, &[$($crate::said::Said::$field($value)),*])
    };
}

// Adds a word behind a space, and fields of one word each.
macro_rules! plain {
    ($text:expr, $name:literal $(, $field:ident: $value:expr)*) => {
        $crate::said::push_plain($text, $name, &[$($crate::said::Said::$field($value)),*])
    };
}

pub(crate) use line;
pub(crate) use plain;

/// A field with what it holds.
#[derive(Clone, Copy, Debug)]
pub enum Said<'a> {
    Client(ClientNo),
    File(FileNo),
    FileId(FileId),
    Number(u64),
    Offset(u32),
    Bytes(&'a [u8]),
    Content(&'a [u8]),
    State(LeaseState),
    Access(Access),
    Share(Share),
    Rules(Rules),
    Way(bool),
    Outcome(Settlement),
    Guid(&'a [u8; 16]),
    Message(&'a [u8]),
    Durable(bool),
    Key(LeaseKey),
    Notification(&'a [u8]),
    Status(Status),
    Request(&'a Request),
    Reply(&'a Reply),
}

// The digits of bytes.
fn push_bytes(text: &mut String, bytes: &[u8]) -> Result<(), AllocError>
    ensures { OnOk result (string_bytes text.new ≡ string_bytes text.old ++ digits_word bytes.now) }
{
    let digits = digits_of(*text.allocator(), bytes)?;
    text.push_str(digits.as_str())
}

fn push_message(text: &mut String, message: &[u8]) -> Result<(), AllocError>
    ensures { OnOk result (string_bytes text.new ≡ string_bytes text.old ++ encode_lower message.now) }
{
    let digits = hex::encode(*text.allocator(), message)?;
    text.push_str(digits.as_str())
}

fn push_guid(text: &mut String, guid: &[u8; 16]) -> Result<(), AllocError>
    ensures { OnOk result (string_bytes text.new ≡ string_bytes text.old ++ hyphenated_text lower guid.now) }
{
    let mut buffer = [0; 36];
    let digits = Uuid::from_bytes(*guid)
        .hyphenated()
        .encode_lower(&mut buffer);
    text.push_str(digits)
}

// The word of a field that takes one, behind a space.
fn push_plain_field(text: &mut String, said: &Said<'_>) -> Result<(), AllocError>
    ensures { OnOk result (string_bytes text.new ≡ string_bytes text.old ++ 32 ∷ said_word said.now) }
{
    text.push_str(" ")?;
    match said {
        Said::Client(client) => push_number(text, u64::from(client.0)),
        Said::File(file) => push_number(text, u64::from(file.0)),
        Said::FileId(fid) => push_number(text, fid.0),
        Said::Number(number) => push_number(text, *number),
        Said::Offset(offset) => push_number(text, u64::from(*offset)),
        Said::Bytes(bytes) | Said::Content(bytes) => push_bytes(text, bytes),
        Said::State(state) => text.push_str(state_letters(*state)),
        Said::Access(access) => text.push_str(access_word(*access)),
        Said::Share(share) => text.push_str(share_word(*share)),
        Said::Rules(rules) => text.push_str(rules_word(*rules)),
        Said::Way(buffered) => text.push_str(if *buffered { "buffered" } else { "through" }),
        Said::Outcome(outcome) => text.push_str(outcome_word(*outcome)),
        Said::Guid(guid) => push_guid(text, guid),
        Said::Key(key) => push_message(text, key.0.as_slice()),
        Said::Message(message) | Said::Notification(message) => push_message(text, message),
        Said::Status(status) => text.push_str(status_word(*status)),
        Said::Durable(_) | Said::Request(_) | Said::Reply(_) => Ok(()),
    }
}

fn push_plain_fields(text: &mut String, said: &[Said<'_>]) -> Result<(), AllocError>
    ensures { OnOk result (string_bytes text.new ≡ string_bytes text.old ++ words_behind said.now) }
{
    for one in said {
        push_plain_field(text, one)?;
    }
    Ok(())
}

/// Adds a word and fields of one word each, with a space before each of them.
#[tactic(auto, using(crate::proofs::Written::plain_written))]
pub(crate) fn push_plain(text: &mut String, name: &str, said: &[Said<'_>]) -> Result<(), AllocError>
    ensures { OnOk result (string_bytes text.new
        ≡ string_bytes text.old ++ plain_text (line name.now (map spoken_of said.now))) }
{
    text.push_str(" ")?;
    text.push_str(name)?;
    push_plain_fields(text, said)
}

// A field with what stands before its words.
#[tactic(auto, using(crate::proofs::Written::said_plainly))]
fn push_field(text: &mut String, said: &Said<'_>) -> Result<(), AllocError>
    ensures { OnOk result (string_bytes text.new ≡ string_bytes text.old ++ said_text said.now) }
{
    match said {
        Said::Durable(durable) => text.push_str(if *durable { " durable" } else { "" }),
        Said::Request(asked) => push_request(text, asked),
        Said::Reply(told) => push_reply(text, told),
        _ => push_plain_field(text, said),
    }
}

fn push_fields(text: &mut String, said: &[Said<'_>]) -> Result<(), AllocError>
    ensures { OnOk result (string_bytes text.new ≡ string_bytes text.old ++ texts_behind said.now) }
{
    for one in said {
        push_field(text, one)?;
    }
    Ok(())
}

/// Adds a line: its first word, and what the fields after it hold.
#[tactic(auto, using(crate::proofs::Written::line_written))]
pub fn push_line(text: &mut String, name: &str, said: &[Said<'_>]) -> Result<(), AllocError>
    ensures { OnOk result (string_bytes text.new
        ≡ string_bytes text.old ++ line_text (line name.now (map spoken_of said.now))) }
{
    text.push_str(name)?;
    push_fields(text, said)?;
    text.push_str("\n")
}
