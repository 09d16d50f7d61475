//! The lines of schedules: files, clients, and what happens.

ghost use Rattle.std.specs.Prelude.{◌≡◌, ◌++◌, OnOk, drop};
ghost use Rattle.std.specs.String.{string_bytes};
ghost use Rattle.lease_texts.specs.{Kinds.named, Lines.field_read, Takes.Takes, Takes.Reads, Schedules.event_kinds, Schedules.event_line};
ghost use Rattle.lease_texts.specs.{Schedules.part_in, Schedules.part_kinds, Complaints.part_table, Complaints.table_of};

use crate::commands::{CLOSE, FLUSH, OPEN, READ, WRITE, is_command, read_command};
use crate::fault::LineFault;
use crate::fields::Fields;
use crate::kinds::Field::{Client, Content, File, Guid, Request};
use crate::kinds::{Row, Table};
use crate::requests::read_request;
use crate::said::line;
use lease_client::Command;
use lease_facts::{Event, is};
use lease_state::ClientNo;
use std::alloc::{AllocError, Global};

/// What one line adds to a schedule.
#[derive(Debug, Drop)]
pub enum Part {
    /// A file with its first bytes.
    File(lease_state::Content),
    /// A client with its ClientGuid.
    Client([u8; 16]),
    Happens(Event),
}

const PARTS: &[Row] = &[
    Row("file", &[Content]),
    Row("client", &[Guid]),
    OPEN,
    CLOSE,
    READ,
    FLUSH,
    WRITE,
    Row("serve", &[Client]),
    Row("take", &[Client]),
    Row("cut", &[Client]),
    Row("notice", &[Client]),
    Row("connect", &[Client]),
    Row("expire", &[Client, File]),
    Row("scavenge", &[Client, File]),
    Row("raw", &[Client, Request]),
];

/// The lines of schedules.
pub fn part_table() -> Table
    ensures { table_of result ≡ part_table }
{
    Table("a kind of line", PARTS)
}

// ---- reading

#[tactic(auto, unfolding(crate::specs::Kinds::named, crate::specs::Kinds::taken))]
fn read_event(alloc: Global, word: &[u8], fields: &mut Fields) -> Result<Part, LineFault>
    ensures { Takes (named field_read event_kinds word.now) fields.old fields.new result }
{
    Ok(Part::Happens(match word {
        _ if is(word, b"serve") => Event::ServerTakes(fields.client()?),
        _ if is(word, b"take") => Event::ClientTakes(fields.client()?),
        _ if is(word, b"cut") => Event::Cut(fields.client()?),
        _ if is(word, b"notice") => Event::Notice(fields.client()?),
        _ if is(word, b"connect") => Event::Connect(fields.client()?),
        _ if is(word, b"expire") => Event::Expire(fields.client()?, fields.file()?),
        _ if is(word, b"scavenge") => Event::Scavenge(fields.client()?, fields.file()?),
        _ if is(word, b"raw") => Event::Raw(fields.client()?, read_request(alloc, fields)?),
        _ => return Err(LineFault::Refused),
    }))
}

// What happens, by the word of its line and the fields after it.
#[tactic(auto, using(crate::proofs::Retold::asked_here, crate::proofs::Retold::refused_here, crate::proofs::Retold::others_here))]
fn read_happening(alloc: Global, word: &[u8], fields: &mut Fields) -> Result<Part, LineFault>
    ensures { Takes (named field_read (drop 2 part_kinds) word.now) fields.old fields.new result }
{
    if is_command(word) {
        let (client, command) = read_command(alloc, word, fields)?;
        Ok(Part::Happens(Event::App(client, command)))
    } else {
        read_event(alloc, word, fields)
    }
}

// What a line of a kind adds to a schedule, by its word and the fields after it.
#[tactic(auto, unfolding(crate::specs::Kinds::named, crate::specs::Kinds::taken))]
fn read_named(alloc: Global, word: &[u8], fields: &mut Fields) -> Result<Part, LineFault>
    ensures { Takes (named field_read part_kinds word.now) fields.old fields.new result }
{
    match word {
        _ if is(word, b"file") => Ok(Part::File(fields.content(alloc)?)),
        _ if is(word, b"client") => Ok(Part::Client(fields.guid()?)),
        _ => read_happening(alloc, word, fields),
    }
}

/// What a line adds to a schedule.
///
/// # Errors
///
/// `Refused` where the line adds nothing, and `Memory` where there is none left for what it holds.
#[tactic(auto, unfolding(crate::specs::Schedules::part_in, crate::specs::Lines::told_in))]
pub fn read_part(alloc: Global, line: &[u8]) -> Result<Part, LineFault>
    ensures { Reads part_in line.now result }
{
    let mut fields = Fields::of(line);
    let word = fields.next()?;
    let part = read_named(alloc, word, &mut fields)?;
    fields.end()?;
    Ok(part)
}

// ---- writing

// What an application asks of a client.
fn push_command(text: &mut String, client: ClientNo, command: &Command) -> Result<(), AllocError>
    ensures { OnOk result (string_bytes text.new ≡ string_bytes text.old ++ event_line (Event.App client command.now)) }
{
    match command {
        Command::Open {
            file,
            access,
            share,
            want,
            durable,
        } =>
            line!(text, "open", Client: client, File: *file, Access: *access, Share: *share, State: *want, Durable: *durable),
        Command::Close { file } => line!(text, "close", Client: client, File: *file),
        Command::Read { file } => line!(text, "read", Client: client, File: *file),
        Command::Write { file, patch } =>
            line!(text, "write", Client: client, File: *file, Offset: patch.offset, Bytes: patch.bytes.as_slice()),
        Command::Flush { file } => line!(text, "flush", Client: client, File: *file),
    }
}

/// Adds the line of an event.
pub fn push_event(text: &mut String, happening: &Event) -> Result<(), AllocError>
    ensures { OnOk result (string_bytes text.new ≡ string_bytes text.old ++ event_line happening.now) }
{
    match happening {
        Event::App(client, command) => push_command(text, *client, command),
        Event::ServerTakes(client) => line!(text, "serve", Client: *client),
        Event::ClientTakes(client) => line!(text, "take", Client: *client),
        Event::Cut(client) => line!(text, "cut", Client: *client),
        Event::Notice(client) => line!(text, "notice", Client: *client),
        Event::Connect(client) => line!(text, "connect", Client: *client),
        Event::Expire(client, file) => line!(text, "expire", Client: *client, File: *file),
        Event::Scavenge(client, file) => line!(text, "scavenge", Client: *client, File: *file),
        Event::Raw(client, asked) => line!(text, "raw", Client: *client, Request: asked),
    }
}
