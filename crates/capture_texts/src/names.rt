ghost use Rattle.std.specs.Prelude.{◌≡◌, ◌≤◌, ℕ, List, IfSome, IfOk, is_some, length};
ghost use Rattle.lease_wire.specs.Message.{first_message};
ghost use Rattle.capture_wire.specs.Header.{IsHeader};
ghost use Rattle.capture_texts.specs.Names.{begins_readably, name_of, names_in, names_said, part_by};

use crate::line::Said;
use capture_wire::{Command, Header, read_header};
use lease_state::Memory;
use lease_wire::first_message;
use std::alloc::{AllocError, Global};
use std::marker::Model;

/// What a message is to others.
#[derive(Clone, Copy, Debug, PartialEq, Eq)]
pub enum MessagePart {
    Request,
    Response,
    /// A response to no request, as a break is: its MessageId has all bits (MS-SMB2 2.2.23).
    Notification,
}

/// The name of a message, by its header (MS-SMB2 2.2.1).
#[derive(Clone, Copy, Debug, PartialEq, Eq)]
pub struct MessageName {
    pub command: Command,
    pub part: MessagePart,
}

/// The names of the messages of a frame, in their order. Contracts see the list of them.
#[derive(Debug, Drop)]
pub struct MessageNames {
    items: Vec<MessageName>,
}

impl Model for MessageNames {
    ghost use Rattle.std.specs.Prelude.{List};
    ghost use Rattle.capture_texts.specs.declared.names.MessageName.{MessageName};

    ghost Value = { List MessageName };

    ghost view = { λ names. names.items.items };
}

impl MessageNames {
    /// The names, in order.
    pub fn as_slice(&self) -> &[MessageName]
        ensures { result.now ≡ self.now }
    {
        self.items.as_slice()
    }

    /// Equal names in memory of their own.
    ///
    /// # Errors
    ///
    /// `Memory` where there is none left.
    pub(crate) fn try_copy(&self) -> Result<MessageNames, Memory>
        ensures { IfOk result (λ copy. copy ≡ self.now) }
    {
        let items = Vec::from_slice(*self.items.allocator(), self.items.as_slice())?;
        Ok(MessageNames { items })
    }
}

fn part_of(header: &Header) -> MessagePart
    ensures { result ≡ part_by header.now.response header.now.message_id }
{
    match (header.response, header.message_id) {
        (false, _) => MessagePart::Request,
        (true, u64::MAX) => MessagePart::Notification,
        (true, _) => MessagePart::Response,
    }
}

fn name_of(header: &Header) -> MessageName
    ensures { (bytes : List ℕ) → IsHeader bytes header.now → result ≡ name_of bytes }
{
    MessageName {
        command: Command::of(header.command),
        part: part_of(header),
    }
}

// The name of the message that bytes begin with, and how many it takes; `None` where its header can't be read.
#[tactic(auto, using(crate::proofs::Remaining::first_within))]
fn first_name(bytes: &[u8]) -> Option<(MessageName, usize)>
    ensures found { is_some result ≡ begins_readably bytes.now }
    ensures name { IfSome result (λ r. r.0 ≡ name_of bytes.now) }
    ensures size { IfSome result (λ r. r.1 ≡ length (first_message bytes.now)) }
    ensures within { IfSome result (λ r. (64 ≤ r.1) × (r.1 ≤ length bytes.now)) }
{
    let header = read_header(bytes).ok()?;
    let first = first_message(bytes).ok()?;
    Some((name_of(&header), first.len()))
}

fn names_in(alloc: Global, bytes: &[u8]) -> Result<MessageNames, AllocError>
    ensures { IfOk result (λ names. names ≡ names_in bytes.now) }
{
    let mut items = Vec::new(alloc);
    let mut rest = bytes;
    while let Some((name, size)) = first_name(rest) {
        items.push(name)?;
        rest = rest.split_at(size).1;
    }
    Ok(MessageNames { items })
}

/// The names of the messages of a line: a gap or an end has none.
pub(crate) fn names_said(alloc: Global, said: &Said) -> Result<MessageNames, AllocError>
    ensures { IfOk result (λ names. names ≡ names_said said.now) }
{
    match said {
        Said::Frame(frame) => names_in(alloc, frame.bytes.as_slice()),
        Said::Gap | Said::End => Ok(MessageNames {
            items: Vec::new(alloc),
        }),
    }
}
