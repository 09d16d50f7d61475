ghost use Rattle.std.specs.Prelude.{◌≡◌, ◌++◌, IfOk, OnOk, drop};
ghost use Rattle.std.specs.String.{string_bytes};
ghost use Rattle.lease_texts.specs.Records.{fact_line};
ghost use Rattle.leasecheck.specs.Messages.{message_line, message_before, messages_behind};

use lease_facts::Fact;
use lease_state::{ClientNo, Reply};
use lease_texts::{Said, push_fact, push_line};
use std::alloc::AllocError;

// The line of the first of these messages; those after it are given.
fn push_message<'a>(
    text: &mut String,
    begin: &str,
    client: ClientNo,
    messages: &'a [Reply],
) -> Result<&'a [Reply], AllocError>
    ensures line { OnOk result (string_bytes text.new ≡ string_bytes text.old ++ message_line begin.now client messages.now) }
    ensures behind { IfOk result (λ behind. behind.now ≡ drop 1 messages.now) }
{
    if messages.is_empty() {
        return Ok(messages);
    }
    push_line(
        text,
        begin,
        &[Said::Client(client), Said::Reply(&messages[0])],
    )?;
    Ok(&messages[1..])
}

// The line of the message that a fact speaks of, the first of these; those after it are given.
#[tactic(auto, unfolding(crate::specs::Messages::message_before, crate::specs::Messages::messages_behind))]
fn push_message_of<'a>(
    text: &mut String,
    fact: &Fact,
    messages: &'a [Reply],
) -> Result<&'a [Reply], AllocError>
    ensures line { OnOk result (string_bytes text.new ≡ string_bytes text.old ++ message_before fact.now messages.now) }
    ensures behind { IfOk result (λ behind. behind.now ≡ messages_behind fact.now messages.now) }
{
    match fact {
        Fact::Sent(client) => push_message(text, "# sent", *client, messages),
        Fact::Took(client) => push_message(text, "# took", *client, messages),
        _ => Ok(messages),
    }
}

/// The lines of a fact: before its own, where it speaks of a message, a comment line with what is in the first of these.
/// Those after it are given.
pub fn push_lines_of<'a>(
    text: &mut String,
    fact: &Fact,
    messages: &'a [Reply],
) -> Result<&'a [Reply], AllocError>
    ensures lines { OnOk result (string_bytes text.new
        ≡ string_bytes text.old ++ (message_before fact.now messages.now ++ fact_line fact.now)) }
    ensures behind { IfOk result (λ behind. behind.now ≡ messages_behind fact.now messages.now) }
{
    let behind = push_message_of(text, fact, messages)?;
    push_fact(text, fact)?;
    Ok(behind)
}
