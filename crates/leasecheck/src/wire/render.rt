ghost use Rattle.std.specs.Prelude.{◌≡◌, ◌≤◌, ◌++◌, Option, length, drop, codes, IfOk};
ghost use Rattle.std.specs.Option.{option_map};
ghost use Rattle.std.specs.String.{string_bytes};
ghost use Rattle.lease_state.specs.State.{state_of};
ghost use Rattle.lease_wire.specs.Notification.{notice_of};
ghost use Rattle.lease_wire.specs.Contexts.{items_left};
ghost use Rattle.lease_wire.specs.Message.{area_fault, items_in};
ghost use Rattle.lease_wire.specs.WireFaults.{fault_at};
ghost use Rattle.lease_wire.specs.declared.fault.WireFault.{WireFault};
ghost use Rattle.leasecheck.specs.Answer.{rest_line};
ghost use Rattle.leasecheck.specs.Refusals.{RefusesExactly, items_fault, bare_fault, or_else, whole_fault, shown_fault};
ghost use Rattle.leasecheck.specs.Shown.{ShowsCreate, ShowsBreak, ShowsKeyAndState, ShowsBare, ShowsMessage, Shows};
ghost use Rattle.leasecheck.specs.Words.{break_line, key_and_state_line};

use crate::failure::Failure;
use crate::tasks::Kind;
use crate::wire::acknowledge::push_rest;
use crate::wire::words::{push_context, push_values};
use lease_state::{LeaseKey, LeaseState};
use lease_texts::state_letters;
use lease_wire::{
    Acknowledgment, BreakResponse, ContextValues, Contexts, Direction, HEADER_SIZE, Notification,
    begins_message, contexts, contexts_of_create, first_message,
};
use std::alloc::{AllocError, Global};

// What `leasecheck show ask` and `show reply` print: the create contexts of a request or a response,
// and what they ask for or grant. Where memory runs out the rest is still read, since a fault of the
// bytes comes first.
#[tactic(auto, unfolding(lease_wire::specs::Gathering::gathered))]
fn render_create(
    alloc: Global,
    direction: Direction,
    contexts: Contexts<'_>,
) -> Result<String, Failure>
    ensures shown { IfOk result (λ text. ShowsCreate direction (items_left contexts.entry) (string_bytes text)) }
    ensures refused { RefusesExactly (items_fault direction (items_left contexts.entry)) result }
{
    let mut text = String::new(alloc);
    let mut values = ContextValues::nothing();
    let mut room = Ok(());
    for item in contexts {
        let context = item?;
        values = values.with_context(direction, &context)?;
        if room.is_ok() {
            room = push_context(alloc, &mut text, &context);
        }
    }
    room?;
    push_values(&mut text, &values)?;
    Ok(text)
}

fn break_text(alloc: Global, notification: &Notification) -> Result<String, AllocError>
    ensures { IfOk result (λ text. string_bytes text ≡ break_line (notice_of notification.now)) }
{
    let mut buffer = [0u8; 36];
    let key = notification.key.text(&mut buffer);
    let current = state_letters(notification.current);
    let new = state_letters(notification.new);
    let due = if notification.ack_required {
        " ack"
    } else {
        " no ack"
    };
    let mut text = String::new(alloc);
    writeln!(text, "break {key} {current} to {new}{due}")?;
    Ok(text)
}

/// What `leasecheck show break` prints: a break notification, and how many bytes follow.
fn render_break(alloc: Global, bytes: &[u8]) -> Result<String, Failure>
    ensures shown { IfOk result (λ text. ShowsBreak bytes.now (string_bytes text)) }
    ensures refused { RefusesExactly (bare_fault Kind.Break bytes.now) result }
{
    let (notification, rest) = Notification::decode(bytes)?;
    let mut text = break_text(alloc, &notification)?;
    push_rest(&mut text, rest.len())?;
    Ok(text)
}

// A key with its state after a word, and how many bytes follow.
fn key_and_state_text(
    alloc: Global,
    word: &str,
    key: LeaseKey,
    state: LeaseState,
    rest: usize,
) -> Result<String, AllocError>
    ensures { IfOk result (λ text. string_bytes text ≡
        key_and_state_line word.now (record { key = key.0; state = state_of state }) ++ rest_line rest) }
{
    let mut buffer = [0u8; 36];
    let digits = key.text(&mut buffer);
    let letters = state_letters(state);
    let mut text = String::new(alloc);
    writeln!(text, "{word} {digits} {letters}")?;
    push_rest(&mut text, rest)?;
    Ok(text)
}

/// What `leasecheck show ack` prints: a break acknowledgment, and how many bytes follow.
fn render_acknowledgment(alloc: Global, bytes: &[u8]) -> Result<String, Failure>
    ensures shown { IfOk result (λ text. ShowsKeyAndState (codes "ack") bytes.now (string_bytes text)) }
    ensures refused { RefusesExactly (bare_fault Kind.Ack bytes.now) result }
{
    let (message, rest) = Acknowledgment::decode(bytes)?;
    Ok(key_and_state_text(alloc, "ack", message.key, message.state, rest.len())?)
}

/// What `leasecheck show response` prints: a break response, and how many bytes follow.
fn render_response(alloc: Global, bytes: &[u8]) -> Result<String, Failure>
    ensures shown { IfOk result (λ text. ShowsKeyAndState (codes "response") bytes.now (string_bytes text)) }
    ensures refused { RefusesExactly (bare_fault Kind.Response bytes.now) result }
{
    let (message, rest) = BreakResponse::decode(bytes)?;
    Ok(key_and_state_text(alloc, "response", message.key, message.state, rest.len())?)
}

// What is shown of bytes without the SMB2 header.
fn render_bare(alloc: Global, kind: Kind, bytes: &[u8]) -> Result<String, Failure>
    ensures shown { IfOk result (λ text. ShowsBare kind bytes.now (string_bytes text)) }
    ensures refused { RefusesExactly (bare_fault kind bytes.now) result }
{
    match kind {
        Kind::Ask => render_create(alloc, Direction::Request, contexts(bytes)),
        Kind::Reply => render_create(alloc, Direction::Reply, contexts(bytes)),
        Kind::Break => render_break(alloc, bytes),
        Kind::Ack => render_acknowledgment(alloc, bytes),
        Kind::Response => render_response(alloc, bytes),
    }
}

// What is shown of the contexts of a whole CREATE request or response.
fn render_in_message(alloc: Global, direction: Direction, message: &[u8]) -> Result<String, Failure>
    ensures shown { IfOk result (λ text. ShowsCreate direction (items_in direction message.now) (string_bytes text)) }
    ensures refused { RefusesExactly (or_else (area_fault direction message.now)
        (items_fault direction (items_in direction message.now))) result }
{
    let contexts = contexts_of_create(direction, message)?;
    render_create(alloc, direction, contexts)
}

// The same, with the place of a message's fault counted from the header in front of it.
fn behind_header(shown: Result<String, Failure>) -> Result<String, Failure>
    ensures shown { IfOk result (λ text. shown ≡ Ok text) }
    ensures refused { (fault : Option WireFault) → RefusesExactly fault shown
        → RefusesExactly (option_map (fault_at 64) fault) result }
{
    match shown {
        Err(Failure::Wire(fault)) => Err(Failure::Wire(fault.at(HEADER_SIZE))),
        other => other,
    }
}

fn body_of(message: &[u8]) -> &[u8]
    requires { 64 ≤ length message.now }
    ensures { result.now ≡ drop 64 message.now }
{
    message.split_at(HEADER_SIZE).1
}

// What is shown of a whole message.
fn render_message(alloc: Global, kind: Kind, message: &[u8]) -> Result<String, Failure>
    requires { 64 ≤ length message.now }
    ensures shown { IfOk result (λ text. ShowsMessage kind message.now (string_bytes text)) }
    ensures refused { RefusesExactly (whole_fault kind message.now) result }
{
    let body = body_of(message);
    match kind {
        Kind::Ask => render_in_message(alloc, Direction::Request, message),
        Kind::Reply => render_in_message(alloc, Direction::Reply, message),
        Kind::Break => behind_header(render_break(alloc, body)),
        Kind::Ack => behind_header(render_acknowledgment(alloc, body)),
        Kind::Response => behind_header(render_response(alloc, body)),
    }
}

/// What `leasecheck show` prints for bytes of a kind. Bytes that begin with the ProtocolId of SMB2 are whole messages, of which
/// the first is shown; others are contexts, or a break message, without the header.
///
/// # Errors
///
/// The fault of the bytes, with its place from their start, and where they have none `Memory`, where there is none left.
pub fn render(alloc: Global, kind: Kind, bytes: &[u8]) -> Result<String, Failure>
    ensures shown { IfOk result (λ text. Shows kind bytes.now (string_bytes text)) }
    ensures refused { RefusesExactly (shown_fault kind bytes.now) result }
{
    if begins_message(bytes) {
        let message = first_message(bytes)?;
        render_message(alloc, kind, message)
    } else {
        render_bare(alloc, kind, bytes)
    }
}
