ghost use Rattle.std.specs.Prelude.{◌≡◌, ◌++◌, OnOk, ◌≤◌, length, take};
ghost use Rattle.std.specs.String.{string_bytes};
ghost use Rattle.record_words.specs.words.FactWords.{shown_bytes, shown_patch, changed_words, wrote_words, started_words};
ghost use Rattle.record_words.specs.words.FactWords.{read_words};
ghost use Rattle.record_words.specs.words.FactWords.{way_words, deed_words, fact_deed, fact_words};
ghost use Rattle.lease_facts.specs.Facts.{client_of};
ghost use Rattle.lease_facts.specs.declared.fact.Fact.TheVariants as fact;

use lease_facts::{Fact, FactKind};
use lease_state::Patch;
use lease_texts::{digits_of, outcome_word, state_letters};
use std::alloc::{AllocError, Global};

/// Adds words as they stand.
pub fn push_words(text: &mut String, words: &str) -> Result<(), AllocError>
    ensures { OnOk result (string_bytes text.new ≡ string_bytes text.old ++ words.now) }
{
    text.push_str(words)
}

// The first 64 bytes.
fn first_shown(bytes: &[u8]) -> &[u8]
    requires { 64 ≤ length bytes.now }
    ensures { result.now ≡ take 64 bytes.now }
{
    bytes.split_at(64).0
}

/// Adds bytes as digits: at most 64 of them, and then how many there are.
#[tactic(auto, unfolding(crate::specs::words::FactWords::shown_bytes))]
pub fn push_bytes(alloc: Global, text: &mut String, bytes: &[u8]) -> Result<(), AllocError>
    ensures { OnOk result (string_bytes text.new ≡ string_bytes text.old ++ shown_bytes bytes.now) }
{
    let count = bytes.len();
    if count <= 64 {
        let digits = digits_of(alloc, bytes)?;
        return text.push_str(digits.as_str());
    }
    let digits = hex::encode(alloc, first_shown(bytes))?;
    write!(text, "{digits}... ({count} bytes)")
}

#[tactic(auto, unfolding(crate::specs::words::FactWords::shown_patch))]
fn push_patch(alloc: Global, text: &mut String, patch: &Patch) -> Result<(), AllocError>
    ensures { OnOk result (string_bytes text.new ≡ string_bytes text.old ++ shown_patch patch.now) }
{
    push_bytes(alloc, text, patch.bytes.as_slice())?;
    let offset = patch.offset;
    write!(text, " at {offset}")
}

fn way_words(buffered: bool) -> &'static str
    ensures { result.now ≡ way_words buffered }
{
    if buffered { ", buffered" } else { ", sent on" }
}

fn push_changed(text: &mut String, file: u8, client: u8, number: u64) -> Result<(), AllocError>
    ensures { OnOk result (string_bytes text.new ≡ string_bytes text.old ++ changed_words file client number) }
{
    write!(
        text,
        "file {file} is changed by write {number} of client {client}: "
    )
}

fn push_wrote(text: &mut String, client: u8, file: u8, number: u64) -> Result<(), AllocError>
    ensures { OnOk result (string_bytes text.new ≡ string_bytes text.old ++ wrote_words client file number) }
{
    write!(
        text,
        "client {client} is given write {number} of file {file}: "
    )
}

fn push_started(text: &mut String, file: u8) -> Result<(), AllocError>
    ensures { OnOk result (string_bytes text.new ≡ string_bytes text.old ++ started_words file) }
{
    write!(text, "file {file} is started with ")
}

fn push_read(text: &mut String, client: u8, file: u8) -> Result<(), AllocError>
    ensures { OnOk result (string_bytes text.new ≡ string_bytes text.old ++ read_words client file) }
{
    write!(
        text,
        "client {client} reads from its cache of file {file}: "
    )
}

/// Adds what the client does that a fact is about, where that is all that the fact says.
pub fn push_deed(text: &mut String, fact: &Fact) -> Result<(), AllocError>
    ensures { OnOk result (string_bytes text.new ≡ string_bytes text.old ++ fact_deed fact.now) }
{
    match fact.kind() {
        FactKind::Client(told) => text.push_str(told.deed()),
        _ => Ok(()),
    }
}

// The same behind the client's name.
fn push_named_deed(text: &mut String, fact: &Fact) -> Result<(), AllocError>
    ensures { OnOk result (string_bytes text.new
        ≡ string_bytes text.old ++ deed_words (client_of fact.now) (fact_deed fact.now)) }
{
    let Some(client) = fact.client() else {
        return Ok(());
    };
    let client = client.0;
    write!(text, "client {client} ")?;
    push_deed(text, fact)
}

/// Adds a fact in words.
pub fn push_fact_words(alloc: Global, text: &mut String, fact: &Fact) -> Result<(), AllocError>
    ensures { OnOk result (string_bytes text.new ≡ string_bytes text.old ++ fact_words fact.now) }
{
    match fact {
        Fact::Start(file, bytes) => {
            push_started(text, file.0)?;
            push_bytes(alloc, text, bytes.as_slice())
        }
        Fact::Expired(client, file) => {
            let (client, file) = (client.0, file.0);
            write!(
                text,
                "client {client} lets the timer of a break of file {file} run out"
            )
        }
        Fact::Sent(client) => {
            let client = client.0;
            write!(text, "a message is sent to client {client}")
        },
        Fact::Opened(file, client) => {
            let (file, client) = (file.0, client.0);
            write!(text, "file {file} is opened for client {client}")
        }
        Fact::Changed(file, client, number, patch) => {
            push_changed(text, file.0, client.0, *number)?;
            push_patch(alloc, text, patch)
        }
        Fact::Wrote(client, file, number, patch, buffered) => {
            push_wrote(text, client.0, file.0, *number)?;
            push_patch(alloc, text, patch)?;
            push_words(text, way_words(*buffered))
        }
        Fact::Settled(client, number, outcome) => {
            let (client, outcome) = (client.0, outcome_word(*outcome));
            write!(
                text,
                "client {client} learns that its write {number} is {outcome}"
            )
        }
        Fact::Believes(client, file, state) => {
            let (client, file, letters) = (client.0, file.0, state_letters(*state));
            write!(text, "client {client} believes {letters} of file {file}")
        }
        Fact::CachedRead(client, file, bytes) => {
            push_read(text, client.0, file.0)?;
            push_bytes(alloc, text, bytes.as_slice())
        }
        _ => push_named_deed(text, fact),
    }
}
