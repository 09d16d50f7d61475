//! What people read of a report: a line of words for each finding.
ghost use Rattle.std.specs.Prelude.{◌≡◌, ◌<◌, ◌≤◌, ◌++◌, ◌∷◌, [], true, false, length, OnOk};
ghost use Rattle.std.specs.List.{flat_map};
ghost use Rattle.std.specs.String.{string_bytes};
ghost use Rattle.hex.specs.Hex.{encode_lower};
ghost use Rattle.capture_texts.specs.Texts.{address_text, are_pair, at_text, client_text, counts_text, epoch_text, file_text};
ghost use Rattle.capture_texts.specs.Texts.{is_from_to, is_hidden, judged_text, letter_text, lost_text, moment_text, name_text, one_more};
ghost use Rattle.capture_texts.specs.Texts.{broken_text, by_text, given_text, granted_text, guid_text, lease_text, names_text, owner_text};
ghost use Rattle.uuid.specs.Text.{hyphenated_text, lower};
ghost use Rattle.capture_texts.specs.records.Remarks.{command_words, part_words};
ghost use Rattle.capture_texts.specs.Texts.{pair_of, place_text, reason_text, since_text, unit, unjudged_text, where_text, with_moment};

use crate::finding::{
    BreakFinding, CaptureVerdict, ClientFinding, ClientName, Counts, EpochFinding, FileFinding,
    FilePlace, Judged, LeaseFinding,
};
use crate::line::Moment;
use crate::names::{MessageName, MessagePart};
use capture_walk::NotJudged;
use capture_wire::{Command, Guid};
use lease_state::{Bytes, LeaseKey};
use lease_texts::{push_all_escaped, state_letters};
use std::alloc::{AllocError, Global};
use std::fmt;
use uuid::Uuid;

fn is_from_to(first: u32, behind: u32, code: u32) -> bool
    ensures { result ≡ is_from_to first behind code }
{
    first <= code && code < behind
}

// Whether a reader doesn't see the character, or it changes the text round it, or it is half a pair.
fn is_hidden(code: u32) -> bool
    ensures { result ≡ is_hidden code }
{
    (code < 32 || (is_from_to(127, 160, code) || is_from_to(0x200e, 0x2010, code)))
        || ((is_from_to(0x2028, 0x202f, code) || is_from_to(0x2066, 0x206a, code))
            || is_from_to(0xd800, 0xe000, code))
}

#[tactic(auto, unfolding(crate::specs::Texts::letter_text))]
fn push_letter(text: &mut String, code: u32) -> Result<(), AllocError>
    requires { code < 0x11_0000 }
    ensures { OnOk result (string_bytes text.new ≡ string_bytes text.old ++ letter_text code) }
{
    match char::from_u32(code) {
        Some(letter) if !is_hidden(code) => text.push(letter),
        _ => write!(text, "\\u{{{code:x}}}"),
    }
}

fn unit(low: u8, high: u8) -> u32
    ensures is { result ≡ unit low high }
    ensures fits { result < 0x1_0000 }
{
    u32::from(low) + u32::from(high) * 256
}

fn are_pair(first: u32, second: u32) -> bool
    ensures { result ≡ are_pair first second }
{
    (0xd800 <= first && first < 0xdc00) && (0xdc00 <= second && second < 0xe000)
}

fn pair_of(first: u32, second: u32) -> u32
    requires { are_pair first second ≡ true }
    ensures is { result ≡ pair_of first second }
    ensures fits { result < 0x11_0000 }
{
    0x1_0000 + ((first - 0xd800) * 0x400 + (second - 0xdc00))
}

// The letter of two units where they are a pair, and what comes after both; else that of the first, and what comes after that.
fn one_or_pair<'a>(first: u32, second: u32, behind: &'a [u8], others: &'a [u8]) -> (u32, &'a [u8])
    requires fits { first < 0x1_0000 }
    requires less { length others.now ≤ length behind.now }
    ensures paired { are_pair first second ≡ true → (result.0 ≡ pair_of first second) × (result.1.now ≡ others.now) }
    ensures alone { are_pair first second ≡ false → (result.0 ≡ first) × (result.1.now ≡ behind.now) }
    ensures fits { result.0 < 0x11_0000 }
    ensures less { length result.1.now ≤ length behind.now }
{
    if are_pair(first, second) {
        (pair_of(first, second), others)
    } else {
        (first, behind)
    }
}

// The first letter of a name that begins with a unit of these bytes, and what comes after it.
fn letter_and_rest(low: u8, high: u8, behind: &[u8]) -> (u32, &[u8])
    ensures text { name_text (low ∷ high ∷ behind.now) ≡ letter_text result.0 ++ name_text result.1.now }
    ensures fits { result.0 < 0x11_0000 }
    ensures less { length result.1.now ≤ length behind.now }
{
    match behind {
        [next, last, others @ ..] => {
            one_or_pair(unit(low, high), unit(*next, *last), behind, others)
        }
        _ => (unit(low, high), behind),
    }
}

// Half a unit at the end of a name.
#[tactic(auto, unfolding(crate::specs::Texts::name_text))]
fn push_half(alloc: Global, text: &mut String, byte: u8) -> Result<(), AllocError>
    ensures { OnOk result (string_bytes text.new ≡ string_bytes text.old ++ name_text (byte ∷ [])) }
{
    let digits = hex::encode(alloc, [byte])?;
    write!(text, "\\x{digits}")
}

// A name in UTF-16. What isn't valid in it is written as `\u{HHHH}`, and a last byte alone as `\xHH`.
fn push_name(alloc: Global, text: &mut String, bytes: &[u8]) -> Result<(), AllocError>
    ensures { OnOk result (string_bytes text.new ≡ string_bytes text.old ++ name_text bytes.now) }
{
    let mut rest = bytes;
    while let [low, high, behind @ ..] = rest {
        let (letter, next) = letter_and_rest(*low, *high, behind);
        push_letter(text, letter)?;
        rest = next;
    }
    match rest {
        [byte, ..] => push_half(alloc, text, *byte),
        _ => Ok(()),
    }
}

pub(crate) fn push_place(
    alloc: Global,
    text: &mut String,
    place: &FilePlace,
) -> Result<(), AllocError>
    ensures { OnOk result (string_bytes text.new ≡ string_bytes text.old ++ place_text place.now) }
{
    push_all_escaped(alloc, text, place.server.as_slice())?;
    text.push_str(" ")?;
    push_name(alloc, text, place.path.as_slice())?;
    text.push_str("\\")?;
    push_name(alloc, text, place.name.as_slice())
}

pub(crate) fn push_client(
    alloc: Global,
    text: &mut String,
    name: &ClientName,
) -> Result<(), AllocError>
    ensures { OnOk result (string_bytes text.new ≡ string_bytes text.old ++ client_text name.now) }
{
    push_address(alloc, text, &name.address)
}

#[tactic(auto, unfolding(crate::specs::Texts::moment_text))]
pub(crate) fn push_moment(
    alloc: Global,
    text: &mut String,
    moment: &Moment,
) -> Result<(), AllocError>
    ensures { OnOk result (string_bytes text.new ≡ string_bytes text.old ++ moment_text moment.now) }
{
    let packet = moment.packet;
    write!(text, "packet {packet} at ")?;
    push_all_escaped(alloc, text, moment.time.as_slice())
}

fn push_with_moment(
    alloc: Global,
    text: &mut String,
    words: &str,
    moment: &Option<Moment>,
) -> Result<(), AllocError>
    ensures { OnOk result (string_bytes text.new ≡ string_bytes text.old ++ with_moment words.now moment.now) }
{
    text.push_str(words)?;
    if let Some(moment) = moment {
        text.push_str(", ")?;
        push_moment(alloc, text, moment)?;
    }
    Ok(())
}

#[tactic(auto, unfolding(crate::specs::Texts::judged_text))]
fn push_judged(alloc: Global, text: &mut String, judged: &Judged) -> Result<(), AllocError>
    ensures { OnOk result (string_bytes text.new ≡ string_bytes text.old ++ judged_text judged.now) }
{
    match judged {
        Judged::NoClient => text.push_str("not judged, no client of it is"),
        Judged::Safe => text.push_str("safe"),
        Judged::Unsafe(clash) => push_with_moment(alloc, text, "unsafe", &clash.moment),
        Judged::Granted(clash) => push_with_moment(
            alloc,
            text,
            "unsafe by the server's grants",
            &clash.moment,
        ),
        Judged::Contradictory => text.push_str("not judged, what is shown can't have happened"),
        Judged::TooMany => text.push_str("not judged, it can have happened in too many ways"),
    }
}

fn push_where(alloc: Global, text: &mut String, place: &Option<FilePlace>) -> Result<(), AllocError>
    ensures { OnOk result (string_bytes text.new ≡ string_bytes text.old ++ where_text place.now) }
{
    if let Some(place) = place {
        text.push_str(" ")?;
        push_place(alloc, text, place)?;
    }
    Ok(())
}

fn push_more(alloc: Global, text: &mut String, clients: &[ClientName]) -> Result<(), AllocError>
    ensures { OnOk result (string_bytes text.new ≡ string_bytes text.old ++ flat_map one_more clients.now) }
{
    for client in clients {
        text.push_str(", ")?;
        push_client(alloc, text, client)?;
    }
    Ok(())
}

/// Appends what is said of a file, in one line without its line feed: the file, what is decided of it with the packet, and a
/// client for each lease.
///
/// # Errors
///
/// `AllocError` where there is no memory for it.
#[tactic(auto, unfolding(crate::specs::Texts::file_text))]
pub fn push_file(alloc: Global, text: &mut String, file: &FileFinding) -> Result<(), AllocError>
    ensures { OnOk result (string_bytes text.new ≡ string_bytes text.old ++ file_text file.now) }
{
    text.push_str("file")?;
    push_where(alloc, text, &file.place)?;
    text.push_str(": ")?;
    push_judged(alloc, text, &file.judged)?;
    push_more(alloc, text, file.clients.as_slice())
}

fn push_sixteen(text: &mut String, bytes: [u8; 16]) -> Result<(), AllocError>
    ensures { OnOk result (string_bytes text.new ≡ string_bytes text.old ++ hyphenated_text lower bytes) }
{
    let mut buffer = [0; 36];
    text.push_str(
        Uuid::from_bytes(bytes)
            .hyphenated()
            .encode_lower(&mut buffer),
    )
}

fn push_guid(text: &mut String, guid: Option<Guid>) -> Result<(), AllocError>
    ensures { OnOk result (string_bytes text.new ≡ string_bytes text.old ++ guid_text guid) }
{
    match guid {
        Some(guid) => push_sixteen(text, guid.0),
        None => text.push_str("unknown"),
    }
}

fn push_address(alloc: Global, text: &mut String, address: &Bytes) -> Result<(), AllocError>
    ensures { OnOk result (string_bytes text.new ≡ string_bytes text.old ++ address_text address.now) }
{
    if address.is_empty() {
        text.push_str("unknown")
    } else {
        push_all_escaped(alloc, text, address.as_slice())
    }
}

fn push_by(alloc: Global, text: &mut String, moment: &Option<Moment>) -> Result<(), AllocError>
    ensures { OnOk result (string_bytes text.new ≡ string_bytes text.old ++ by_text moment.now) }
{
    if let Some(moment) = moment {
        text.push_str(" by ")?;
        push_moment(alloc, text, moment)?;
    }
    Ok(())
}

fn push_given(
    alloc: Global,
    text: &mut String,
    is_wanted: bool,
    moment: &Option<Moment>,
) -> Result<(), AllocError>
    ensures { OnOk result (string_bytes text.new ≡ string_bytes text.old ++ given_text moment.now is_wanted) }
{
    match moment {
        Some(moment) => {
            text.push_str(", acknowledged by ")?;
            push_moment(alloc, text, moment)?;
        }
        None if is_wanted => text.push_str(", not acknowledged")?,
        None => {}
    }
    Ok(())
}

fn push_broken(
    alloc: Global,
    text: &mut String,
    broken: &Option<BreakFinding>,
) -> Result<(), AllocError>
    ensures { OnOk result (string_bytes text.new ≡ string_bytes text.old ++ broken_text broken.now) }
{
    let Some(one) = broken else {
        return text.push_str(", not broken since");
    };
    text.push_str(", broken to ")?;
    text.push_str(state_letters(one.state))?;
    push_by(alloc, text, &one.moment)?;
    push_given(alloc, text, one.wants_acknowledgment, &one.acknowledged)
}

#[tactic(auto, unfolding(crate::specs::Texts::owner_text))]
fn push_owner(alloc: Global, text: &mut String, client: &ClientName) -> Result<(), AllocError>
    ensures { OnOk result (string_bytes text.new ≡ string_bytes text.old ++ owner_text client.now) }
{
    text.push_str("    lease of ")?;
    push_client(alloc, text, client)?;
    Ok(())
}

#[tactic(auto, unfolding(crate::specs::Texts::names_text))]
fn push_names(text: &mut String, guid: Option<Guid>, key: LeaseKey) -> Result<(), AllocError>
    ensures { OnOk result (string_bytes text.new ≡ string_bytes text.old ++ names_text guid key) }
{
    text.push_str(", ClientGuid ")?;
    push_guid(text, guid)?;
    text.push_str(", key ")?;
    push_sixteen(text, key.0)
}

#[tactic(auto, unfolding(crate::specs::Texts::granted_text))]
fn push_granted(alloc: Global, text: &mut String, finding: &LeaseFinding) -> Result<(), AllocError>
    ensures { OnOk result (string_bytes text.new ≡ string_bytes text.old ++ granted_text finding.now) }
{
    text.push_str(": ")?;
    text.push_str(state_letters(finding.state))?;
    push_by(alloc, text, &finding.granted)?;
    text.push_str(" to ")?;
    push_address(alloc, text, &finding.connection)
}

/// The same of a lease on a file: whose it is, what was granted by which packet to which address, and what broke it since.
///
/// # Errors
///
/// `AllocError` where there is no memory for it.
#[tactic(auto, unfolding(crate::specs::Texts::lease_text))]
pub fn push_lease(
    alloc: Global,
    text: &mut String,
    finding: &LeaseFinding,
) -> Result<(), AllocError>
    ensures { OnOk result (string_bytes text.new ≡ string_bytes text.old ++ lease_text finding.now) }
{
    push_owner(alloc, text, &finding.client)?;
    push_names(text, finding.guid, finding.key)?;
    push_granted(alloc, text, finding)?;
    push_broken(alloc, text, &finding.broken)
}

fn reason_text(reason: NotJudged) -> &'static str
    ensures { result.now ≡ reason_text reason }
{
    match reason {
        NotJudged::Missing => "something of it is missing or can't be read",
        NotJudged::Disputed => {
            "it has one key for two files, or learns of a lease over several connections without an order"
        }
        NotJudged::Stranger => {
            "a break under its key comes over a connection of which it isn't known whose it is"
        }
    }
}

fn push_since(alloc: Global, text: &mut String, since: &Option<Moment>) -> Result<(), AllocError>
    ensures { OnOk result (string_bytes text.new ≡ string_bytes text.old ++ since_text since.now) }
{
    if let Some(moment) = since {
        text.push_str(" after ")?;
        push_moment(alloc, text, moment)?;
    }
    Ok(())
}

fn push_unjudged(alloc: Global, text: &mut String, name: &ClientName) -> Result<(), AllocError>
    ensures { OnOk result (string_bytes text.new ≡ string_bytes text.old ++ unjudged_text name.now) }
{
    text.push_str("client ")?;
    push_client(alloc, text, name)?;
    text.push_str(": not judged")
}

/// The same of a client that isn't judged: from where on, and why.
///
/// # Errors
///
/// `AllocError` where there is no memory for it.
#[tactic(auto, unfolding(crate::specs::Texts::lost_text))]
pub fn push_lost(
    alloc: Global,
    text: &mut String,
    finding: &ClientFinding,
) -> Result<(), AllocError>
    ensures { OnOk result (string_bytes text.new ≡ string_bytes text.old ++ lost_text finding.now) }
{
    push_unjudged(alloc, text, &finding.client)?;
    push_since(alloc, text, &finding.since)?;
    text.push_str(", ")?;
    text.push_str(reason_text(finding.reason))
}

fn push_at(alloc: Global, text: &mut String, moment: &Option<Moment>) -> Result<(), AllocError>
    ensures { OnOk result (string_bytes text.new ≡ string_bytes text.old ++ at_text moment.now) }
{
    if let Some(moment) = moment {
        push_moment(alloc, text, moment)?;
        text.push_str(", ")?;
    }
    Ok(())
}

/// The same of an epoch that doesn't follow on.
///
/// # Errors
///
/// `AllocError` where there is no memory for it.
#[tactic(auto, unfolding(crate::specs::Texts::epoch_text))]
pub fn push_epoch(
    alloc: Global,
    text: &mut String,
    finding: &EpochFinding,
) -> Result<(), AllocError>
    ensures { OnOk result (string_bytes text.new ≡ string_bytes text.old ++ epoch_text finding.now) }
{
    text.push_str("client ")?;
    push_client(alloc, text, &finding.client)?;
    text.push_str(": ")?;
    push_at(alloc, text, &finding.moment)?;
    let (epoch, before) = (finding.epoch, finding.before);
    write!(text, "epoch {epoch} follows {before}")
}

/// The same of what there is in a capture.
///
/// # Errors
///
/// `AllocError` where there is no memory for it.
#[tactic(auto, unfolding(crate::specs::Texts::counts_text))]
pub fn push_counts(text: &mut String, counts: Counts) -> Result<(), AllocError>
    ensures { OnOk result (string_bytes text.new ≡ string_bytes text.old ++ counts_text counts) }
{
    let (connections, frames, unread) = (counts.connections, counts.frames, counts.unread);
    write!(
        text,
        "{connections} connections, {frames} frames, {unread} of them unreadable"
    )
}

// The name of a command, as MS-SMB2 2.2.1 has it.
pub(crate) fn command_words(command: Command) -> &'static str
    ensures { result.now ≡ command_words command }
{
    match command {
        Command::Negotiate => "NEGOTIATE",
        Command::SessionSetup => "SESSION_SETUP",
        Command::Logoff => "LOGOFF",
        Command::TreeConnect => "TREE_CONNECT",
        Command::TreeDisconnect => "TREE_DISCONNECT",
        Command::Create => "CREATE",
        Command::Close => "CLOSE",
        Command::Flush => "FLUSH",
        Command::Read => "READ",
        Command::Write => "WRITE",
        Command::Lock => "LOCK",
        Command::Ioctl => "IOCTL",
        Command::Cancel => "CANCEL",
        Command::Echo => "ECHO",
        Command::QueryDirectory => "QUERY_DIRECTORY",
        Command::ChangeNotify => "CHANGE_NOTIFY",
        Command::QueryInfo => "QUERY_INFO",
        Command::SetInfo => "SET_INFO",
        Command::OplockBreak => "OPLOCK_BREAK",
        Command::Unknown => "unknown",
    }
}

pub(crate) fn part_words(part: MessagePart) -> &'static str
    ensures { result.now ≡ part_words part }
{
    match part {
        MessagePart::Request => " request",
        MessagePart::Response => " response",
        MessagePart::Notification => " notification",
    }
}

impl fmt::Display for MessageName {
    fn fmt<W: fmt::Write>(&self, f: &mut fmt::Formatter<W>) -> fmt::Result {
        f.write_str(command_words(self.command))?;
        f.write_str(part_words(self.part))
    }
}

impl fmt::Display for CaptureVerdict {
    fn fmt<W: fmt::Write>(&self, f: &mut fmt::Formatter<W>) -> fmt::Result {
        f.write_str(match self {
            CaptureVerdict::Safe => "safe",
            CaptureVerdict::Unsafe => "unsafe",
            CaptureVerdict::NothingJudged => "nothing judged",
        })
    }
}
