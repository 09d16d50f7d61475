//! Words: the value that a word says, and the word that is written for a value.

ghost use Rattle.std.specs.Prelude.{◌≡◌, ◌<◌, ◌≤◌, ◌+◌, ◌++◌, ◌∷◌, [], Some, None, IfOk, OnOk};
ghost use Rattle.std.specs.{Fmt.decimal, String.string_bytes};
ghost use Rattle.lease_texts.specs.Fields.{number_in, number_after, digit_behind, ordinal_in, offset_in, bytes_in, content_in};
ghost use Rattle.lease_texts.specs.Fields.{access_in, rules_in, share_in, state_in, way_in, outcome_in, sized_in};
ghost use Rattle.lease_texts.specs.Words.{state_word, digits_word, access_word, share_word, rules_word, outcome_word};
ghost use Rattle.{lease_state.specs.State.state_of, lease_texts.specs.Takes.Reads, uuid.specs.Text.parsed};

use crate::fault::LineFault;
use hex::{FromHex, FromHexError};
use lease_client::Settlement;
use lease_facts::is;
use lease_state::{Access, Bytes, FILE_LIMIT, LeaseState, Order, Rise, Rules, Share};
use std::alloc::{AllocError, Global};
use uuid::Uuid;

// ---- numbers

// The number whose decimal digits these are.
#[tactic(auto, unfolding(crate::specs::Fields::number_in))]
pub(crate) fn number_in(digits: &[u8]) -> Option<u64>
    ensures { result ≡ number_in digits.now }
{
    match digits {
        [] | [b'0', _, ..] => None,
        _ => number_of(digits),
    }
}

#[tactic(auto, unfolding(crate::specs::Fields::number_after))]
fn number_of(digits: &[u8]) -> Option<u64>
    ensures { result ≡ number_after (Some 0) digits.now }
{
    let mut value = 0u64;
    for digit in digits {
        value = with_digit(value, *digit)?;
    }
    Some(value)
}

// The number with one more digit at its end.
fn with_digit(value: u64, digit: u8) -> Option<u64>
    ensures { result ≡ digit_behind value digit }
{
    if !digit.is_ascii_digit() {
        return None;
    }
    value.checked_mul(10)?.checked_add(u64::from(digit - b'0'))
}

// The number from 1 to 255 whose decimal digits these are. Most are of one digit.
pub(crate) fn ordinal_in(digits: &[u8]) -> Option<u8>
    ensures { result ≡ ordinal_in digits.now }
{
    match digits {
        [digit] => ordinal_digit(*digit),
        _ => match u8::try_from(number_in(digits)?) {
            Ok(0) | Err(_) => None,
            Ok(ordinal) => Some(ordinal),
        },
    }
}

#[tactic(auto, unfolding(crate::specs::Fields::number_in, crate::specs::Fields::number_after))]
pub(crate) fn ordinal_digit(digit: u8) -> Option<u8>
    ensures { result ≡ ordinal_in (digit ∷ []) }
{
    if digit.is_ascii_digit() && digit != b'0' {
        Some(digit - b'0')
    } else {
        None
    }
}

pub(crate) fn offset_in(digits: &[u8]) -> Option<u32>
    ensures { result ≡ offset_in digits.now }
{
    u32::try_from(number_in(digits)?).ok()
}

// A digit.
fn push_digit(text: &mut String, digit: u8) -> Result<(), AllocError>
    requires { digit < 10 }
    ensures { OnOk result (string_bytes text.new ≡ string_bytes text.old ++ (48 + digit) ∷ []) }
{
    text.push(char::from(b'0' + digit))
}

// The digits of a number. A line has some short ones, and a formatter costs several times what their digits do.
#[tactic(auto, using(crate::proofs::Values::decimal_one, crate::proofs::Values::decimal_last))]
pub(crate) fn push_number(text: &mut String, number: u64) -> Result<(), AllocError>
    ensures { OnOk result (string_bytes text.new ≡ string_bytes text.old ++ decimal number) }
{
    if number < 10 {
        return push_digit(text, number as u8);
    }
    push_number(text, number / 10)?;
    push_digit(text, (number % 10) as u8)
}

// ---- bytes

// Bytes as digits, or a hyphen for none.
#[tactic(auto, unfolding(crate::specs::Fields::bytes_in))]
pub(crate) fn bytes_in(alloc: Global, digits: &[u8]) -> Result<Bytes, LineFault>
    ensures { Reads bytes_in digits.now result }
{
    match digits {
        [] => Err(LineFault::Refused),
        [b'-'] => Ok(Bytes::new(Vec::new(alloc))),
        _ => match hex::decode(alloc, digits) {
            Ok(bytes) => Ok(Bytes::new(bytes)),
            Err(FromHexError::OutOfMemory) => Err(LineFault::Memory),
            Err(_) => Err(LineFault::Refused),
        },
    }
}

// No more of them than a file holds.
pub(crate) fn content_in(alloc: Global, digits: &[u8]) -> Result<Bytes, LineFault>
    ensures { Reads content_in digits.now result }
{
    let bytes = bytes_in(alloc, digits)?;
    if bytes.len() > FILE_LIMIT {
        return Err(LineFault::Refused);
    }
    Ok(bytes)
}

/// The digits of bytes, or a hyphen where there are none.
pub fn digits_of(alloc: Global, bytes: &[u8]) -> Result<String, AllocError>
    ensures { IfOk result (λ text. string_bytes text ≡ digits_word bytes.now) }
{
    if bytes.is_empty() {
        String::from_str(alloc, "-")
    } else {
        hex::encode(alloc, bytes)
    }
}

// So many bytes.
pub(crate) fn sized_in<const N: usize>(digits: &[u8]) -> Option<[u8; N]>
    ensures { result ≡ sized_in N digits.now }
{
    <[u8; N] as FromHex>::from_hex(digits).ok()
}

pub(crate) fn guid_in(text: &[u8]) -> Option<[u8; 16]>
    ensures { result ≡ parsed text.now }
{
    match Uuid::try_parse_ascii(text) {
        Ok(guid) => Some(guid.into_bytes()),
        Err(_) => None,
    }
}

// ---- values with words of their own

#[tactic(auto, unfolding(crate::specs::Words::of_word))]
pub(crate) fn access_in(word: &[u8]) -> Option<Access>
    ensures { result ≡ access_in word.now }
{
    match word {
        b"r" => Some(Access::Read),
        b"w" => Some(Access::Write),
        b"rw" => Some(Access::ReadWrite),
        _ => None,
    }
}

pub(crate) fn access_word(access: Access) -> &'static str
    ensures { result.now ≡ access_word access }
{
    match access {
        Access::Read => "r",
        Access::Write => "w",
        Access::ReadWrite => "rw",
    }
}

/// The rules of a server that a word stands for: `by-client` or `by-key`, a comma, and `as-free` or `whole`. None where it is
/// no such word.
#[tactic(auto, unfolding(crate::specs::Words::of_word))]
pub fn rules_in(word: &[u8]) -> Option<Rules>
    ensures { result ≡ rules_in word.now }
{
    let (order, rise) = match word {
        _ if is(word, b"by-client,as-free") => (Order::ByClient, Rise::AsFree),
        _ if is(word, b"by-client,whole") => (Order::ByClient, Rise::Whole),
        _ if is(word, b"by-key,as-free") => (Order::ByKey, Rise::AsFree),
        _ if is(word, b"by-key,whole") => (Order::ByKey, Rise::Whole),
        _ => return None,
    };
    Some(Rules { order, rise })
}

pub(crate) fn rules_word(rules: Rules) -> &'static str
    ensures { result.now ≡ rules_word rules }
{
    match (rules.order, rules.rise) {
        (Order::ByClient, Rise::AsFree) => "by-client,as-free",
        (Order::ByClient, Rise::Whole) => "by-client,whole",
        (Order::ByKey, Rise::AsFree) => "by-key,as-free",
        (Order::ByKey, Rise::Whole) => "by-key,whole",
    }
}

#[tactic(auto, unfolding(crate::specs::Words::of_word))]
pub(crate) fn share_in(word: &[u8]) -> Option<Share>
    ensures { result ≡ share_in word.now }
{
    match word {
        b"-" => Some(Share::Nothing),
        b"r" => Some(Share::Read),
        b"w" => Some(Share::Write),
        b"rw" => Some(Share::ReadWrite),
        _ => None,
    }
}

pub(crate) fn share_word(share: Share) -> &'static str
    ensures { result.now ≡ share_word share }
{
    match share {
        Share::Nothing => "-",
        Share::Read => "r",
        Share::Write => "w",
        Share::ReadWrite => "rw",
    }
}

// The state of a number up to 7.
#[tactic(auto, using(crate::proofs::Cut::state_named))]
fn state_of_wire(bits: u32) -> LeaseState
    requires { bits ≤ 7 }
    ensures { result ≡ record { 0 = bits } }
{
    LeaseState::from_wire(bits)
}

#[tactic(auto, unfolding(crate::specs::Words::of_word))]
pub(crate) fn state_in(word: &[u8]) -> Option<LeaseState>
    ensures { result ≡ state_in word.now }
{
    match word {
        b"none" => Some(state_of_wire(0)),
        b"R" => Some(state_of_wire(1)),
        b"H" => Some(state_of_wire(2)),
        b"RH" => Some(state_of_wire(3)),
        b"W" => Some(state_of_wire(4)),
        b"RW" => Some(state_of_wire(5)),
        b"WH" => Some(state_of_wire(6)),
        b"RWH" => Some(state_of_wire(7)),
        _ => None,
    }
}

/// The letters of a state in the order R, W, H, or `none`.
pub fn state_letters(state: LeaseState) -> &'static str
    ensures { result.now ≡ state_word (state_of state) }
{
    let reads = state.caches_reads();
    let writes = state.caches_writes();
    let handles = state.caches_handles();
    match (reads, writes, handles) {
        (false, false, false) => "none",
        (true, false, false) => "R",
        (false, true, false) => "W",
        (false, false, true) => "H",
        (true, true, false) => "RW",
        (true, false, true) => "RH",
        (false, true, true) => "WH",
        (true, true, true) => "RWH",
    }
}

#[tactic(auto, unfolding(crate::specs::Words::of_word))]
pub(crate) fn way_in(word: &[u8]) -> Option<bool>
    ensures { result ≡ way_in word.now }
{
    match word {
        _ if is(word, b"buffered") => Some(true),
        _ if is(word, b"through") => Some(false),
        _ => None,
    }
}

#[tactic(auto, unfolding(crate::specs::Words::of_word))]
pub(crate) fn outcome_in(word: &[u8]) -> Option<Settlement>
    ensures { result ≡ outcome_in word.now }
{
    match word {
        _ if is(word, b"done") => Some(Settlement::Done),
        _ if is(word, b"failed") => Some(Settlement::Failed),
        _ if is(word, b"unknown") => Some(Settlement::Unknown),
        _ if is(word, b"lost") => Some(Settlement::Lost),
        _ => None,
    }
}

/// What became of a write, in a word.
pub fn outcome_word(outcome: Settlement) -> &'static str
    ensures { result.now ≡ outcome_word outcome }
{
    match outcome {
        Settlement::Done => "done",
        Settlement::Failed => "failed",
        Settlement::Unknown => "unknown",
        Settlement::Lost => "lost",
    }
}
