ghost use Rattle.std.specs.Prelude.{◌≡◌, ◌≢◌, ◌∷◌, ◌<◌, ◌≤◌, ℕ, [], length, slice_index, IfSome};
ghost use Rattle.memchr.specs.Find.{IsFirstByte, is_byte};
ghost use Rattle.lease_texts.specs.{Pieces.lines_of, Reading.is_passed_over};

use memchr::memchr;
use std::simd::prelude::*;

// How many bytes are looked at together for the end of a line. Most lines of records are shorter.
const NEAR: usize = 32;

/// Whether a line of a schedule or of a record counts for nothing but its number: it is empty, or a remark.
pub fn is_passed_over(line: &[u8]) -> bool
    ensures { result ≡ is_passed_over line.now }
{
    matches!(line, [] | [b'#', ..])
}

// Where the first line feed is, where that is near.
#[inline(always)]
fn near_feed(text: &[u8]) -> Option<usize>
    requires { 32 ≤ length text.now }
    ensures { IfSome result (λ place. (place < 32) × (slice_index text.now place ≡ 10)
        × ((i : ℕ) → i < place → slice_index text.now i ≢ 10)) }
{
    let feeds = u8x32::from_slice(text)
        .simd_eq(u8x32::splat(b'\n'))
        .to_bitmask();
    if feeds == 0 {
        return None;
    }
    Some(feeds.trailing_zeros() as usize)
}

// Where the first line feed is.
#[inline(always)]
fn first_feed(text: &[u8]) -> Option<usize>
    ensures { IsFirstByte (is_byte 10) text.now result }
{
    if text.len() >= NEAR
        && let Some(place) = near_feed(text)
    {
        return Some(place);
    }
    memchr(b'\n', text)
}

/// The first line of a text, without its line feed, and what follows.
pub fn first_line(text: &[u8]) -> (&[u8], &[u8])
    requires { text.now ≢ [] }
    ensures lines { lines_of text.now ≡ result.0.now ∷ lines_of result.1.now }
    ensures less { length result.1.now < length text.now }
{
    match first_feed(text) {
        Some(place) => (&text[..place], &text[place + 1..]),
        None => (text, &[]),
    }
}
