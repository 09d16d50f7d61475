ghost use Rattle.std.specs.Prelude.{◌≡◌, ◌∷◌, [], false};
ghost use Rattle.std.specs.List.{list_all};
ghost use Rattle.lease_texts.specs.Takes.{Takes, Reads};
ghost use Rattle.capture_texts.specs.Lines.{is_digit, is_fraction, is_time, one_address, one_time, one_side};
ghost use Rattle.capture_texts.specs.Lines.{frame_taken, said_taken, line_taken, line_in};

use crate::line::{FrameSaid, Line, Moment, Said, Side};
use crate::names::names_said;
use lease_state::Bytes;
use lease_texts::{Fields, LineFault, is};
use std::alloc::Global;

fn are_digits(bytes: &[u8]) -> bool
    ensures { result ≡ list_all is_digit bytes.now }
{
    bytes.iter().all(|byte| byte.is_ascii_digit())
}

fn is_fraction(digits: &[u8]) -> bool
    ensures { result ≡ is_fraction digits.now }
{
    !digits.is_empty() && digits.len() <= 9 && are_digits(digits)
}

// Whether a word is a time in seconds: digits, and a fraction of at most nine digits where it has a point.
fn is_time(word: &[u8]) -> bool
    ensures { result ≡ is_time false word.now }
{
    for (index, byte) in word.iter().enumerate() {
        if *byte == b'.' {
            return index > 0 && is_fraction(&word[index + 1..]);
        }
        if !byte.is_ascii_digit() {
            return false;
        }
    }
    !word.is_empty()
}

fn read_time(alloc: Global, fields: &mut Fields<'_>) -> Result<Bytes, LineFault>
    ensures { Takes one_time fields.old fields.new result }
{
    let word = fields.next()?;
    if !is_time(word) {
        return Err(LineFault::Refused);
    }
    Ok(Bytes::new(Vec::from_slice(alloc, word)?))
}

fn read_address(alloc: Global, fields: &mut Fields<'_>) -> Result<Bytes, LineFault>
    ensures { Takes one_address fields.old fields.new result }
{
    let word = fields.next()?;
    if word.is_empty() {
        return Err(LineFault::Refused);
    }
    Ok(Bytes::new(Vec::from_slice(alloc, word)?))
}

fn read_side(fields: &mut Fields<'_>) -> Result<Side, LineFault>
    ensures { Takes one_side fields.old fields.new result }
{
    let word = fields.next()?;
    if is(word, b"from-client") {
        Ok(Side::Client)
    } else if is(word, b"from-server") {
        Ok(Side::Server)
    } else {
        Err(LineFault::Refused)
    }
}

fn read_frame_said(alloc: Global, fields: &mut Fields<'_>) -> Result<FrameSaid, LineFault>
    ensures { Takes frame_taken fields.old fields.new result }
{
    Ok(FrameSaid {
        client: read_address(alloc, fields)?,
        server: read_address(alloc, fields)?,
        from: read_side(fields)?,
        acknowledged: fields.number()?,
        bytes: fields.bytes(alloc)?,
    })
}

fn read_said(alloc: Global, kind: &[u8], fields: &mut Fields<'_>) -> Result<Said, LineFault>
    ensures { Takes (said_taken kind.now) fields.old fields.new result }
{
    if is(kind, b"frame") {
        Ok(Said::Frame(read_frame_said(alloc, fields)?))
    } else if is(kind, b"gap") {
        Ok(Said::Gap)
    } else if is(kind, b"end") {
        Ok(Said::End)
    } else {
        Err(LineFault::Refused)
    }
}

fn read_fields(alloc: Global, fields: &mut Fields<'_>) -> Result<Line, LineFault>
    ensures { Takes line_taken fields.old fields.new result }
{
    let kind = fields.next()?;
    let packet = fields.number()?;
    let time = read_time(alloc, fields)?;
    let connection = fields.number()?;
    let said = read_said(alloc, kind, fields)?;
    let messages = names_said(alloc, &said)?;
    Ok(Line {
        moment: Moment {
            packet,
            time,
            messages,
        },
        connection,
        said,
    })
}

// What a line says that isn't passed over.
#[tactic(auto, unfolding(crate::specs::Lines::line_in))]
pub(crate) fn read_line(alloc: Global, text: &[u8]) -> Result<Line, LineFault>
    ensures { Reads line_in text.now result }
{
    let mut fields = Fields::of(text);
    let line = read_fields(alloc, &mut fields)?;
    fields.end()?;
    Ok(line)
}
