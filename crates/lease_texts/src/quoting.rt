ghost use Rattle.std.specs.Prelude.{◌≡◌, ◌++◌, [], take, OnOk};
ghost use Rattle.std.specs.{List.flat_map, String.string_bytes};
ghost use Rattle.lease_texts.specs.Quoting.{is_plain, escaped, quoted, quoted_end};

use std::alloc::{AllocError, Global};

fn is_plain(byte: u8) -> bool
    ensures { result ≡ is_plain byte }
{
    byte >= 32 && byte < 127 && !(byte == b'"' || byte == b'\\')
}

#[tactic(auto, unfolding(crate::specs::Quoting::escaped))]
fn push_escaped(alloc: Global, text: &mut String, byte: u8) -> Result<(), AllocError>
    ensures { OnOk result (string_bytes text.new ≡ string_bytes text.old ++ escaped byte) }
{
    if is_plain(byte) {
        text.push(char::from(byte))
    } else {
        let digits = hex::encode(alloc, [byte])?;
        write!(text, "\\x{digits}")
    }
}

/// Appends bytes as they are quoted: those that aren't printable ASCII, quotation marks and backslashes as `\xHH`.
///
/// # Errors
///
/// `AllocError` where there is no memory for them.
pub fn push_all_escaped(alloc: Global, text: &mut String, bytes: &[u8]) -> Result<(), AllocError>
    ensures { OnOk result (string_bytes text.new ≡ string_bytes text.old ++ flat_map escaped bytes.now) }
{
    for byte in bytes {
        push_escaped(alloc, text, *byte)?;
    }
    Ok(())
}

// The first 40 bytes, where there are so many.
fn first_quoted(bytes: &[u8]) -> &[u8]
    ensures { result.now ≡ take 40 bytes.now }
{
    if bytes.len() > 40 {
        bytes.split_at(40).0
    } else {
        bytes
    }
}

fn quoted_end(bytes: &[u8]) -> &'static str
    ensures { result.now ≡ quoted_end bytes.now }
{
    if bytes.len() > 40 { "..." } else { "" }
}

/// Quotes bytes: those that aren't printable ASCII, quotation marks and backslashes are written as
/// `\xHH`, and of more than 40 bytes the first 40 are quoted, with `...` after them.
#[tactic(auto, unfolding(crate::specs::Quoting::quoted))]
pub fn push_quoted(alloc: Global, text: &mut String, bytes: &[u8]) -> Result<(), AllocError>
    ensures { OnOk result (string_bytes text.new ≡ string_bytes text.old ++ quoted bytes.now) }
{
    text.push_str("\"")?;
    push_all_escaped(alloc, text, first_quoted(bytes))?;
    text.push_str("\"")?;
    text.push_str(quoted_end(bytes))
}
