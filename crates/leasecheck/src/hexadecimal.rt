ghost use Rattle.std.specs.Prelude.{◌≡◌, ◌⊎◌, ◌<◌, ◌++◌, ℕ, List, length, IfOk, IfErr, IsErr};
ghost use Rattle.hex.specs.Hex.{decode_of};
ghost use Rattle.leasecheck.specs.Arguments.{is_separator, digits_in, without_prefix, argument_bytes};

use crate::failure::Failure;
use hex::FromHexError;
use std::alloc::{AllocError, Global};

pub(crate) fn without_prefix(text: &[u8]) -> &[u8]
    ensures { result.now ≡ without_prefix text.now }
{
    text.strip_prefix(b"0x").unwrap_or(text)
}

fn is_separator(code: u8) -> bool
    ensures { result ≡ is_separator code }
{
    code == b':' || code == b' '
}

// A byte's two digits, and the text from the next byte on.
pub(crate) fn split_byte(text: &[u8]) -> (&[u8], &[u8])
    requires { 3 < length text.now }
    ensures digits { digits_in text.now ≡ result.0.now ++ digits_in result.1.now }
    ensures shorter { length result.1.now < length text.now }
{
    let (digits, behind) = text.split_at(2);
    if is_separator(behind[0]) {
        (digits, &behind[1..])
    } else {
        (digits, behind)
    }
}

// The digits of a text without what stands between its bytes.
pub(crate) fn digits_in(alloc: Global, text: &[u8]) -> Result<Vec<u8>, AllocError>
    ensures { IfOk result (λ digits. digits.items ≡ digits_in text.now) }
{
    let mut digits = Vec::new(alloc);
    let mut rest = text;
    while rest.len() > 3 {
        let (byte, behind) = split_byte(rest);
        digits.extend_from_slice(byte)?;
        rest = behind;
    }
    digits.extend_from_slice(rest)?;
    Ok(digits)
}

/// The bytes that an argument gives: hexadecimal digits of either case, two a byte. They may begin
/// with `0x`, and one colon or one space may stand between two bytes.
///
/// # Errors
///
/// `Hex` where the text writes no bytes so, and `Memory` where there is none for them.
#[tactic(auto, unfolding(crate::specs::Arguments::argument_bytes), using(crate::proofs::Digits::plain_argument))]
pub fn argument_bytes(alloc: Global, argument: &str) -> Result<Vec<u8>, Failure>
    ensures bytes { IfOk result (λ bytes. argument_bytes argument.now ≡ Ok bytes.items) }

    // Digits alone write what they always do.
    ensures plain { (bytes : List ℕ) → decode_of argument.now ≡ Ok bytes → argument_bytes argument.now ≡ Ok bytes }
    ensures refused { IfErr result (λ failure. (failure ≡ Failure.Memory)
        ⊎ ((failure ≡ Failure.Hex) × IsErr (argument_bytes argument.now))) }
{
    let digits = digits_in(alloc, without_prefix(argument.as_bytes()))?;
    match hex::decode(alloc, digits.as_slice()) {
        Ok(bytes) => Ok(bytes),
        Err(FromHexError::OutOfMemory) => Err(Failure::Memory),
        Err(_) => Err(Failure::Hex),
    }
}
