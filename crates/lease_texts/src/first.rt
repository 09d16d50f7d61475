//! The first field of a line, read where it stands.

ghost use Rattle.std.specs.Prelude.{◌≡◌, ◌∷◌, [], false, true, MatchOption};
ghost use Rattle.std.specs.Option.{option_copied, option_map};
ghost use Rattle.lease_texts.specs.{Fields.ordinal_in, Kinds.begins, Kinds.one, Kinds.with_rest};
ghost use Rattle.lease_texts.specs.Pieces.{all_above, fields_of, pieces_behind};

use crate::pieces::split_first;
use crate::words::{ordinal_digit, ordinal_in};
use lease_facts::is;

/// What follows the first field, where that is this word.
#[inline(always)]
#[tactic(auto, using(crate::proofs::Heads::first_word))]
pub(crate) fn after_word<'a>(line: &'a [u8], word: &[u8]) -> Option<Option<&'a [u8]>>
    requires { all_above 32 word.now ≡ true }
    ensures { MatchOption result (begins word.now (fields_of line.now) ≡ false)
        (λ rest. fields_of line.now ≡ word.now ∷ pieces_behind 32 ([] ∷ []) (option_copied rest)) }
{
    if line.len() < word.len() {
        return None;
    }
    let (head, tail) = line.split_at(word.len());
    if !is(head, word) {
        return None;
    }
    match tail {
        [] => Some(None),
        [next, rest @ ..] if *next == b' ' => Some(Some(rest)),
        _ => None,
    }
}

// An ordinal of one digit, with what follows it.
#[inline(always)]
fn one_digit(digit: u8, rest: Option<&[u8]>) -> Option<(u8, Option<&[u8]>)>
    ensures { with_rest (ordinal_in (digit ∷ [])) (pieces_behind 32 ([] ∷ []) (option_copied rest.entry))
        ≡ option_map (λ got. (got.0, pieces_behind 32 ([] ∷ []) (option_copied got.1))) result }
{
    match ordinal_digit(digit) {
        Some(ordinal) => Some((ordinal, rest)),
        None => None,
    }
}

#[inline(never)]
fn any_ordinal(line: &[u8]) -> Option<(u8, Option<&[u8]>)>
    ensures { one ordinal_in (fields_of line.now)
        ≡ option_map (λ got. (got.0, pieces_behind 32 ([] ∷ []) (option_copied got.1))) result }
{
    let (field, rest) = split_first(b' ', line);
    match ordinal_in(field) {
        Some(ordinal) => Some((ordinal, rest)),
        None => None,
    }
}

/// The first field as the number of a client or of a file, and what follows it. Most are of one digit.
#[inline(always)]
#[tactic(auto, using(crate::proofs::Heads::digit_alone, crate::proofs::Heads::digit_first))]
pub(crate) fn first_ordinal(line: &[u8]) -> Option<(u8, Option<&[u8]>)>
    ensures { one ordinal_in (fields_of line.now)
        ≡ option_map (λ got. (got.0, pieces_behind 32 ([] ∷ []) (option_copied got.1))) result }
{
    match line {
        [digit] => one_digit(*digit, None),
        [digit, next, rest @ ..] if *next == b' ' => one_digit(*digit, Some(rest)),
        _ => any_ordinal(line),
    }
}
