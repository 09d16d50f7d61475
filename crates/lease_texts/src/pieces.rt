ghost use Rattle.std.specs.Prelude.{◌≡◌, ◌==◌, ◌∷◌, []};
ghost use Rattle.std.specs.{Option.option_copied, List.position};
ghost use Rattle.lease_texts.specs.Pieces.{pieces, pieces_behind};

/// What stands before the first separator, and what follows it; all, and nothing, where there is none.
#[tactic(auto, using(crate::proofs::Cut::separator_at, crate::proofs::Cut::no_separator))]
pub fn split_first(separator: u8, bytes: &[u8]) -> (&[u8], Option<&[u8]>)
    ensures { pieces separator ([] ∷ []) bytes.now ≡ result.0.now ∷ pieces_behind separator ([] ∷ []) (option_copied result.1) }
{
    match place_of(separator, bytes) {
        Some(place) => (&bytes[..place], Some(&bytes[place + 1..])),
        None => (bytes, None),
    }
}

// Where the first separator is. Fields are short, so the bytes are looked at one by one.
fn place_of(separator: u8, bytes: &[u8]) -> Option<usize>
    ensures { result ≡ position (λ byte. byte == separator) bytes.now }
{
    bytes.iter().position(|byte| *byte == separator)
}
