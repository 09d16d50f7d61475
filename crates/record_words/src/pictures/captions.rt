ghost use Rattle.std.specs.Prelude.{◌≡◌, IfOk, ◌==◌};
ghost use Rattle.std.specs.List.{list_any};
ghost use Rattle.record_words.specs.pictures.Captions.{caption_of, seen_caption};

use crate::pictures::picture::Caption;
use crate::words::push_fact_words;
use lease_facts::Fact;
use std::alloc::{AllocError, Global};

fn is_among(places: &[usize], place: usize) -> bool
    ensures { result ≡ list_any (λ one. one == place) places.now }
{
    places.iter().any(|one| *one == place)
}

/// What the mark of the fact at a place says.
pub fn caption_of(
    alloc: Global,
    bad: &[usize],
    place: usize,
    fact: &Fact,
) -> Result<Caption, AllocError>
    ensures { IfOk result (λ caption. seen_caption caption ≡ caption_of bad.now place fact.now) }
{
    let mut words = String::new(alloc);
    push_fact_words(alloc, &mut words, fact)?;
    Ok(Caption {
        place,
        kind: fact.kind(),
        is_bad: is_among(bad, place),
        words,
    })
}
