ghost use Rattle.std.specs.Prelude.{◌≡◌, ◌++◌, ◌∷◌, [], OnOk, IfOk};
ghost use Rattle.record_words.specs.words.BadPlaces.{place_if, expected_places, reason_places, places_behind, bad_places};
ghost use Rattle.record_words.specs.words.Explained.{bad_place};

use crate::words::explained::bad_place;
use lease_facts::Verdict;
use lease_reasons::{Expected, Reason};
use std::alloc::{AllocError, Global};

fn push_if(places: &mut Vec<usize>, place: Option<usize>) -> Result<(), AllocError>
    ensures { OnOk result (places.new.items ≡ places.old.items ++ place_if place) }
{
    match place {
        None => Ok(()),
        Some(place) => Ok(places.push(place)?),
    }
}

fn push_expected(places: &mut Vec<usize>, expected: &Expected) -> Result<(), AllocError>
    ensures { OnOk result (places.new.items ≡ places.old.items ++ expected_places expected.now) }
{
    places.push(expected.taken)?;
    places.push(expected.sent)?;
    push_if(places, expected.started)?;
    push_if(places, expected.changed)?;
    places.extend_from_slice(expected.unanswered.as_slice())
}

fn push_reason_places(places: &mut Vec<usize>, reason: &Reason) -> Result<(), AllocError>
    ensures { OnOk result (places.new.items ≡ places.old.items ++ reason_places reason.now) }
{
    match reason {
        Reason::NotStarted { .. }
        | Reason::PastLimit { .. }
        | Reason::NotJoined { .. }
        | Reason::NoMessage { .. } => Ok(()),
        Reason::StartedAgain { before, .. } | Reason::NumberUsed { before, .. } => {
            push_if(places, Some(*before))
        }
        Reason::NothingToTake { joined, .. } => push_if(places, Some(*joined)),
        Reason::TwoCaches { writer, other, .. } => {
            push_if(places, Some(writer.place))?;
            push_if(places, Some(other.place))
        }
        Reason::StaleRead { expected, .. } => push_expected(places, expected),
        Reason::LateWrite { wrote, touched, .. } => {
            push_if(places, Some(*wrote))?;
            push_if(places, Some(*touched))
        }
        Reason::FalseDone { wrote, changed, .. } => {
            push_if(places, *wrote)?;
            push_if(places, *changed)
        }
    }
}

fn push_behind(places: &mut Vec<usize>, reason: &Option<Reason>) -> Result<(), AllocError>
    ensures { OnOk result (places.new.items ≡ places.old.items ++ places_behind reason.now) }
{
    match reason {
        None => Ok(()),
        Some(reason) => push_reason_places(places, reason),
    }
}

/// The places, from 1, of the facts that make a record bad: that of the bad fact, and those of the facts that its reason names.
///
/// # Errors
///
/// `AllocError` where there is no memory for the list.
pub fn bad_places(
    alloc: Global,
    verdict: &Verdict,
    reason: &Option<Reason>,
) -> Result<Vec<usize>, AllocError>
    ensures { IfOk result (λ places. places.items ≡ bad_places verdict.now reason.now) }
{
    let mut places = Vec::new(alloc);
    push_if(&mut places, bad_place(verdict))?;
    push_behind(&mut places, reason)?;
    Ok(places)
}
