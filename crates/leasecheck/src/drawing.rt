ghost use Rattle.std.specs.Prelude.{◌≡◌, ◌⊎◌, List, [], length, Some, None, Ok, Err, MatchResult, IfOk};
ghost use Rattle.lease_texts.specs.Drafts.{draft_of};
ghost use Rattle.lease_texts.specs.Records.{record_in};
ghost use Rattle.leasecheck.specs.Drawing.{ArePassagesOf, Draws, IsDrawn, IsRunOf, RefusesDraw, too_many_facts};
ghost use Rattle.leasecheck.specs.Drawing.{run_facts_refusal};
ghost use Rattle.lease_facts.specs.declared.passage.Passage as code_passage;
ghost use Rattle.leasecheck.specs.Replayed.{RefusesRun};

use crate::comments::comments_of;
use crate::explaining::placed_of;
use crate::failure::Failure;
use crate::judging::push_verdict;
use crate::refusal::Refusal;
use crate::replaying::not_run;
use lease_reasons::{Extent, Reason, explain, extent_of};
use lease_state::{Bytes, Reply, Rules};
use lease_texts::{Schedule, TextFault, read_schedule};
use lease_world::{Kept, Passage, Told, Verdict, judge, run_under};
use record_words::{
    MOST_FACTS, Picture, PictureFault, Placed, bad_places, picture_of, push_picture, push_reasoned,
};
use std::alloc::{AllocError, Global};

// The verdict on facts, why it is that, and how much was judged.
fn notes_of(
    alloc: Global,
    placed: &Placed,
    verdict: &Verdict,
    reason: &Option<Reason>,
    extent: &Extent,
) -> Result<String, AllocError> {
    let mut notes = String::new(alloc);
    push_verdict(&mut notes, verdict)?;
    push_reasoned(alloc, &mut notes, placed, verdict, reason, extent)?;
    Ok(notes)
}

fn text_of(alloc: Global, picture: &Picture) -> Result<String, AllocError> {
    let mut text = String::new(alloc);
    push_picture(&mut text, picture)?;
    Ok(text)
}

// The picture of facts, with what comments say of them, the messages that they speak of and what became of requests, where these
// are known.
fn drawn(
    alloc: Global,
    placed: &Placed,
    said: &[Bytes],
    messages: &[Reply],
    passages: &[Passage],
) -> Result<Picture, Refusal>
    ensures drawn { IfOk result (λ picture. IsDrawn placed.now said.now passages.now picture) }
    ensures refused { MatchResult result (λ _. too_many_facts (length placed.now.facts.items) ≡ None)
        (λ told. (told.failure ≡ Failure.Memory) ⊎ (too_many_facts (length placed.now.facts.items) ≡ Some told.failure)) }
{
    let facts = placed.facts.as_slice();
    if facts.len() > MOST_FACTS {
        return Err(Refusal::of_picture(alloc, PictureFault::TooMany, facts.len()));
    }
    let verdict = judge(alloc, facts)?;
    let reason = explain(alloc, facts, &verdict)?;
    let extent = extent_of(alloc, facts, &verdict)?;
    let notes = notes_of(alloc, placed, &verdict, &reason, &extent)?;
    let bad = bad_places(alloc, &verdict, &reason)?;
    match picture_of(
        alloc,
        facts,
        bad.as_slice(),
        notes,
        said,
        messages,
        passages,
    ) {
        Ok(picture) => Ok(picture),
        Err(fault) => Err(Refusal::of_picture(alloc, fault, facts.len())),
    }
}

// A run of a schedule, with what is drawn of it.
#[derive(Debug, Drop)]
struct Played {
    placed: Placed,
    messages: Vec<Reply>,
    passages: Vec<Passage>,
}

// The run of a schedule. It is safe, so no line of it is spoken of.
fn ran(alloc: Global, schedule: &Schedule) -> Result<Played, Refusal>
    ensures ran { IfOk result (λ run. IsRunOf (draft_of schedule.now) run.placed) }
    ensures passages { IfOk result (λ run. ArePassagesOf (draft_of schedule.now) run.passages.items) }
    ensures refused { RefusesRun (draft_of schedule.now) result }
{
    let (rules, events) = (Rules::profile(), schedule.events.as_slice());
    let kept = Kept {
        messages: true,
        idle: false,
        passages: true,
    };
    match run_under(alloc, rules, kept, &schedule.setup, events) {
        Ok(told) => {
            let Told {
                facts,
                messages,
                passages,
                ..
            } = told;
            let lines = Vec::new(alloc);
            Ok(Played {
                placed: Placed { facts, lines },
                messages,
                passages,
            })
        }
        Err(fault) => Err(Refusal::of_run(alloc, not_run(fault), schedule)),
    }
}

// The picture of the run of a schedule.
fn run_drawn(alloc: Global, schedule: &Schedule) -> Result<Picture, Refusal>
    ensures drawn { IfOk result (λ picture. (placed : Placed) × (passages : List code_passage.Passage)
        × IsDrawn placed [] passages picture
        × IsRunOf (draft_of schedule.now) placed × ArePassagesOf (draft_of schedule.now) passages) }
    ensures refused { MatchResult result (λ _. run_facts_refusal (Ok (draft_of schedule.now)) ≡ None)
        (λ told. (told.failure ≡ Failure.Memory) ⊎ (run_facts_refusal (Ok (draft_of schedule.now)) ≡ Some told.failure)) }
{
    let played = ran(alloc, schedule)?;
    let (messages, passages) = (played.messages.as_slice(), played.passages.as_slice());
    let picture = drawn(alloc, &played.placed, &[], messages, passages)?;
    Ok(picture)
}

// The picture of the run of a schedule that the text is, where it isn't the record that its line of this number keeps it from
// being.
fn draw_schedule(
    alloc: Global,
    text: &[u8],
    number: u64,
    refusal: Refusal,
) -> Result<Picture, Refusal>
    requires read { record_in text.now ≡ Err number }
    requires failure { refusal.failure ≡ Failure.Line number }
    ensures drawn { IfOk result (λ drawn. Draws text.now drawn) }
    ensures refused { RefusesDraw text.now result }
{
    match read_schedule(alloc, text) {
        Ok(schedule) => {
            let drawn = run_drawn(alloc, &schedule)?;
            Ok(drawn)
        }
        Err(TextFault::Line(other)) => {
            if number < other {
                Err(Refusal::of_part(alloc, other, text))
            } else {
                Err(refusal)
            }
        }
        Err(TextFault::Memory) => Err(Refusal::bare(Failure::Memory)),
    }
}

// The picture of a text that is a record, or else a schedule, which is run first.
fn picture_drawn(alloc: Global, text: &[u8]) -> Result<Picture, Refusal>
    ensures drawn { IfOk result (λ drawn. Draws text.now drawn) }
    ensures refused { RefusesDraw text.now result }
{
    match placed_of(alloc, text) {
        Ok(placed) => {
            let said = comments_of(alloc, text)?;
            let drawn = drawn(alloc, &placed, said.as_slice(), &[], &[])?;
            Ok(drawn)
        }
        Err(refusal) => match refusal.failure {
            Failure::Line(number) => draw_schedule(alloc, text, number, refusal),
            _ => Err(refusal),
        },
    }
}

/// What `leasecheck draw` prints for a text that is a record, or else a schedule, which is run first: a picture as SVG.
///
/// # Errors
///
/// A text that is neither is refused as whichever it has more lines of, and as a record where both
/// have as many: `Line` with the number of the first line that is refused. Else `Run` where there
/// is no run of the schedule, `Picture` where there are more than 5000 facts, and `Memory` where
/// there is none left.
pub fn draw_text(alloc: Global, text: &[u8]) -> Result<String, Refusal>
    ensures { RefusesDraw text.now result }
{
    let picture = picture_drawn(alloc, text)?;
    let drawn = text_of(alloc, &picture)?;
    Ok(drawn)
}
