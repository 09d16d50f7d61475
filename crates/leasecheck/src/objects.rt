ghost use Rattle.std.specs.Prelude.{◌≡◌, ◌≢◌, ◌<◌, ◌++◌, ◌∷◌, [], IfOk, OnOk, map, length};
ghost use Rattle.json.specs.Print.{print};
ghost use Rattle.json.specs.Token.{string};
ghost use Rattle.lease_texts.specs.Pieces.{lines_of};
ghost use Rattle.leasecheck.specs.Objects.{capture_members, capture_word, lines_member, number_member, object_text, verdict_members};
ghost use Rattle.leasecheck.specs.Objects.{word_member};

use capture_texts::CaptureVerdict;
use json::Writer;
use lease_world::Verdict;
use std::alloc::{AllocError, Global};

// The first line of a text, without its line feed, and what follows.
fn first_line(text: &str) -> (&str, &str)
    requires { text.now ≢ [] }
    ensures lines { lines_of text.now ≡ result.0.now ∷ lines_of result.1.now }
    ensures less { length result.1.now < length text.now }
{
    match text.split_once('\n') {
        Some((line, behind)) => (line, behind),
        None => (text, ""),
    }
}

fn push_lines(object: &mut Writer, text: &str) -> Result<(), AllocError>
    ensures tokens { OnOk result (object.new.tokens ≡ object.old.tokens ++ map (λ line. string line) (lines_of text.now)) }
    ensures same { OnOk result (object.new.before ≡ object.old.before) }
{
    let mut rest = text;
    while !rest.is_empty() {
        let (line, behind) = first_line(rest);
        object.string(line)?;
        rest = behind;
    }
    Ok(())
}

fn push_word(object: &mut Writer, word: &str) -> Result<(), AllocError>
    ensures tokens { OnOk result (object.new.tokens ≡ object.old.tokens ++ word_member word.now) }
    ensures same { OnOk result (object.new.before ≡ object.old.before) }
{
    object.key("verdict")?;
    object.string(word)
}

fn push_number(object: &mut Writer, name: &str, number: u64) -> Result<(), AllocError>
    ensures tokens { OnOk result (object.new.tokens ≡ object.old.tokens ++ number_member name.now number) }
    ensures same { OnOk result (object.new.before ≡ object.old.before) }
{
    object.key(name)?;
    object.u64(number)
}

fn push_verdict(object: &mut Writer, verdict: &Verdict) -> Result<(), AllocError>
    ensures tokens { OnOk result (object.new.tokens ≡ object.old.tokens ++ verdict_members verdict.now) }
    ensures same { OnOk result (object.new.before ≡ object.old.before) }
{
    match verdict {
        Verdict::Safe => push_word(object, "safe"),
        Verdict::Unsafe { place, rule } => {
            push_word(object, "unsafe")?;
            push_number(object, "place", *place)?;
            push_number(object, "rule", u64::from(rule.number()))
        }
        Verdict::Malformed { place } => {
            push_word(object, "malformed")?;
            push_number(object, "place", *place)
        }
    }
}

fn capture_word(verdict: CaptureVerdict) -> &'static str
    ensures { result.now ≡ capture_word verdict }
{
    match verdict {
        CaptureVerdict::Safe => "safe",
        CaptureVerdict::Unsafe => "unsafe",
        CaptureVerdict::NothingJudged => "nothing judged",
    }
}

// The text of an object whose first members are written, with the lines of a text behind them.
fn ended(mut object: Writer, name: &str, lines: &str) -> Result<Vec<u8>, AllocError>
    requires { object.before ≡ [] }
    ensures { IfOk result (λ text. text.items ≡ print (object.tokens ++ lines_member name.now (lines_of lines.now)) ++ 10 ∷ []) }
{
    object.key(name)?;
    object.begin_array()?;
    push_lines(&mut object, lines)?;
    object.end_array()?;
    object.end_object()?;
    let mut text = object.into_inner();
    text.push(b'\n')?;
    Ok(text)
}

/// The verdict on a record, and the lines of a text under a name, as one JSON object in a line.
pub fn record_object(
    alloc: Global,
    verdict: &Verdict,
    name: &str,
    lines: &str,
) -> Result<Vec<u8>, AllocError>
    ensures { IfOk result (λ text. text.items ≡ object_text (verdict_members verdict.now) name.now (lines_of lines.now)) }
{
    let mut object = Writer::new(Vec::new(alloc));
    object.begin_object()?;
    push_verdict(&mut object, verdict)?;
    ended(object, name, lines)
}

/// The same of the verdict on a capture.
pub fn capture_object(
    alloc: Global,
    verdict: CaptureVerdict,
    name: &str,
    lines: &str,
) -> Result<Vec<u8>, AllocError>
    ensures { IfOk result (λ text. text.items ≡ object_text (capture_members verdict) name.now (lines_of lines.now)) }
{
    let mut object = Writer::new(Vec::new(alloc));
    object.begin_object()?;
    push_word(&mut object, capture_word(verdict))?;
    ended(object, name, lines)
}
