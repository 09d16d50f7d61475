ghost use Rattle.std.specs.Prelude.{◌≡◌, ◌≢◌, ◌≤◌, ◌⊎◌, ◌++◌, ℕ, List, Option, MatchResult, IfSome, IfOk, IfErr, true, false};
ghost use Rattle.std.specs.Prelude.{[], IsOk, OnOk, length, take};
ghost use Rattle.std.specs.String.{string_bytes};
ghost use Rattle.std.specs.Io.KnownBytes.{Appends, Keeps};
ghost use Rattle.capture_texts.specs.Captures.{capture_in};
ghost use Rattle.lease_texts.specs.Records.{record_in};
ghost use Rattle.lease_wire.specs.WireFaults.{message_fault};
ghost use Rattle.lease_wire.specs.declared.fault.WireFault.{WireFault};
ghost use Rattle.leasecheck.specs.Answer.{AnswersWith};
ghost use Rattle.leasecheck.specs.Arguments.{Gives};
ghost use Rattle.leasecheck.specs.Drawing.{draw_refusal};
ghost use Rattle.leasecheck.specs.Known.{OfBytes};
ghost use Rattle.leasecheck.specs.Made.{Answers, AnswersTo, IsGiven, PrintsOrEnds, is_record, text_made, status_made};
ghost use Rattle.leasecheck.specs.Paths.{file_named};
ghost use Rattle.leasecheck.specs.Printed.{Prints, TellsCapture, TellsReason, TellsRun, TellsVerdict};
ghost use Rattle.leasecheck.specs.Printed.{capture_record_text, reason_text, run_text};
ghost use Rattle.leasecheck.specs.Printed.{findings_text as findings_told};
ghost use Rattle.leasecheck.specs.Capturing.{capture_status};
ghost use Rattle.leasecheck.specs.Recording.{recorded_text};
ghost use Rattle.leasecheck.specs.Refusals.{Begins, Ends, IsRefused, MayEnd, MayEndGiven, MayEndJudging, MayEndReading, MayStop};
ghost use Rattle.leasecheck.specs.Refusals.{Puts, failure_line, given_refusal, is_lines, is_replay, line_refusal, second_of, shown_fault};
ghost use Rattle.leasecheck.specs.Replayed.{replay_refusal, status_of};
ghost use Rattle.leasecheck.specs.Shown.{Shows};

use crate::capturing::{capture_findings, capture_record, findings_text};
use crate::drawing::draw_text;
use crate::explaining::{explanation_of, reason_text};
use crate::failure::Failure;
use crate::judging::{judge_text, push_verdict, status_of};
use crate::objects::{capture_object, record_object};
use crate::reading::read_all;
use crate::recording::{Record, record_text, write_record};
use crate::refusal::Refusal;
use crate::replaying::replay;
use crate::tasks::{CaptureForm, Form, Kind, Task, Telling, VERSION, file_named};
use crate::wire::{ack_lines, render};
use crate::{capturing, hexadecimal};
use arrayvec::ArrayString;
use capture_texts::{CaptureVerdict, Side};
use lease_state::Rules;
use lease_world::Verdict;
use std::alloc::{AllocError, Global};
use std::fmt::Write as _;
use std::io::{ErrorKind, Read, Write};
use std::str::from_utf8;

// More bytes than the line of any failure has.
const LINE: usize = 80;

// What a task prints, and the exit status.
#[derive(Drop)]
struct Printed {
    text: String,
    status: u8,
}

// A JSON object that a task prints, and the exit status.
#[derive(Drop)]
struct Object {
    text: Vec<u8>,
    status: u8,
}

// What a task has made before anything is written.
#[derive(Drop)]
enum Made {
    Text(Printed),
    /// Its text is made as it is written.
    Record(Record),
    Object(Object),
}

fn done(text: String) -> Printed
    ensures { (string_bytes result.text ≡ string_bytes text) × (result.status ≡ 0) }
{
    Printed { text, status: 0 }
}

// The verdict on the record that a reader gives, which is judged as it is read.
fn judged<I: Read>(alloc: Global, input: &mut I) -> Result<Made, Refusal>
    ensures answers { OfBytes (I.remaining input.old) (λ bytes. Answers (TellsVerdict bytes) (line_refusal (record_in bytes))
        (MayEndJudging bytes) result) }
    ensures record { IfOk result (λ made. is_record made ≡ false) }
{
    let verdict = judge_text(alloc, input)?;
    let mut text = String::new(alloc);
    push_verdict(&mut text, &verdict)?;
    let status = status_of(&verdict);
    Ok(Made::Text(Printed { text, status }))
}

// The bytes of the file that an argument names, or those that its digits write.
fn bytes_given<I: Read>(alloc: Global, argument: &str, input: &mut I) -> Result<Vec<u8>, Refusal>
    ensures given { IfOk result (λ bytes. OfBytes (I.remaining input.old) (λ file. Gives argument.now file bytes.items)) }
    ensures refused { IfErr result (λ refusal. (fault : List ℕ → Option WireFault) (file : List ℕ)
        → MayEndGiven fault argument.now file refusal.failure) }
{
    match file_named(argument) {
        Some(_) => Ok(read_all(alloc, input)?),
        None => match hexadecimal::argument_bytes(alloc, argument) {
            Ok(bytes) => Ok(bytes),
            Err(failure) => Err(Refusal::of_digits(alloc, failure, argument)),
        },
    }
}

// The bytes that a task goes by.
fn given_to<I: Read>(alloc: Global, task: &Task, input: &mut I) -> Result<Vec<u8>, Refusal>
    ensures given { IfOk result (λ given. OfBytes (I.remaining input.old) (λ file. IsGiven task.now file given.items)) }
    ensures refused { IfErr result (λ refusal. (file : List ℕ) → MayEnd task.now file refusal.failure) }
{
    match task {
        Task::Ack(argument) => bytes_given(alloc, argument.as_str(), input),
        Task::Show(_, argument) => bytes_given(alloc, argument.as_str(), input),
        Task::Version => Ok(Vec::new(alloc)),
        Task::Replay(_, _, _)
        | Task::Judge(_)
        | Task::Explain(_, _)
        | Task::Draw(_)
        | Task::Capture(_, _, _, _) => {
            let bytes = read_all(alloc, input)?;
            Ok(bytes)
        }
    }
}

fn acknowledged(alloc: Global, given: &[u8]) -> Result<Made, Refusal>
    ensures answers { (argument : List ℕ) (file : List ℕ) → Gives argument file given.now
        → Answers (λ text status. (status ≡ 0) × AnswersWith given.now text)
        (given_refusal (message_fault 44) argument (file_named argument) file) (MayEndGiven (message_fault 44) argument file)
        result }
    ensures record { IfOk result (λ made. is_record made ≡ false) }
{
    match ack_lines(alloc, given) {
        Ok(text) => Ok(Made::Text(done(text))),
        Err(failure) => Err(Refusal::of_notification(alloc, failure, given)),
    }
}

fn shown(alloc: Global, kind: Kind, given: &[u8]) -> Result<Made, Refusal>
    ensures answers { (argument : List ℕ) (file : List ℕ) → Gives argument file given.now
        → Answers (λ text status. (status ≡ 0) × Shows kind given.now text)
        (given_refusal (shown_fault kind) argument (file_named argument) file) (MayEndGiven (shown_fault kind) argument file)
        result }
    ensures record { IfOk result (λ made. is_record made ≡ false) }
{
    match render(alloc, kind, given) {
        Ok(text) => Ok(Made::Text(done(text))),
        Err(failure) => Err(Refusal::of_shown(alloc, failure, kind, given)),
    }
}

// A run in the form in which it is told.
fn run_made(alloc: Global, form: Form, ran: Record) -> Result<Made, Failure>
    ensures text { IfOk result (λ made. (text_made made ≡ run_text form (recorded_text ran)) × (status_made made ≡ 0)) }
    ensures record { IfOk result (λ made. is_record made ≡ is_lines form) }
    ensures failed { IfErr result (λ failure. failure ≡ Failure.Memory) }
{
    match form {
        Form::Lines => Ok(Made::Record(ran)),
        Form::Json => {
            let record = record_text(alloc, &ran)?;
            // (it is put together of text, so this is never refused)
            let Ok(lines) = from_utf8(record.as_slice()) else {
                return Err(Failure::Memory);
            };
            let text = record_object(alloc, &Verdict::Safe, "record", lines)?;
            Ok(Made::Object(Object { text, status: 0 }))
        }
    }
}

fn replayed(alloc: Global, telling: Telling, rules: Rules, schedule: &[u8]) -> Result<Made, Refusal>
    ensures answers { Answers (λ text status. (status ≡ 0) × TellsRun telling rules schedule.now text)
        (replay_refusal schedule.now) (MayEndReading (replay_refusal schedule.now)) result }
    ensures record { IfOk result (λ made. is_record made ≡ is_lines telling.form) }
{
    let ran = replay(alloc, telling, rules, schedule)?;
    let made = run_made(alloc, telling.form, ran)?;
    Ok(made)
}

// A verdict with what explains it.
fn reason_made(
    alloc: Global,
    form: Form,
    verdict: &Verdict,
    explanation: &str,
) -> Result<Made, AllocError>
    ensures text { IfOk result (λ made. (text_made made ≡ reason_text form verdict.now explanation.now)
        × (status_made made ≡ status_of verdict.now)) }
    ensures record { IfOk result (λ made. is_record made ≡ false) }
{
    let status = status_of(verdict);
    match form {
        Form::Lines => {
            let text = reason_text(alloc, verdict, explanation)?;
            Ok(Made::Text(Printed { text, status }))
        }
        Form::Json => {
            let text = record_object(alloc, verdict, "explanation", explanation)?;
            Ok(Made::Object(Object { text, status }))
        }
    }
}

// The verdict on a record, and why it is that.
fn explained(alloc: Global, form: Form, bytes: &[u8]) -> Result<Made, Refusal>
    ensures answers { Answers (TellsReason form bytes.now) (line_refusal (record_in bytes.now))
        (MayEndReading (line_refusal (record_in bytes.now))) result }
    ensures record { IfOk result (λ made. is_record made ≡ false) }
{
    let (explanation, verdict) = explanation_of(alloc, bytes)?;
    let made = reason_made(alloc, form, &verdict, explanation.as_str())?;
    Ok(made)
}

// The picture of a record, or of the run of a schedule.
fn drawn(alloc: Global, file: &[u8]) -> Result<Made, Refusal>
    ensures answers { Answers (λ text status. status ≡ 0) (draw_refusal file.now)
        (MayEndReading (draw_refusal file.now)) result }
    ensures record { IfOk result (λ made. is_record made ≡ false) }
{
    let text = draw_text(alloc, file)?;
    Ok(Made::Text(done(text)))
}

// The verdict on a capture, with what is found in it.
fn findings_made(
    alloc: Global,
    form: Form,
    verdict: CaptureVerdict,
    findings: &str,
) -> Result<Made, AllocError>
    ensures text { IfOk result (λ made. (text_made made ≡ findings_told form verdict findings.now)
        × (status_made made ≡ capture_status verdict)) }
    ensures record { IfOk result (λ made. is_record made ≡ false) }
{
    let status = capturing::status_of(verdict);
    match form {
        Form::Lines => {
            let text = findings_text(alloc, verdict, findings)?;
            Ok(Made::Text(Printed { text, status }))
        }
        Form::Json => {
            let text = capture_object(alloc, verdict, "findings", findings)?;
            Ok(Made::Object(Object { text, status }))
        }
    }
}

// The verdict on a capture, with the record of it.
fn capture_record_made(
    alloc: Global,
    form: Form,
    verdict: CaptureVerdict,
    lines: String,
) -> Result<Made, AllocError>
    ensures text { IfOk result (λ made. (text_made made ≡ capture_record_text form verdict (string_bytes lines))
        × (status_made made ≡ capture_status verdict)) }
    ensures record { IfOk result (λ made. is_record made ≡ false) }
{
    let status = capturing::status_of(verdict);
    match form {
        Form::Lines => Ok(Made::Text(Printed {
            text: lines,
            status,
        })),
        Form::Json => {
            let text = capture_object(alloc, verdict, "record", lines.as_str())?;
            Ok(Made::Object(Object { text, status }))
        }
    }
}

// The verdict on a capture, and what is found in it or the record of it.
fn captured(
    alloc: Global,
    side: Side,
    kind: CaptureForm,
    form: Form,
    text: &[u8],
) -> Result<Made, Refusal>
    ensures answers { Answers (TellsCapture kind form side text.now) (line_refusal (capture_in text.now))
        (MayEndReading (line_refusal (capture_in text.now))) result }
    ensures record { IfOk result (λ made. is_record made ≡ false) }
{
    match kind {
        CaptureForm::Findings => {
            let (findings, verdict) = capture_findings(alloc, side, text)?;
            let made = findings_made(alloc, form, verdict, findings.as_str())?;
            Ok(made)
        }
        CaptureForm::Record => {
            let (record, verdict) = capture_record(alloc, side, text)?;
            let made = capture_record_made(alloc, form, verdict, record)?;
            Ok(made)
        }
    }
}

// All that a task prints which goes by these bytes.
fn made_of(alloc: Global, task: &Task, given: &[u8]) -> Result<Made, Refusal>
    ensures answers { (file : List ℕ) → IsGiven task.now file given.now → AnswersTo task.now file result }
    ensures record { IfOk result (λ made. is_record made ≡ is_replay task.now) }
{
    match task {
        Task::Ack(_) => acknowledged(alloc, given),
        Task::Show(kind, _) => shown(alloc, *kind, given),
        Task::Replay(_, telling, rules) => replayed(alloc, *telling, *rules, given),
        Task::Judge(_) => {
            let mut left = given;
            judged(alloc, &mut left)
        }
        Task::Explain(_, form) => explained(alloc, *form, given),
        Task::Draw(_) => drawn(alloc, given),
        Task::Capture(_, side, kind, form) => captured(alloc, *side, *kind, *form, given),
        Task::Version => Ok(Made::Text(done(String::from_str(alloc, VERSION)?))),
    }
}

// All that the task prints.
fn make<I: Read>(alloc: Global, task: &Task, input: &mut I) -> Result<Made, Refusal>
    ensures answers { OfBytes (I.remaining input.old) (λ file. AnswersTo task.now file result) }
    ensures record { IfOk result (λ made. is_record made ≡ is_replay task.now) }
{
    if let Task::Judge(_) = task {
        return judged(alloc, input);
    }
    let given = given_to(alloc, task, input)?;
    made_of(alloc, task, given.as_slice())
}

// Writes a beginning of a text that isn't empty, and gives how long it is; 0 where the write was interrupted.
fn put_some<W: Write>(text: &[u8], out: &mut W) -> Result<usize, Failure>
    ensures fits { IfOk result (λ count. count ≤ length text.now) }
    ensures written { MatchResult result (λ count. Appends (W.contents out.old) (W.contents out.new) (take count text.now))
        (λ _. Keeps (W.contents out.old) (W.contents out.new)) }
    ensures failed { IfErr result (λ failure. failure ≡ Failure.Output) }
{
    match out.write(text) {
        Ok(0) => Err(Failure::Output),
        Ok(count) => Ok(count),
        Err(error) if error.kind() == ErrorKind::Interrupted => Ok(0),
        Err(_) => Err(Failure::Output),
    }
}

// Writes all of a text, or a beginning of it where a write fails.
pub(crate) fn put<W: Write>(text: &[u8], out: &mut W) -> Result<(), Failure>
    ensures put { Puts (W.contents out.old) (W.contents out.new) text.now result }
    ensures nothing { text.now ≡ [] → IsOk result }
    ensures failed { IfErr result (λ failure. failure ≡ Failure.Output) }
{
    let mut left = text;
    for _turn in 0..u64::MAX {
        if left.is_empty() {
            return Ok(());
        }
        match put_some(left, out) {
            Ok(count) => left = &left[count..],
            Err(failure) => return Err(failure),
        }
    }
    Err(Failure::Output)
}

fn print_bytes<O: Write>(bytes: &[u8], out: &mut O) -> Result<(), Failure>
    ensures ok { OnOk result (Appends (O.contents out.old) (O.contents out.new) bytes.now) }
    ensures refused { IfErr result
        (λ failure. (failure ≡ Failure.Output) × Begins (O.contents out.old) (O.contents out.new) bytes.now) }
{
    put(bytes, out)?;
    out.flush().map_err(|_| Failure::Output)?;
    Ok(())
}

pub(crate) fn print_text<O: Write>(text: &str, out: &mut O) -> Result<(), Failure>
    ensures ok { OnOk result (Appends (O.contents out.old) (O.contents out.new) text.now) }
    ensures refused { IfErr result
        (λ failure. (failure ≡ Failure.Output) × Begins (O.contents out.old) (O.contents out.new) text.now) }
{
    print_bytes(text.as_bytes(), out)
}

// Writes what a task has made, and gives the exit status.
fn print_made<O: Write>(alloc: Global, made: &Made, out: &mut O) -> Result<u8, Failure>
    ensures written { IfOk result (λ status. (status ≡ status_made made.now)
        × Appends (O.contents out.old) (O.contents out.new) (text_made made.now)) }
    ensures failed { IfErr result (λ failure. MayStop (is_record made.now) failure
        × Begins (O.contents out.old) (O.contents out.new) (text_made made.now)) }
{
    match made {
        Made::Text(printed) => {
            print_text(printed.text.as_str(), out)?;
            Ok(printed.status)
        }
        Made::Record(recorded) => match write_record(alloc, recorded, out) {
            Ok(()) => Ok(0),
            Err(failure) => Err(failure),
        },
        Made::Object(object) => {
            print_bytes(object.text.as_slice(), out)?;
            Ok(object.status)
        }
    }
}

// Makes all that the task prints, and writes it after that.
fn print_task<I: Read, O: Write>(
    alloc: Global,
    task: &Task,
    input: &mut I,
    out: &mut O,
) -> Result<u8, Refusal>
    ensures { OfBytes (I.remaining input.old)
        (λ file. PrintsOrEnds task.now file (O.contents out.old) (O.contents out.new) result) }
{
    let made = make(alloc, task, input)?;
    let status = print_made(alloc, &made, out)?;
    Ok(status)
}

fn line_of(failure: Failure) -> Option<ArrayString<LINE>>
    ensures { IfSome result (λ line. line.bytes ≡ failure_line failure) }
{
    let mut line = ArrayString::<LINE>::new();
    match writeln!(&mut line, "{failure}") {
        Ok(()) => Some(line),
        Err(_) => None,
    }
}

// One line for a failure.
pub(crate) fn tell_failure<F: Write>(failure: Failure, faults: &mut F) -> Result<(), Failure>
    ensures told { Puts (F.contents faults.old) (F.contents faults.new) (failure_line failure) result }
    ensures failed { IfErr result (λ why. why ≡ Failure.Output) }
{
    match line_of(failure) {
        Some(line) => put(line.as_str().as_bytes(), faults),
        None => Err(Failure::Output),
    }
}

fn second_bytes(refusal: &Refusal) -> &[u8]
    ensures { result.now ≡ second_of refusal.now }
{
    match &refusal.second {
        Some(line) => line.as_bytes(),
        None => &[],
    }
}

// The line of a failure, and the second line where there is one.
pub(crate) fn tell_refusal<F: Write>(refusal: &Refusal, faults: &mut F) -> Result<(), Failure>
    ensures told { Puts (F.contents faults.old) (F.contents faults.new)
        (failure_line refusal.now.failure ++ second_of refusal.now) result }
    ensures failed { IfErr result (λ why. why ≡ Failure.Output) }
{
    tell_failure(refusal.failure, faults)?;
    put(second_bytes(refusal), faults)
}

/// Does a task, and returns the exit status: 0 where it was done, 1 where its input is refused,
/// where memory ran out or where a write to `out` failed, 3 where the record of a judge or a capture is unsafe, 4 where nothing of
/// a capture is judged.
///
/// The whole text is made before anything is written to `out`, but for a record of more than a block, of which all facts are
/// there and judged, but whose text is made as it is written: where memory runs out then, a beginning of it stands. On a refusal
/// nothing is written, and `faults` gets the line of the failure and mostly a second one, which says more of it, or a beginning
/// of this where a write there fails, which changes no status. `input` has the bytes of the task's file, none for a task without
/// one.
pub fn perform<I: Read, O: Write, F: Write>(
    alloc: Global,
    task: &Task,
    input: &mut I,
    out: &mut O,
    faults: &mut F,
) -> u8
    ensures status { (result ≤ 1) ⊎ ((3 ≤ result) × (result ≤ 4)) }
    ensures printed { result ≢ 1 → Prints task.now (I.remaining input.old) (O.contents out.old) (O.contents out.new) result }
    ensures silent { result ≢ 1 → Keeps (F.contents faults.old) (F.contents faults.new) }

    // A record that is malformed is reported on `out`; all else that ends with 1 has a line on
    // `faults`.
    ensures ended { result ≡ 1 → Ends task.now (I.remaining input.old) (O.contents out.old) (O.contents out.new)
        (F.contents faults.old) (F.contents faults.new) }

    // What is refused prints nothing.
    ensures refused { IsRefused task.now (I.remaining input.old) → result ≡ 1 }
    ensures kept { IsRefused task.now (I.remaining input.old) → Keeps (O.contents out.old) (O.contents out.new) }
{
    match print_task(alloc, task, input, out) {
        Ok(status) => status,
        Err(refusal) => {
            let refusal = refusal.of_task(alloc, task);
            let _ = tell_refusal(&refusal, faults);
            1
        }
    }
}
