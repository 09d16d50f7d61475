ghost use Rattle.std.specs.Prelude.{◌≡◌, ◌≤◌, ◌⊎◌, ◌<◌, ◌+◌, length, map, MatchResult, IfOk};
ghost use Rattle.std.specs.String.{string_bytes};
ghost use Rattle.record_words.specs.pictures.Captions.{captions, caption_of, seen_mark};
ghost use Rattle.record_words.specs.pictures.Remarks.{said_of, words_of};
ghost use Rattle.record_words.specs.pictures.Requests.{asked_from, requests_drawn, seen_request};
ghost use Rattle.record_words.specs.declared.pictures.fault.PictureFault.TheVariants as fault;

use crate::pictures::captions::caption_of;
use crate::pictures::fault::PictureFault;
use crate::pictures::lanes::{Lanes, down};
use crate::pictures::marks::{Sheet, shapes_of};
use crate::pictures::picture::{Mark, Picture};
use crate::pictures::remarks::{remarks_on, widened};
use crate::pictures::requests::{count_sent, request_marks};
use crate::pictures::rows::Rows;
use crate::pictures::shape::{Look, Point, Shape, Size};
use lease_facts::{Fact, Passage};
use lease_state::{Bytes, ClientNo, Memory, Reply};
use std::alloc::{AllocError, Global};

/// More facts are in no picture.
pub const MOST_FACTS: usize = 5000;

/// Of more requests none is in a picture.
pub const MOST_REQUESTS: usize = 5000;

// The name of a lane, above its line.
fn heading(lanes: &Lanes, lane: u16, text: String) -> Shape {
    Shape::Words {
        at: Point {
            x: lanes.line_of(lane).saturating_sub(30),
            y: 46,
        },
        text,
        look: Look::Heading,
    }
}

fn line(lanes: &Lanes, lane: u16, rows: (u16, u16), look: Look) -> Shape {
    Shape::Line {
        from: lanes.spot(lane, rows.0),
        to: lanes.spot(lane, rows.1),
        look,
    }
}

// A sample of a bar, and what it stands for.
fn push_sample(
    alloc: Global,
    shapes: &mut Vec<Shape>,
    x: u32,
    look: Look,
    words: &str,
) -> Result<(), AllocError> {
    shapes.push(Shape::Rectangle {
        at: Point { x, y: 8 },
        size: Size {
            width: 8,
            height: 12,
        },
        look,
    })?;
    shapes.push(Shape::Words {
        at: Point {
            x: x.saturating_add(14),
            y: 18,
        },
        text: String::from_str(alloc, words)?,
        look: Look::Number,
    })?;
    Ok(())
}

// What bars stand for, in the first row.
fn push_legend(alloc: Global, shapes: &mut Vec<Shape>) -> Result<(), AllocError> {
    push_sample(
        alloc,
        shapes,
        8,
        Look::WriteCaching,
        "believes that it may cache writes",
    )?;
    push_sample(
        alloc,
        shapes,
        248,
        Look::Caching,
        "believes that it may cache, but not writes; a number is that of the file",
    )
}

// The row from which a client is connected after the fact in a row, if it is.
fn connected_after(fact: &Fact, client: ClientNo, row: u16, since: Option<u16>) -> Option<u16> {
    match fact {
        Fact::Joined(other) if *other == client => Some(since.unwrap_or(row)),
        Fact::Dropped(other) if *other == client => None,
        _ => since,
    }
}

// Adds the times of a client's connections.
fn push_connections(
    shapes: &mut Vec<Shape>,
    sheet: &Sheet<'_>,
    client: ClientNo,
    lane: u16,
) -> Result<(), AllocError> {
    let mut since = None;
    for (index, fact) in sheet.facts.iter().enumerate() {
        let row = sheet.rows.of_fact(index);
        let before = since;
        since = connected_after(fact, client, row, before);
        if let (Some(begin), None) = (before, since) {
            shapes.push(line(sheet.lanes, lane, (begin, row), Look::Connection))?;
        }
    }
    if let Some(begin) = since {
        let rows = (begin, sheet.rows.count());
        shapes.push(line(sheet.lanes, lane, rows, Look::Connection))?;
    }
    Ok(())
}

// Adds the lane of the server.
fn push_server(
    alloc: Global,
    shapes: &mut Vec<Shape>,
    sheet: &Sheet<'_>,
) -> Result<(), AllocError> {
    let lane = sheet.lanes.server();
    let name = String::from_str(alloc, "server")?;
    shapes.push(heading(sheet.lanes, lane, name))?;
    let rows = (0, sheet.rows.count());
    shapes.push(line(sheet.lanes, lane, rows, Look::Connection))?;
    Ok(())
}

// The words of a client's name.
fn client_words(alloc: Global, client: ClientNo) -> Result<String, AllocError> {
    let number = client.0;
    let text = format!(in alloc; "client {number}")?;
    Ok(text)
}

// Adds the lane of a client.
fn push_client(
    alloc: Global,
    shapes: &mut Vec<Shape>,
    sheet: &Sheet<'_>,
    client: ClientNo,
) -> Result<(), AllocError> {
    let lane = sheet.lanes.client(client);
    let name = client_words(alloc, client)?;
    shapes.push(heading(sheet.lanes, lane, name))?;
    let rows = (0, sheet.rows.count());
    shapes.push(line(sheet.lanes, lane, rows, Look::Lane))?;
    push_connections(shapes, sheet, client, lane)
}

// The lanes with their names.
fn lanes_of(alloc: Global, sheet: &Sheet<'_>) -> Result<Vec<Shape>, AllocError> {
    let mut shapes = Vec::new(alloc);
    push_legend(alloc, &mut shapes)?;
    push_server(alloc, &mut shapes, sheet)?;
    for client in sheet.lanes.clients() {
        push_client(alloc, &mut shapes, sheet, *client)?;
    }
    Ok(shapes)
}

// The message of a fact, the first of those that are left, where the fact speaks of one.
fn message_of<'a>(fact: &Fact, left: &'a [Reply]) -> Option<&'a Reply> {
    match fact {
        Fact::Sent(_) | Fact::Took(_) => left.first(),
        _ => None,
    }
}

// The messages of the facts after a fact.
fn messages_left<'a>(fact: &Fact, left: &'a [Reply]) -> &'a [Reply] {
    match (fact, left) {
        (Fact::Sent(_) | Fact::Took(_), [_, later @ ..]) => later,
        _ => left,
    }
}

// The mark of the fact at this index.
fn mark(
    alloc: Global,
    sheet: &Sheet<'_>,
    bad: &[usize],
    index: usize,
    fact: &Fact,
    message: Option<&Reply>,
) -> Result<Mark, Memory>
    requires { index < length sheet.now.facts.now }
    ensures { IfOk result (λ mark. seen_mark mark ≡ caption_of bad.now (index + 1) fact.now) }
{
    let caption = caption_of(alloc, bad, index + 1, fact)?;
    let shapes = shapes_of(alloc, *sheet, index, caption.is_bad, message)?;
    Ok(Mark { caption, shapes })
}

// A mark for each fact.
#[tactic(auto, unfolding(crate::specs::pictures::Captions::captions))]
fn marks_of(
    alloc: Global,
    sheet: &Sheet<'_>,
    bad: &[usize],
    messages: &[Reply],
) -> Result<Vec<Mark>, Memory>
    ensures { IfOk result (λ marks. map seen_mark marks.items ≡ captions bad.now 1 sheet.now.facts.now) }
{
    let mut marks = Vec::new(alloc);
    let mut left = messages;
    for (index, fact) in sheet.facts.iter().enumerate() {
        let message = message_of(fact, left);
        left = messages_left(fact, left);
        marks.push(mark(alloc, sheet, bad, index, fact, message)?)?;
    }
    Ok(marks)
}

// The passages of requests that are drawn: none where there are too many requests.
#[tactic(auto, unfolding(crate::specs::pictures::Requests::asked_from))]
fn drawn_among(passages: &[Passage]) -> &[Passage]
    ensures drawn { asked_from 1 result.now ≡ requests_drawn passages.now }
{
    if count_sent(passages) > MOST_REQUESTS {
        &[]
    } else {
        passages
    }
}

// How many lines a text has, of those that end with a line feed.
fn count_lines(text: &[u8]) -> usize {
    text.iter().filter(|byte| **byte == b'\n').count()
}

// How high a page is whose notes begin so far down and have so many lines.
fn height_of(notes_at: u32, lines: usize) -> u32 {
    u32::try_from(lines)
        .unwrap_or(u32::MAX)
        .saturating_mul(18)
        .saturating_add(notes_at)
        .saturating_add(24)
}

// How wide and how high a picture is that has these lanes, with notes from so far down.
fn size_of(lanes: &Lanes, notes_at: u32, notes: &str) -> Size {
    let lines = count_lines(notes.as_bytes());
    Size {
        width: lanes.width().max(1020),
        height: height_of(notes_at, lines),
    }
}

fn laid_out(
    alloc: Global,
    facts: &[Fact],
    bad: &[usize],
    notes: String,
    remarks: &[Bytes],
    messages: &[Reply],
    passages: &[Passage],
) -> Result<Picture, Memory>
    ensures marks { IfOk result (λ picture. map seen_mark picture.marks.items ≡ captions bad.now 1 facts.now) }
    ensures requests { IfOk result (λ picture. map seen_request picture.requests.items ≡ asked_from 1 passages.now) }
    ensures remarks { IfOk result (λ picture. map words_of picture.remarks.items ≡ said_of (length facts.now) remarks.now) }
    ensures notes { IfOk result (λ picture. string_bytes picture.notes ≡ string_bytes notes) }
{
    let lanes = Lanes::of(alloc, facts)?;
    let rows = Rows::of(alloc, facts.len(), passages)?;
    let sheet = Sheet {
        lanes: &lanes,
        rows: &rows,
        facts,
    };
    let marks = marks_of(alloc, &sheet, bad, messages)?;
    let requests = request_marks(alloc, &lanes, rows.count(), passages)?;
    let remarks = remarks_on(alloc, &lanes, &rows, facts.len(), remarks)?;
    let notes_at = down(rows.count(), 48);
    let size = size_of(&lanes, notes_at, notes.as_str());
    Ok(Picture {
        size: widened(size, remarks.as_slice()),
        lanes: lanes_of(alloc, &sheet)?,
        marks,
        requests,
        remarks,
        notes,
        notes_at,
    })
}

/// The picture of these facts, with `notes` below it, lines that are each ended by a line feed.
/// `bad` are the places, from 1, of the facts that make the record bad. `remarks` say something of
/// the facts, one of each, in their order; of a fact whose remark is empty nothing is said, and there
/// may be fewer. `messages` are those that the facts report as sent and taken, in their order; there
/// may be fewer. `passages` are what became of the requests of clients; of more than
/// [`MOST_REQUESTS`] none is drawn. There is a lane for the server and for each client that a fact
/// names, by their numbers, with the server in the middle. The picture is as wide as its lanes, at
/// least 1,020 pixels, and 480 more where a remark stands, and as high as its rows and the lines of
/// its notes.
///
/// # Errors
///
/// `TooMany` where there are more than [`MOST_FACTS`] facts, else `Memory` where there is none left.
pub fn picture_of(
    alloc: Global,
    facts: &[Fact],
    bad: &[usize],
    notes: String,
    remarks: &[Bytes],
    messages: &[Reply],
    passages: &[Passage],
) -> Result<Picture, PictureFault>
    ensures marks { IfOk result (λ picture. map seen_mark picture.marks.items ≡ captions bad.now 1 facts.now) }
    ensures requests { IfOk result (λ picture. map seen_request picture.requests.items ≡ requests_drawn passages.now) }
    ensures remarks { IfOk result (λ picture. map words_of picture.remarks.items ≡ said_of (length facts.now) remarks.now) }
    ensures notes { IfOk result (λ picture. string_bytes picture.notes ≡ string_bytes notes) }
    ensures refused { MatchResult result (λ _. length facts.now ≤ 5000)
        (λ given. (given ≡ fault.TooMany) × (5000 < length facts.now) ⊎ (given ≡ fault.Memory) × (length facts.now ≤ 5000)) }
{
    if facts.len() > MOST_FACTS {
        return Err(PictureFault::TooMany);
    }
    let passages = drawn_among(passages);
    match laid_out(alloc, facts, bad, notes, remarks, messages, passages) {
        Ok(picture) => Ok(picture),
        Err(Memory) => Err(PictureFault::Memory),
    }
}
