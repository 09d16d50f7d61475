use crate::pictures::labels::label_of;
use crate::pictures::lanes::{Lanes, down};
use crate::pictures::rows::Rows;
use crate::pictures::shape::{Look, Point, Shape, Size};
use lease_facts::Fact;
use lease_reasons::Messages;
use lease_state::{ClientNo, FileNo, LeaseState, Memory, Reply};
use std::alloc::{AllocError, Global};

// The lane on which a fact has its mark: what a client does is on its own, what the server does on the server's.
fn lane_of(lanes: &Lanes, fact: &Fact) -> u16 {
    match fact {
        Fact::Start(_, _)
        | Fact::Expired(_, _)
        | Fact::Sent(_)
        | Fact::Opened(_, _)
        | Fact::Changed(_, _, _, _) => lanes.server(),
        _ => match fact.client() {
            Some(client) => lanes.client(client),
            None => lanes.server(),
        },
    }
}

fn look_of(fact: &Fact) -> Look {
    match fact {
        Fact::Dropped(_) | Fact::Expired(_, _) => Look::Loss,
        Fact::Changed(_, _, _, _) => Look::Accepted,
        Fact::CachedRead(_, _, _) => Look::CachedRead,
        Fact::Strayed(_) => Look::Stray,
        _ => Look::Event,
    }
}

// Whether a fact ends the time of a client's belief of a file.
fn ends_belief(fact: &Fact, client: ClientNo, file: FileNo) -> bool {
    match fact {
        Fact::Believes(other, of, _) => *other == client && *of == file,
        _ => false,
    }
}

// The index of the fact that ends the time of a belief, of those from this index on, or how many facts there are.
fn belief_end(facts: &[Fact], from: usize, client: ClientNo, file: FileNo) -> usize {
    for (index, fact) in facts.iter().enumerate() {
        if index >= from && ends_belief(fact, client, file) {
            return index;
        }
    }
    facts.len()
}

// Where the bars of a file are, to the left of a client's line, in pixels from the left. Files beyond the eighth share bars with
// the first ones.
fn column_of(line: u32, file: FileNo) -> u32 {
    let column = u32::from(file.0.saturating_sub(1) % 8);
    line.saturating_sub(22 + 10 * column)
}

// The bar of a belief.
fn bar(x: u32, rows: (u16, u16), look: Look) -> Shape {
    let (row, end) = rows;
    let (top, bottom) = (down(row, 12), down(end, 12));
    Shape::Rectangle {
        at: Point { x, y: top },
        size: Size {
            width: 8,
            height: bottom.saturating_sub(top),
        },
        look,
    }
}

// The number of a bar's file, at its top.
fn file_words(alloc: Global, x: u32, row: u16, file: FileNo) -> Result<Shape, AllocError> {
    let number = file.0;
    Ok(Shape::Words {
        at: Point {
            x: x.saturating_add(1),
            y: down(row, 22),
        },
        text: format!(in alloc; "{number}")?,
        look: Look::File,
    })
}

fn caching(state: LeaseState) -> Option<Look> {
    if state.caches_writes() {
        Some(Look::WriteCaching)
    } else if state.caches_reads() || state.caches_handles() {
        Some(Look::Caching)
    } else {
        None
    }
}

// The way of a message, where no words stand: beside the server's line from the row in which it was sent to the row in which it
// is taken, and above that row to the client's line.
fn push_message(
    alloc: Global,
    shapes: &mut Vec<Shape>,
    sheet: Sheet<'_>,
    index: usize,
    client: ClientNo,
) -> Result<(), Memory> {
    let (before, _) = sheet
        .facts
        .split_at(sheet.facts.len().min(index.saturating_add(1)));
    let messages = Messages::of(alloc, before, client)?;
    let Some(sent) = messages.last_sent() else {
        return Ok(());
    };
    let (server, lane) = (sheet.lanes.server(), sheet.lanes.client(client));
    let x = sheet.lanes.beside(server, lane, 0);
    let from = sheet
        .lanes
        .spot(server, sheet.rows.of_fact(sent.saturating_sub(1)));
    let to = sheet.lanes.above(lane, sheet.rows.of_fact(index));
    let turn = Point { x, y: to.y };
    shapes.push(Shape::Line {
        from: Point { x, y: from.y },
        to: turn,
        look: Look::Way,
    })?;
    shapes.push(Shape::Line {
        from: turn,
        to,
        look: Look::Message,
    })?;
    Ok(())
}

// What a fact has beside its point: a belief its time, and a message that is taken its way.
fn push_reach(
    alloc: Global,
    shapes: &mut Vec<Shape>,
    sheet: Sheet<'_>,
    index: usize,
) -> Result<(), Memory> {
    match sheet.facts.get(index) {
        Some(Fact::Took(client)) => push_message(alloc, shapes, sheet, index, *client),
        Some(Fact::Believes(client, file, state)) => {
            let end = belief_end(sheet.facts, index.saturating_add(1), *client, *file);
            let rows = (sheet.rows.of_fact(index), sheet.rows.of_fact(end));
            if let Some(look) = caching(*state) {
                let line = sheet.lanes.line_of(sheet.lanes.client(*client));
                let x = column_of(line, *file);
                shapes.push(bar(x, rows, look))?;
                shapes.push(file_words(alloc, x, rows.0, *file)?)?;
            }
            Ok(())
        }
        _ => Ok(()),
    }
}

// The number of a fact, at the left of its row.
fn number(alloc: Global, row: u16, place: usize) -> Result<Shape, AllocError> {
    Ok(Shape::Words {
        at: Point {
            x: 8,
            y: down(row, 16),
        },
        text: format!(in alloc; "{place}")?,
        look: Look::Number,
    })
}

// The row of a fact that makes the record bad, as wide as the picture.
fn band(lanes: &Lanes, row: u16) -> Shape {
    Shape::Rectangle {
        at: Point {
            x: 0,
            y: down(row, 0),
        },
        size: Size {
            width: lanes.width(),
            height: 24,
        },
        look: Look::Row,
    }
}

/// What a picture of facts is made of.
#[derive(Clone, Copy)]
pub struct Sheet<'a> {
    pub lanes: &'a Lanes,
    pub rows: &'a Rows,
    pub facts: &'a [Fact],
}

/// The shapes of the mark of the fact at an index. `message` is the one that the fact speaks of, where that is known.
///
/// # Errors
///
/// `Memory` where there is none left.
pub fn shapes_of(
    alloc: Global,
    sheet: Sheet<'_>,
    index: usize,
    is_bad: bool,
    message: Option<&Reply>,
) -> Result<Vec<Shape>, Memory> {
    let mut shapes = Vec::new(alloc);
    let Some(fact) = sheet.facts.get(index) else {
        return Ok(shapes);
    };
    let row = sheet.rows.of_fact(index);
    if is_bad {
        shapes.push(band(sheet.lanes, row))?;
    }
    shapes.push(number(alloc, row, index.saturating_add(1))?)?;
    push_reach(alloc, &mut shapes, sheet, index)?;
    let lane = lane_of(sheet.lanes, fact);
    shapes.push(Shape::Circle {
        at: sheet.lanes.spot(lane, row),
        look: look_of(fact),
    })?;
    shapes.push(Shape::Words {
        at: sheet.lanes.words_at(lane, row),
        text: label_of(alloc, fact, message)?,
        look: Look::Label,
    })?;
    Ok(shapes)
}
