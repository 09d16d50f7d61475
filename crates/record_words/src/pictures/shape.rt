/// A place in a picture, in pixels from its upper left corner.
#[derive(Clone, Copy, Debug, PartialEq, Eq)]
pub struct Point {
    pub x: u32,
    pub y: u32,
}

/// How far something reaches, in pixels.
#[derive(Clone, Copy, Debug, PartialEq, Eq)]
pub struct Size {
    pub width: u32,
    pub height: u32,
}

/// What a shape stands for, which decides how it looks.
#[derive(Clone, Copy, Debug, PartialEq, Eq)]
pub enum Look {
    /// The name of a lane.
    Heading,
    /// A lane, from top to bottom.
    Lane,
    /// The time of a connection.
    Connection,
    /// The row of a fact that makes the record bad.
    Row,
    /// The number of a fact.
    Number,
    /// What a fact says, in a few words.
    Label,
    /// What is said of a fact, to the right of the lanes.
    Remark,
    /// The way of a message down the lane of its sender, from where it was sent to where it is taken.
    Way,
    /// A message, from its sender to the one that takes it.
    Message,
    /// The time of a belief that lets a client cache writes.
    WriteCaching,
    /// The time of another belief that lets a client cache.
    Caching,
    /// The number of a belief's file.
    File,
    /// A fact that none of the others are.
    Event,
    /// A connection or a timer ends.
    Loss,
    /// The server accepts a write.
    Accepted,
    /// A client reads from its cache.
    CachedRead,
    /// A request that the client's machine didn't make.
    Stray,
    /// A client sends a request.
    Asking,
}

/// A part of a picture.
#[derive(Debug, Drop, PartialEq, Eq)]
pub enum Shape {
    Line { from: Point, to: Point, look: Look },
    Rectangle { at: Point, size: Size, look: Look },
    Circle { at: Point, look: Look },
    /// A line of text that begins at a point.
    Words { at: Point, text: String, look: Look },
}
