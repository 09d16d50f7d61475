//! From the messages of a capture to what they show of leases (MS-SMB2): for each file chains of changes of what clients cache,
//! with the positions between which each happens, for `capture_judge::judge_placing`. Messages are taken one by one, in the order
//! of the capture; what the walk knows after them is proved to be what looking back in them says.
//!
//! ```
//! let mut walk = Walk::new(alloc);
//! let frame = Frame { number: 0, connection: 1, server: 1, earliest: 1, latest: 1 };
//! match read_frame(alloc, &bytes) {
//!     Ok(messages) => walk.take_frame(&frame, &messages)?,
//!     Err(_) => walk.take(&frame.seen(0, Note::Gap))?,
//! }
//! walk.take(&frame.seen(1, Note::End))?;
//! let index = Index::of(alloc, walk.events())?;
//! for file in index.files() {
//!     let chains = chains_on(alloc, *file, walk.events(), &index)?;
//!     let placing = judge_placing(alloc, &chains)?;
//! }
//! ```
//!
//! At a capture made at a client, `Note::Taken` follows each frame of the server, with the number of its last message.
//!
//! What isn't sure is left out, so that nobody is charged by it: from where something of a client may be missing it isn't
//! judged, and `NotJudged` says why.
#![tactic(auto)]

mod chains;
mod clients;
mod compound;
mod creates;
mod event;
mod files;
mod frame;
mod index;
mod latest;
mod laws;
mod note;
mod opens;
mod reading;
mod renames;
mod sides;
mod slices;
mod tables;
mod telling;
mod told;
mod trees;
mod walk;

pub use chains::chains_on;
pub use compound::{FrameFault, read_frame};
pub use event::{
    Acknowledged, Answered, Asked, Break, Closed, End, Event, Gone, Grant, Lease, Loss,
    Misnumbered, NotJudged, Proof, Remade, Sent, Stray,
};
pub use files::Place;
pub use frame::Frame;
pub use index::Index;
pub use laws::{opens_are_made, tables_are_as_worked};
pub use note::{
    BreakNote, CreateAsked, CreateGiven, KeyLevel, LeaseGiven, Note, OpenName, Seen, TreeAsked,
    TreeGiven, TreeName,
};
pub use reading::{Ids, Named, closed_behind, ids_of, level_of, note_of};
pub use tables::tables_on;
pub use told::{LeaseTold, leases_told};
pub use walk::Walk;
