ghost use Rattle.std.specs.Prelude.{◌≡◌, ◌+◌, ◌∷◌, [], List, OnOk, IfOk, length};
ghost use Rattle.capture_texts.specs.Captures.{KnowsSeen, ShowsFrame, with_taken};
ghost use Rattle.capture_walk.specs.Frames.{seen_at, seen_after};
ghost use Rattle.capture_walk.specs.declared.note.Seen.{Seen};

use capture_walk::{Frame, FrameFault, Note, Walk, read_frame};
use capture_wire::Message;
use lease_state::Memory;
use std::alloc::Global;

/// A walk through the frames of a capture, which numbers what it sees from 0 on.
#[derive(Debug, Drop)]
pub(crate) struct Walking {
    pub(crate) walk: Walk,
    /// The number of what is seen next.
    pub(crate) number: u64,
}

// A number and so many more.
fn number_after(number: u64, count: usize) -> Result<u64, Memory>
    ensures { IfOk result (λ after. after ≡ number + count) }
{
    number.checked_add(count as u64).ok_or(Memory)
}

impl Walking {
    /// Before any frame. Allocates nothing.
    pub(crate) fn new(alloc: Global) -> Walking
        ensures { KnowsSeen [] result }
    {
        Walking {
            walk: Walk::new(alloc),
            number: 0,
        }
    }

    #[tactic(auto, using(crate::proofs::Lengths::seen_length))]
    fn take_messages(&mut self, frame: &Frame, messages: &[Message<'_>]) -> Result<(), Memory>
        ensures { OnOk result ((seen : List Seen) → KnowsSeen seen self.old → frame.now.number ≡ length seen
            → KnowsSeen (seen_after frame.now messages.now seen) self.new) }
    {
        let number = number_after(frame.number, messages.len())?;
        self.walk.take_frame(frame, messages)?;
        self.number = number;
        Ok(())
    }

    /// Takes a note where a frame, or a line without one, is.
    pub(crate) fn take_note(&mut self, frame: &Frame, note: Note<'_>) -> Result<(), Memory>
        ensures { OnOk result ((seen : List Seen) → KnowsSeen seen self.old
            → KnowsSeen (seen_at frame.now (length seen) note.entry ∷ seen) self.new) }
    {
        let number = number_after(self.number, 1)?;
        self.walk.take(&frame.seen(self.number, note))?;
        self.number = number;
        Ok(())
    }

    /// Takes note that a client took a frame, if it did so there.
    pub(crate) fn note_taken(&mut self, frame: &Frame, is_taken: bool) -> Result<(), Memory>
        ensures { OnOk result ((seen : List Seen) → KnowsSeen seen self.old
            → KnowsSeen (with_taken is_taken frame.now seen) self.new) }
    {
        if is_taken {
            self.take_note(frame, Note::Taken)?;
        }
        Ok(())
    }

    /// Takes the messages of a frame, or that they can't be read. Says whether they are.
    pub(crate) fn take_frame(
        &mut self,
        alloc: Global,
        frame: &Frame,
        bytes: &[u8],
    ) -> Result<bool, Memory>
        ensures { IfOk result (λ is_read. (seen : List Seen) → KnowsSeen seen self.old → frame.now.number ≡ length seen
            → (now : List Seen) × KnowsSeen now self.new × ShowsFrame frame.now bytes.now is_read seen now) }
    {
        match read_frame(alloc, bytes) {
            Ok(messages) => {
                self.take_messages(frame, &messages)?;
                Ok(true)
            }
            Err(FrameFault::Memory) => Err(Memory),
            Err(_) => {
                self.take_note(frame, Note::Gap)?;
                Ok(false)
            }
        }
    }
}
