ghost use Rattle.std.specs.Prelude.{◌≡◌, ◌++◌, [], IsOk, OnOk, true, map};
ghost use Rattle.lease_state.specs.State.{state_of};
ghost use Rattle.lease_model.specs.client.Commands as model;
ghost use Rattle.lease_model.specs.client.Step.{believes_noted};
ghost use Rattle.lease_model.specs.values.LeaseStates.{same_state};
ghost use Rattle.lease_client.specs.Answers.{answer_of, note_of};
ghost use Rattle.lease_client.specs.Turns.{turned_to};

use crate::entry::Entry;
use crate::values::command::Answer;
use crate::values::note::Note;
use crate::values::state::is_same;
use lease_state::{FileNo, LeaseState, Memory, Request};
use std::alloc::Global;
use std::marker::Model;

/// What a call does to one entry: the entry after it, and what is answered, sent and noted, but for
/// the note of its belief.
#[derive(Debug, Drop)]
pub struct Turn {
    pub entry: Entry,
    pub answer: Answer,
    pub requests: Vec<Request>,
    pub notes: Vec<Note>,
}

impl Model for Turn {
    ghost use Rattle.std.specs.Prelude.{map};
    ghost use Rattle.lease_client.specs.Answers.{answer_of, note_of};
    ghost use Rattle.lease_client.specs.Turns as turns;

    ghost Value = { turns.Turned };

    ghost view = { λ turn. record {
      entry = turn.entry;
      answer = answer_of turn.answer;
      requests = turn.requests.items;
      notes = map note_of turn.notes.items;
    } };
}

/// What a call of a client gives out (profile): the answer to the application, the requests to be sent to the server and the
/// notes for the program, each in order. A call that is passed it puts there what it gives out, whatever was there. Its lists
/// keep their memory from call to call.
// docs/DECISIONS.md: "Calls in place give out into a value of their caller".
#[derive(Debug, Drop)]
pub struct Given {
    pub answer: Answer,
    pub requests: Vec<Request>,
    pub notes: Vec<Note>,
}

impl Model for Given {
    ghost use Rattle.std.specs.Prelude.{map};
    ghost use Rattle.lease_client.specs.Answers.{answer_of, note_of};
    ghost use Rattle.lease_client.specs.Turns as turns;

    ghost Value = { turns.Given };

    ghost view = { λ given. record {
      answer = answer_of given.answer;
      requests = given.requests.items;
      notes = map note_of given.notes.items;
    } };
}

impl Given {
    /// Nothing is given out yet (profile): the answer is `Quiet`, and nothing is sent or noted. Allocates nothing.
    pub fn new(alloc: Global) -> Given
        ensures { result ≡ record { answer = model.Answer.Quiet; requests = []; notes = [] } }
    {
        Given {
            answer: Answer::Quiet,
            requests: Vec::new(alloc),
            notes: Vec::new(alloc),
        }
    }

    /// An answer in place of what was there, with nothing sent or noted yet. Allocates nothing.
    #[inline(always)]
    pub(crate) fn begin(&mut self, answer: Answer)
        ensures { self.new ≡ record { answer = answer_of answer; requests = []; notes = [] } }
    {
        self.answer = answer;
        self.requests.clear();
        self.notes.clear();
    }

    /// Its requests and notes go after those that there are.
    ///
    /// # Errors
    ///
    /// `Memory` where there is none left for them.
    pub(crate) fn join(
        self,
        requests: &mut Vec<Request>,
        notes: &mut Vec<Note>,
    ) -> Result<(), Memory>
        ensures requests { OnOk result (requests.new.items ≡ requests.old.items ++ self.requests) }
        ensures notes { OnOk result (map note_of notes.new.items ≡ map note_of notes.old.items ++ self.notes) }
    {
        let Given {
            requests: mut sent,
            notes: mut noted,
            ..
        } = self;
        requests.append(&mut sent)?;
        notes.append(&mut noted)?;
        Ok(())
    }

    /// Notes what is believed of the file's lease, after the other notes, unless that was believed
    /// before.
    ///
    /// # Errors
    ///
    /// `Memory` where there is none left for that note, and never where the belief is the old one.
    pub(crate) fn note_belief(
        &mut self,
        file: FileNo,
        old: LeaseState,
        new: LeaseState,
    ) -> Result<(), Memory>
        ensures note { OnOk result (self.new ≡ record self.old {
          notes = self.old.notes ++ believes_noted file.0 (state_of old) (state_of new);
        }) }
        ensures same { same_state (state_of old) (state_of new) ≡ true → IsOk result }
    {
        if !is_same(old, new) {
            self.notes.push(Note::Believes(file, new))?;
        }
        Ok(())
    }
}

impl Turn {
    /// The entry as it is, with an answer and nothing sent or noted. Allocates nothing.
    pub fn still(entry: Entry, answer: Answer) -> Turn
        ensures { result ≡ record { entry = entry; answer = answer_of answer; requests = []; notes = [] } }
    {
        let alloc = entry.alloc();
        Turn {
            entry,
            answer,
            requests: Vec::new(alloc),
            notes: Vec::new(alloc),
        }
    }

    /// The entry is put into its place, and the rest is given out.
    pub fn put_into(self, place: &mut Entry, given: &mut Given)
        ensures { turned_to place.new given.new ≡ self }
    {
        let Turn {
            entry,
            answer,
            requests,
            notes,
        } = self;
        *place = entry;
        given.answer = answer;
        put_list(requests, &mut given.requests);
        put_list(notes, &mut given.notes);
    }
}

// A list takes the place of another one, of which an empty list keeps the memory.
fn put_list<T: Drop>(list: Vec<T>, place: &mut Vec<T>)
    ensures { place.new.items ≡ list.items }
{
    if list.is_empty() {
        place.clear();
    } else {
        *place = list;
    }
}
