ghost use Rattle.std.specs.Prelude.{◌≡◌, ◌∷◌, [], List, Some, None, OnOk, IfOk, filter, option_to_list, ◌++◌};
ghost use Rattle.capture_walk.specs.Clients.{guid_of};
ghost use Rattle.capture_walk.specs.Files.{place_of_life, place_view};
ghost use Rattle.std.specs.Option.{option_map};
ghost use Rattle.capture_walk.specs.Opens.{KnowsFiles, held_after, is_left, lives, made, remade};
ghost use Rattle.capture_walk.specs.Events.{Knows, KnowsLatest, HasSameButFiles, HasSameButEvents, HasOpens, ended, events, heard, told_by, told_remade};
ghost use Rattle.capture_walk.specs.declared.note.Seen.{Seen};

use crate::clients::Clients;
use crate::creates::Creates;
use crate::event::{Event, Remade};
use crate::files::{Files, Place};
use crate::latest::Latest;
use crate::note::Seen;
use crate::opens::{Open, may_end, open_given, place_of};
use crate::renames::Renames;
use crate::sides::Sides;
use crate::telling::{push_ended, push_heard, push_remade, push_told};
use crate::trees::Trees;
use capture_wire::Guid;
use lease_state::Memory;
use std::alloc::Global;

/// What the messages of a capture show, taken one by one.
#[derive(Debug, Drop)]
pub struct Walk {
    clients: Clients,
    sides: Sides,
    trees: Trees,
    creates: Creates,
    renames: Renames,
    files: Files,
    // The newest first.
    opens: Vec<Open>,
    events: Vec<Event>,
    latest: Latest,
}

impl Walk {
    /// Before any message. Allocates nothing.
    pub fn new(alloc: Global) -> Walk
        ensures { Knows [] result }
    {
        Walk {
            clients: Clients::new(alloc),
            sides: Sides::new(alloc),
            trees: Trees::new(alloc),
            creates: Creates::new(alloc),
            renames: Renames::new(alloc),
            files: Files::new(alloc),
            opens: Vec::new(alloc),
            events: Vec::new(alloc),
            latest: Latest::new(alloc),
        }
    }

    // In the place of which file the message shows another one to be made, if it does.
    fn remade(&self, seen: &Seen<'_>) -> Option<Remade>
        ensures { (past : List Seen) → Knows past self.now → result ≡ remade seen.now past }
    {
        let given = seen.note.create_given()?;
        if !given.is_new {
            return None;
        }
        let create = self.creates.pending(seen.connection, given.id)?;
        let place = place_of(seen, given, create, &self.trees)?;
        Some(Remade {
            file: self.files.find(place)?,
            since: create.position,
        })
    }

    // What the message opens, if it is a CREATE response; and which files have which names after it.
    fn name_files(&mut self, seen: &Seen<'_>) -> Result<Option<Open>, Memory>
        ensures made { IfOk result (λ one. (past : List Seen) → Knows past self.old → one ≡ made seen.now past) }
        ensures files { OnOk result ((past : List Seen) → Knows past self.old → KnowsFiles (seen.now ∷ past) self.new.files) }
        ensures same { OnOk result (HasSameButFiles self.old self.new) }
    {
        let Some(given) = seen.note.create_given() else {
            self.files.note_change(self.renames.is_change(seen));
            return Ok(None);
        };
        open_given(
            &self.clients,
            &self.trees,
            &self.creates,
            &self.opens,
            &mut self.files,
            seen,
            given,
        )
    }

    #[tactic(auto, using(crate::proofs::Ends::left_all))]
    fn drop_opens(&mut self, seen: &Seen<'_>, made: Option<Open>)
        ensures { HasOpens (filter (is_left made seen.now) self.old.opens.items) self.old self.new }
    {
        if may_end(seen, made) {
            self.opens.retain(|one| !one.ends(seen, made));
        }
    }

    // The request or answer that the message is, what ends with it, and the file in whose place it makes another one.
    fn show_ends(
        &mut self,
        seen: &Seen<'_>,
        client: Option<u64>,
        made: Option<Open>,
        remade: Option<Remade>,
    ) -> Result<(), Memory>
        ensures same { OnOk result (HasSameButEvents self.old self.new) }
        ensures shown { OnOk result (self.new.events.items
            ≡ ((self.old.events.items ++ heard seen.now client self.old.opens.items)
            ++ ended made seen.now self.old.opens.items) ++ told_remade remade) }
        ensures latest { OnOk result (KnowsLatest self.old.events.items self.old.latest
            → KnowsLatest self.new.events.items self.new.latest) }
    {
        push_heard(&mut self.events, seen, client, &self.opens)?;
        push_ended(&mut self.events, seen, made, &self.opens)?;
        push_remade(&mut self.events, remade)?;
        self.latest.take(&self.events)
    }

    // What the message shows besides.
    fn show_told(
        &mut self,
        seen: &Seen<'_>,
        client: Option<u64>,
        made: Option<Open>,
        since: u64,
    ) -> Result<(), Memory>
        ensures same { OnOk result (HasSameButEvents self.old self.new) }
        ensures shown { OnOk result (KnowsLatest self.old.events.items self.old.latest → self.new.events.items
            ≡ self.old.events.items
            ++ told_by seen.now.note seen.now client made since self.old.opens.items self.old.events.items) }
        ensures latest { OnOk result (KnowsLatest self.old.events.items self.old.latest
            → KnowsLatest self.new.events.items self.new.latest) }
    {
        push_told(
            &mut self.events,
            seen,
            client,
            made,
            since,
            &self.opens,
            &self.latest,
        )?;
        self.latest.take(&self.events)
    }

    // The opens after the message.
    fn change_opens(&mut self, seen: &Seen<'_>, made: Option<Open>) -> Result<(), Memory>
        ensures { OnOk result
            (HasOpens (held_after made seen.now self.old.opens.items) self.old self.new) }
    {
        self.drop_opens(seen, made);
        if let Some(one) = made {
            self.opens.insert(0, one)?;
        }
        Ok(())
    }

    /// Takes the next message.
    ///
    /// # Errors
    ///
    /// `Memory` where there is none left; the walk then can't go on.
    pub fn take(&mut self, seen: &Seen<'_>) -> Result<(), Memory>
        ensures { OnOk result ((past : List Seen) → Knows past self.old → Knows (seen.now ∷ past) self.new) }
    {
        let remade = self.remade(seen);
        let made = self.name_files(seen)?;
        let client = self.clients.of(seen.connection);
        self.show_ends(seen, client, made, remade)?;
        let since = self.sides.missing_since(seen.connection);
        self.show_told(seen, client, made, since)?;
        self.change_opens(seen, made)?;
        self.clients.note(seen)?;
        self.sides.note(seen)?;
        self.trees.note(seen)?;
        self.renames.note(seen)?;
        self.creates.note(seen)
    }

    /// Where a file is, by its number.
    pub fn place_of(&self, file: u64) -> Option<Place<'_>>
        ensures { (past : List Seen) → Knows past self.now → option_map place_view result ≡ place_of_life file (lives past) }
    {
        self.files.place_of(file)
    }

    /// The ClientGuid of a client, by its number.
    pub fn guid_of(&self, client: u64) -> Option<Guid>
        ensures { (past : List Seen) → Knows past self.now → result ≡ guid_of client past }
    {
        self.clients.guid_of(client)
    }

    /// What the messages so far show of leases, in the order of the capture.
    pub fn events(&self) -> &[Event]
        ensures items { result.now ≡ self.now.events.items }
        ensures shown { (past : List Seen) → Knows past self.now → result.now ≡ events past }
    {
        &self.events
    }
}
