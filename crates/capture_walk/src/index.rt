//! What is looked up of events.

ghost use Rattle.std.specs.Prelude.{◌≡◌, ◌++◌, ◌∷◌, ◌||◌, ◌==◌, [], ℕ, List, None, OnOk, IfOk, if◌then◌else◌};
ghost use Rattle.std.specs.BTreeMap.{get};
ghost use Rattle.std.specs.BTreeSet.{contains};
ghost use Rattle.capture_walk.specs.Events.{is_of};
ghost use Rattle.std.specs.Prelude.{Some};
ghost use Rattle.std.specs.Ordering.{nat_cmp};
ghost use Rattle.std.specs.Option.{is_some};
ghost use Rattle.std.specs.List.{list_any};
ghost use Rattle.std.specs.Prelude.{false, drop};
ghost use Rattle.capture_walk.specs.LeaseMaps.{lease_order};
ghost use Rattle.capture_walk.specs.Chains.{is_file, is_same, earliest, files_behind, files_in, is_gone, leases_behind, lost_since};
ghost use Rattle.capture_walk.specs.Index.{AreWhole, IsIndex, Leads, is_about, is_proof_of, is_up_to, leases_at, lost_at, may_be_gone};
ghost use Rattle.capture_walk.specs.Index.{may_be_taken, places_at, either_lost};
ghost use Rattle.capture_walk.specs.declared.event.Event.{Event};
ghost use Rattle.capture_walk.specs.declared.event.Lease.{Lease};
ghost use Rattle.capture_walk.specs.declared.event.Sent.{Sent};

use crate::event::{Event, Lease, Sent};
use lease_state::Memory;
use std::alloc::Global;
use std::collections::{BTreeMap, BTreeSet};

// The leases that are granted.
#[derive(Debug, Drop)]
pub(crate) struct Grants {
    // The files on which they are, in the order in which they come.
    files: Vec<u64>,
    // In the order in which they are granted first.
    by_file: BTreeMap<u64, Vec<Lease>>,
    all: BTreeSet<Lease>,
}

#[tactic(auto, using(crate::proofs::Leases::same_order))]
fn join(leases: &mut BTreeSet<Lease>, lease: Lease) -> Result<(), Memory>
    ensures { OnOk result ((other : Lease) → contains lease_order leases.new other
        ≡ (is_same lease other || contains lease_order leases.old other)) }
{
    leases.insert(lease)?;
    Ok(())
}

impl Grants {
    fn new(alloc: Global) -> Grants
        ensures whole { AreWhole result }
        ensures files { result.files.items ≡ [] }
        ensures leases { (file : ℕ) → leases_at result file ≡ [] }
    {
        Grants {
            files: Vec::new(alloc),
            by_file: BTreeMap::new(alloc),
            all: BTreeSet::new(alloc),
        }
    }

    // The leases on a file, which are out of the table then.
    fn take_out(&mut self, alloc: Global, file: u64) -> Result<Vec<Lease>, Memory>
        ensures leases { IfOk result (λ leases. leases.items ≡ leases_at self.old file) }
        ensures others { OnOk result ((other : ℕ) → get nat_cmp self.new.by_file other
            ≡ (if other == file then None else get nat_cmp self.old.by_file other)) }
        ensures files { OnOk result (self.new.files.items
            ≡ (if is_some (get nat_cmp self.old.by_file file) then self.old.files.items
            else self.old.files.items ++ file ∷ [])) }
        ensures all { OnOk result (self.new.all ≡ self.old.all) }
    {
        match self.by_file.remove(&file) {
            Some(leases) => Ok(leases),
            None => {
                self.files.push(file)?;
                Ok(Vec::new(alloc))
            }
        }
    }

    // One more lease on its file.
    fn put(&mut self, alloc: Global, lease: Lease) -> Result<(), Memory>
        ensures files { OnOk result (self.new.files.items
            ≡ (if is_some (get nat_cmp self.old.by_file lease.file) then self.old.files.items
            else self.old.files.items ++ lease.file ∷ [])) }
        ensures known { OnOk result ((file : ℕ) → is_some (get nat_cmp self.new.by_file file)
            ≡ (file == lease.file || is_some (get nat_cmp self.old.by_file file))) }
        ensures leases { OnOk result ((file : ℕ) → leases_at self.new file
            ≡ (if file == lease.file then leases_at self.old file ++ lease ∷ [] else leases_at self.old file)) }
        ensures all { OnOk result (self.new.all ≡ self.old.all) }
    {
        let mut leases = self.take_out(alloc, lease.file)?;
        leases.push(lease)?;
        self.by_file.insert(lease.file, leases)?;
        Ok(())
    }

    // One more lease.
    #[tactic(auto, using(crate::proofs::Granted::whole_more))]
    fn add(&mut self, alloc: Global, lease: Lease) -> Result<(), Memory>
        ensures whole { OnOk result (AreWhole self.old → AreWhole self.new) }
        ensures files { OnOk result (self.new.files.items
            ≡ (if is_some (get nat_cmp self.old.by_file lease.file) then self.old.files.items
            else self.old.files.items ++ lease.file ∷ [])) }
        ensures leases { OnOk result ((file : ℕ) → leases_at self.new file
            ≡ (if file == lease.file then leases_at self.old file ++ lease ∷ [] else leases_at self.old file)) }
    {
        self.put(alloc, lease)?;
        join(&mut self.all, lease)
    }

    fn note(&mut self, alloc: Global, event: &Event) -> Result<(), Memory>
        ensures whole { OnOk result (AreWhole self.old → AreWhole self.new) }
        ensures files { OnOk result (AreWhole self.old → (later : List Event)
            → files_behind self.new.files.items later ≡ files_behind self.old.files.items (event.now ∷ later)) }
        ensures leases { OnOk result (AreWhole self.old → (file : ℕ) (later : List Event)
            → leases_behind file (leases_at self.new file) later
            ≡ leases_behind file (leases_at self.old file) (event.now ∷ later)) }
    {
        match event {
            Event::Granted(grant) if !self.all.contains(&grant.lease) => {
                self.add(alloc, grant.lease)
            }
            _ => Ok(()),
        }
    }
}

// From where on something is missing.
#[derive(Debug, Drop)]
pub(crate) struct Losses {
    clients: BTreeMap<u64, u64>,
    files: BTreeMap<u64, u64>,
}

fn earlier(found: Option<u64>, since: u64) -> u64
    ensures { result ≡ earliest found since }
{
    match found {
        Some(other) if since < other => since,
        Some(other) => other,
        None => since,
    }
}

// The earliest position of those that come for a number.
fn note_earliest(table: &mut BTreeMap<u64, u64>, number: u64, since: u64) -> Result<(), Memory>
    ensures { OnOk result ((other : ℕ) → get nat_cmp table.new other
        ≡ (if other == number then Some (earliest (get nat_cmp table.old other) since) else get nat_cmp table.old other)) }
{
    let found = match table.get(&number) {
        Some(other) => Some(*other),
        None => None,
    };
    table.insert(number, earlier(found, since))?;
    Ok(())
}

fn either_lost(found: Option<u64>, other: Option<u64>) -> Option<u64>
    ensures { result ≡ either_lost found other }
{
    match other {
        Some(since) => Some(earlier(found, since)),
        None => found,
    }
}

impl Losses {
    fn new(alloc: Global) -> Losses
        ensures { (lease : Lease) → lost_at result lease ≡ None }
    {
        Losses {
            clients: BTreeMap::new(alloc),
            files: BTreeMap::new(alloc),
        }
    }

    fn at(&self, lease: Lease) -> Option<u64>
        ensures { result ≡ lost_at self.now lease }
    {
        let client = self.clients.get(&lease.client).copied();
        let file = self.files.get(&lease.file).copied();
        either_lost(client, file)
    }

    #[tactic(auto, using(crate::proofs::Lost::lost_more, crate::proofs::Lost::remade_more))]
    fn note(&mut self, event: &Event) -> Result<(), Memory>
        ensures { OnOk result ((lease : Lease) (later : List Event)
            → lost_since lease (lost_at self.new lease) later ≡ lost_since lease (lost_at self.old lease) (event.now ∷ later)) }
    {
        match event {
            Event::Lost(loss) => note_earliest(&mut self.clients, loss.client, loss.since),
            Event::Remade(one) => note_earliest(&mut self.files, one.file, one.since),
            _ => Ok(()),
        }
    }
}

/// What is looked up of events, so that nobody has to go over all of them: which leases are granted on which files, where the
/// events are that are about a lease, and what isn't shown anywhere.
#[derive(Debug, Drop)]
pub struct Index {
    grants: Grants,
    places: BTreeMap<Lease, Vec<usize>>,
    losses: Losses,
    // By connections, the greatest number up to which messages are shown to be taken.
    taken: BTreeMap<u64, u64>,
    // Of the messages that made them, of opens that are found to be gone.
    gone: BTreeSet<u64>,
}

fn lease_of(event: &Event) -> Option<Lease>
    ensures { (lease : Lease) → is_about lease event.now ≡ is_of lease result }
{
    match event {
        Event::Granted(one) => Some(one.lease),
        Event::Broken(one) => Some(one.lease),
        Event::Acknowledged(one) => Some(one.lease),
        Event::Ended(one) => Some(one.lease),
        _ => None,
    }
}

fn note_taken(taken: &mut BTreeMap<u64, u64>, event: &Event) -> Result<(), Memory>
    ensures { OnOk result ((sent : Sent) → is_up_to (get nat_cmp taken.new sent.connection) sent.number
        ≡ is_up_to (get nat_cmp taken.old sent.connection) sent.number || is_proof_of sent event.now) }
{
    let Event::Taken(proof) = event else {
        return Ok(());
    };
    let greatest = match taken.get(&proof.connection) {
        Some(other) if proof.number < *other => *other,
        _ => proof.number,
    };
    taken.insert(proof.connection, greatest)?;
    Ok(())
}

fn note_gone(gone: &mut BTreeSet<u64>, event: &Event) -> Result<(), Memory>
    ensures { OnOk result ((number : ℕ) → contains nat_cmp gone.new number
        ≡ contains nat_cmp gone.old number || is_gone number event.now) }
{
    if let Event::Gone(one) = event {
        gone.insert(one.opened)?;
    }
    Ok(())
}

// The places of a lease, which are out of the table then.
#[tactic(auto, using(crate::proofs::Leases::changed_at))]
fn take_out(
    places: &mut BTreeMap<Lease, Vec<usize>>,
    alloc: Global,
    lease: Lease,
) -> Result<Vec<usize>, Memory>
    ensures found { IfOk result (λ found. found.items ≡ places_at places.old lease) }
    ensures others { OnOk result ((other : Lease) → get lease_order places.new other
        ≡ (if is_same lease other then None else get lease_order places.old other)) }
{
    match places.remove(&lease) {
        Some(found) => Ok(found),
        None => Ok(Vec::new(alloc)),
    }
}

fn add_place(
    places: &mut BTreeMap<Lease, Vec<usize>>,
    alloc: Global,
    lease: Lease,
    place: usize,
) -> Result<(), Memory>
    ensures { OnOk result ((other : Lease) → places_at places.new other
        ≡ (if is_same lease other then places_at places.old lease ++ place ∷ [] else places_at places.old other)) }
{
    let mut found = take_out(places, alloc, lease)?;
    found.push(place)?;
    places.insert(lease, found)?;
    Ok(())
}

fn note_place(
    places: &mut BTreeMap<Lease, Vec<usize>>,
    alloc: Global,
    event: &Event,
    place: usize,
) -> Result<(), Memory>
    ensures { OnOk result ((lease : Lease) → places_at places.new lease
        ≡ (if is_about lease event.now then places_at places.old lease ++ place ∷ [] else places_at places.old lease)) }
{
    match lease_of(event) {
        Some(lease) => add_place(places, alloc, lease, place),
        None => Ok(()),
    }
}

impl Index {
    fn new(alloc: Global) -> Index
        ensures { (events : List Event) → Leads events events result }
    {
        Index {
            grants: Grants::new(alloc),
            places: BTreeMap::new(alloc),
            losses: Losses::new(alloc),
            taken: BTreeMap::new(alloc),
            gone: BTreeSet::new(alloc),
        }
    }

    // Takes note of the next event, which is at this place.
    fn note(&mut self, alloc: Global, place: usize, event: &Event) -> Result<(), Memory>
        ensures { OnOk result ((later events : List Event) → drop place events ≡ event.now ∷ later
            → Leads (event.now ∷ later) events self.old → Leads later events self.new) }
    {
        self.grants.note(alloc, event)?;
        note_place(&mut self.places, alloc, event, place)?;
        self.losses.note(event)?;
        note_taken(&mut self.taken, event)?;
        note_gone(&mut self.gone, event)
    }

    /// That of events, which are in the order of the capture.
    ///
    /// # Errors
    ///
    /// `Memory` where there is none left.
    pub fn of(alloc: Global, events: &[Event]) -> Result<Index, Memory>
        ensures { IfOk result (λ index. IsIndex events.now index) }
    {
        let mut index = Index::new(alloc);
        for (place, event) in events.iter().enumerate() {
            index.note(alloc, place, event)?;
        }
        Ok(index)
    }

    /// The numbers of the files on which leases are granted, in the order in which they come.
    pub fn files(&self) -> &[u64]
        ensures { (events : List Event) → IsIndex events self.now → result.now ≡ files_in events }
    {
        &self.grants.files
    }

    /// The leases on a file, in the order in which they are granted first.
    pub(crate) fn leases_on(&self, file: u64) -> &[Lease]
        ensures { result.now ≡ leases_at self.now.grants file }
    {
        match self.grants.by_file.get(&file) {
            Some(leases) => leases.as_slice(),
            None => &[],
        }
    }

    /// Where the events are that are about a lease.
    pub(crate) fn places(&self, lease: Lease) -> &[usize]
        ensures { result.now ≡ places_at self.now.places lease }
    {
        match self.places.get(&lease) {
            Some(places) => places.as_slice(),
            None => &[],
        }
    }

    /// From which position on something of a lease's client may be missing, or its file may be another one.
    pub(crate) fn lost_since(&self, lease: Lease) -> Option<u64>
        ensures { result ≡ lost_at self.now.losses lease }
    {
        self.losses.at(lease)
    }

    /// Whether a message of the server may be shown to be taken.
    pub(crate) fn may_be_taken(&self, sent: Sent) -> bool
        ensures { result ≡ may_be_taken self.now sent }
    {
        match self.taken.get(&sent.connection) {
            Some(greatest) => sent.number <= *greatest,
            None => false,
        }
    }

    /// Whether the open that a message made may be found to be gone.
    pub(crate) fn may_be_gone(&self, number: u64) -> bool
        ensures { result ≡ may_be_gone self.now number }
    {
        self.gone.contains(&number)
    }
}
