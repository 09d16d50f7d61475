ghost use Rattle.std.specs.Prelude.{◌++◌, ◌≡◌, ◌==◌, ◌&&◌, ◌∷◌, [], if◌then◌else◌, Some, None, List, OnOk, IfOk, unwrap_or};
ghost use Rattle.capture_walk.specs.Files.{file_at, file_as, life_at, life_by, life_of, place_in, file_by, share_of, file_found};
ghost use Rattle.capture_walk.specs.Files.{is_alike, at_spot, by_name, spot_of, place_of_own, place_view, naming_view};
ghost use Rattle.capture_walk.specs.Files.{placed_at, placed, identified_as, identified};
ghost use Rattle.capture_walk.specs.Files.{found_at, found_as, found_by, Life, HaveBegun};
ghost use Rattle.capture_walk.specs.Files as places;
ghost use Rattle.capture_walk.specs.Opens.{KnowsFiles};
ghost use Rattle.std.specs.Option.{option_map};
ghost use Rattle.capture_walk.specs.Renames as renames;
ghost use Rattle.capture_walk.specs.Notes.{create_given};
ghost use Rattle.capture_walk.specs.declared.note.Seen.{Seen};

use crate::note::Seen;
use lease_state::{Bytes, Memory};
use std::alloc::Global;
use std::collections::BTreeMap;

/// Where a file is.
#[derive(Clone, Copy, Debug)]
pub struct Place<'a> {
    /// The number of the server's address and port.
    pub server: u64,
    /// The share's path, as it stands in the TREE_CONNECT request.
    pub path: &'a [u8],
    /// The name below the share, as it stands in the CREATE request.
    pub name: &'a [u8],
    /// When the file was made.
    pub creation_time: u64,
}

// A place, with memory of its own.
#[derive(Debug, Drop)]
pub(crate) struct OwnPlace {
    server: u64,
    path: Bytes,
    name: Bytes,
    creation_time: u64,
}

impl OwnPlace {
    fn new(alloc: Global, place: Place<'_>) -> Result<OwnPlace, Memory>
        ensures { IfOk result (λ own. place_of_own own ≡ place_view place.entry) }
    {
        Ok(OwnPlace {
            server: place.server,
            path: Bytes::new(Vec::from_slice(alloc, place.path)?),
            name: Bytes::new(Vec::from_slice(alloc, place.name)?),
            creation_time: place.creation_time,
        })
    }

    fn place(&self) -> Place<'_>
        ensures { place_view result ≡ place_of_own self.now }
    {
        Place {
            server: self.server,
            path: self.path.as_slice(),
            name: self.name.as_slice(),
            creation_time: self.creation_time,
        }
    }
}

/// What tells files of one name on one share apart.
#[derive(Clone, Copy, Debug, PartialEq, Eq, PartialOrd, Ord)]
pub(crate) struct Spot {
    server: u64,
    creation_time: u64,
}

// Files on a share, by their names.
type Names = BTreeMap<Vec<u8>, BTreeMap<Spot, u64>>;

/// A file on a disk of a server.
#[derive(Clone, Copy, Debug, PartialEq, Eq, PartialOrd, Ord)]
pub(crate) struct Identity {
    pub(crate) server: u64,
    // DiskFileId and VolumeId
    pub(crate) file: u64,
    pub(crate) volume: u64,
    // A server may give an id again once a file is gone.
    pub(crate) creation_time: u64,
}

/// What a CREATE response's file is known by.
#[derive(Clone, Copy, Debug)]
pub(crate) struct Naming<'a> {
    /// Its place, where the name is sure to lead to it.
    pub(crate) place: Option<Place<'a>>,
    pub(crate) identity: Option<Identity>,
    /// The file of the lease that its client holds under the key of the one that is granted.
    pub(crate) under: Option<u64>,
}

/// The files that are known, with the numbers of the messages with which their lives began.
#[derive(Debug, Drop)]
pub(crate) struct Files {
    alloc: Global,
    // Those that are known by their names, by what names their shares.
    named: BTreeMap<Vec<u8>, Names>,
    // Those of which it is known what they are on a disk.
    identified: BTreeMap<Identity, u64>,
    // The places at which all began, by their numbers.
    begun: BTreeMap<u64, OwnPlace>,
}

// What stands behind a unit, where that is a backslash, else what stands behind the last one before it.
fn behind_unit<'a>(low: u8, high: u8, behind: &'a [u8], share: &'a [u8]) -> &'a [u8]
    ensures { result.now ≡ (if low == 92 && high == 0 then behind.now else share.now) }
{
    if low == b'\\' && high == 0 {
        behind
    } else {
        share
    }
}

// What names a share in its path.
#[tactic(auto, unfolding(crate::specs::Files::share_of))]
fn share_of(path: &[u8]) -> &[u8]
    ensures { result.now ≡ share_of path.now }
{
    let mut share = path;
    let mut rest = path;
    while let [low, high, behind @ ..] = rest {
        share = behind_unit(*low, *high, behind, share);
        rest = behind;
    }
    share
}

fn spot_of(place: Place<'_>) -> Spot
    ensures { result ≡ spot_of (place_view place.entry) }
{
    Spot {
        server: place.server,
        creation_time: place.creation_time,
    }
}

fn find_spot(spots: &BTreeMap<Spot, u64>, place: Place<'_>) -> Option<u64>
    ensures { result ≡ at_spot (place_view place.entry) (Some spots.now) }
{
    match spots.get(&spot_of(place)) {
        Some(file) => Some(*file),
        None => None,
    }
}

// The file at a place, by the names on its share.
fn find_name(names: &Names, place: Place<'_>) -> Option<u64>
    ensures { result ≡ by_name (place_view place.entry) (Some names.now) }
{
    match names.get(place.name) {
        Some(spots) => find_spot(spots, place),
        None => None,
    }
}

// From here on a place leads to a file, by the names on its share.
fn put_name(alloc: Global, names: &mut Names, place: Place<'_>, file: u64) -> Result<(), Memory>
    ensures { OnOk result ((other : places.Place) → by_name other (Some names.new)
        ≡ (if is_alike (place_view place.entry) other then Some file else by_name other (Some names.old))) }
{
    let spot = spot_of(place);
    match names.get_mut(place.name) {
        Some(spots) => {
            spots.insert(spot, file)?;
        }
        None => {
            let mut spots = BTreeMap::new(alloc);
            spots.insert(spot, file)?;
            names.insert(Vec::from_slice(alloc, place.name)?, spots)?;
        }
    }
    Ok(())
}

impl Files {
    /// None. Allocates nothing.
    pub(crate) fn new(alloc: Global) -> Files
        ensures { KnowsFiles [] result }
    {
        Files {
            alloc,
            named: BTreeMap::new(alloc),
            identified: BTreeMap::new(alloc),
            begun: BTreeMap::new(alloc),
        }
    }

    /// The file at a place.
    pub(crate) fn find(&self, place: Place<'_>) -> Option<u64>
        ensures { result ≡ file_at (place_view place.entry) self.now }
    {
        match self.named.get(share_of(place.path)) {
            Some(names) => find_name(names, place),
            None => None,
        }
    }

    fn find_at(&self, place: Option<Place<'_>>) -> Option<u64>
        ensures { result ≡ found_at (option_map place_view place.entry) self.now }
    {
        self.find(place?)
    }

    fn find_as(&self, identity: Option<Identity>) -> Option<u64>
        ensures { result ≡ found_as identity self.now }
    {
        match self.identified.get(&identity?) {
            Some(file) => Some(*file),
            None => None,
        }
    }

    // The file that is known by this.
    fn find_by(&self, naming: Naming<'_>) -> Option<u64>
        ensures { result ≡ found_by (naming_view naming.entry) self.now }
    {
        if let Some(file) = self.find_as(naming.identity) {
            return Some(file);
        }
        match self.find_at(naming.place) {
            Some(file) => Some(file),
            None => naming.under,
        }
    }

    fn begin(&mut self, place: Place<'_>, file: u64) -> Result<(), Memory>
        ensures begun { OnOk result ((lives : List Life) → HaveBegun lives self.old
            → HaveBegun (life_of (place_view place.entry) file ∷ lives) self.new) }
        ensures named { OnOk result (self.new.named ≡ self.old.named) }
        ensures identified { OnOk result (self.new.identified ≡ self.old.identified) }
    {
        let own = OwnPlace::new(self.alloc, place)?;
        self.begun.insert(file, own)?;
        Ok(())
    }

    // From here on the place leads to the file.
    fn place(&mut self, place: Place<'_>, file: u64) -> Result<(), Memory>
        ensures named { OnOk result ((other : places.Place) → file_at other self.new
            ≡ placed_at other (place_view place.entry) file (file_at other self.old)) }
        ensures identified { OnOk result (self.new.identified ≡ self.old.identified) }
        ensures begun { OnOk result (self.new.begun ≡ self.old.begun) }
    {
        let alloc = self.alloc;
        let share = share_of(place.path);
        match self.named.get_mut(share) {
            Some(names) => put_name(alloc, names, place, file)?,
            None => {
                let mut names = BTreeMap::new(alloc);
                put_name(alloc, &mut names, place, file)?;
                self.named.insert(Vec::from_slice(alloc, share)?, names)?;
            }
        }
        Ok(())
    }

    // From here on the identity is the file's.
    fn identify(&mut self, identity: Identity, file: u64) -> Result<(), Memory>
        ensures identified { OnOk result ((other : Identity) → file_as other self.new
            ≡ identified_as other identity file (file_as other self.old)) }
        ensures named { OnOk result (self.new.named ≡ self.old.named) }
        ensures begun { OnOk result (self.new.begun ≡ self.old.begun) }
    {
        self.identified.insert(identity, file)?;
        Ok(())
    }

    // The life that begins with a message, if one does.
    fn begin_life(
        &mut self,
        place: Option<Place<'_>>,
        is_new: bool,
        number: u64,
        found: Option<u64>,
    ) -> Result<(), Memory>
        ensures begun { OnOk result ((lives : List Life) → HaveBegun lives self.old
            → HaveBegun (life_by (option_map place_view place.entry) is_new number found ++ lives) self.new) }
        ensures named { OnOk result (self.new.named ≡ self.old.named) }
        ensures identified { OnOk result (self.new.identified ≡ self.old.identified) }
    {
        match place {
            Some(place) if is_new || found.is_none() => self.begin(place, number),
            _ => Ok(()),
        }
    }

    // What leads to the file from here on.
    fn lead_to(&mut self, naming: Naming<'_>, file: Option<u64>) -> Result<(), Memory>
        ensures named { OnOk result ((other : places.Place) → file_at other self.new
            ≡ placed other (naming_view naming.entry).place file (file_at other self.old)) }
        ensures identified { OnOk result ((other : Identity) → file_as other self.new
            ≡ identified other (naming_view naming.entry).identity file (file_as other self.old)) }
        ensures begun { OnOk result (self.new.begun ≡ self.old.begun) }
    {
        let Some(file) = file else {
            return Ok(());
        };
        if let Some(place) = naming.place {
            self.place(place, file)?;
        }
        if let Some(identity) = naming.identity {
            self.identify(identity, file)?;
        }
        Ok(())
    }

    /// The file that a CREATE opens, by what it is known by; its life begins with the response, a message with this number,
    /// where it is new or wasn't known.
    pub(crate) fn open(
        &mut self,
        naming: Naming<'_>,
        is_new: bool,
        number: u64,
    ) -> Result<Option<u64>, Memory>
        ensures file { IfOk result (λ file. file ≡ file_by is_new number (naming_view naming.entry).place
            (found_by (naming_view naming.entry) self.old)) }
        ensures named { OnOk result ((other : places.Place) → file_at other self.new
            ≡ placed other (naming_view naming.entry).place
            (file_by is_new number (naming_view naming.entry).place (found_by (naming_view naming.entry) self.old))
            (file_at other self.old)) }
        ensures identified { OnOk result ((other : Identity) → file_as other self.new
            ≡ identified other (naming_view naming.entry).identity
            (file_by is_new number (naming_view naming.entry).place (found_by (naming_view naming.entry) self.old))
            (file_as other self.old)) }
        ensures begun { OnOk result ((lives : List Life) → HaveBegun lives self.old → HaveBegun (life_by
            (naming_view naming.entry).place is_new number (found_by (naming_view naming.entry) self.old) ++ lives) self.new) }
    {
        let found = self.find_by(naming);
        let file = match naming.place {
            Some(_) if is_new => Some(number),
            Some(_) => Some(found.unwrap_or(number)),
            None => found,
        };
        self.begin_life(naming.place, is_new, number, found)?;
        self.lead_to(naming, file)?;
        Ok(file)
    }

    /// Takes note of a message that is no CREATE response, and after which names may lead to other files or not.
    #[tactic(auto, using(crate::proofs::Places::known_left))]
    pub(crate) fn note_change(&mut self, is_change: bool)
        ensures { (seen : Seen) (past : List Seen) → create_given seen.note ≡ None → is_change ≡ renames.is_change seen past
            → KnowsFiles past self.old → KnowsFiles (seen ∷ past) self.new }
    {
        if is_change {
            self.named.clear();
        }
    }

    /// Where a file is that began, by its number.
    pub(crate) fn place_of(&self, file: u64) -> Option<Place<'_>>
        ensures { option_map place_view result ≡ place_in file self.now }
    {
        match self.begun.get(&file) {
            Some(one) => Some(one.place()),
            None => None,
        }
    }
}
