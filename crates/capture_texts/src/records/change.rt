ghost use Rattle.std.specs.Prelude.{◌≡◌, ◌++◌, ◌≤◌, List, IfOk, OnOk, map, length};
ghost use Rattle.std.specs.List.{AllZip, position};
ghost use Rattle.capture_texts.specs.declared.finding.FileFinding.{FileFinding};
ghost use Rattle.capture_texts.specs.records.Casts.{is_number, IsAt};
ghost use Rattle.capture_texts.specs.records.Changes.{shown, shown_by, changes_in, changes_of};

use crate::finding::{Belief, FileFinding};
use crate::records::cast::MOST;
use capture_judge::Level;
use lease_state::{ClientNo, FileNo, Memory};
use std::alloc::Global;

/// A change of what a client caches, by the numbers of the record; and where it was found.
#[derive(Clone, Copy, Debug)]
pub(crate) struct Change {
    pub(crate) position: u64,
    pub(crate) file: FileNo,
    pub(crate) client: ClientNo,
    pub(crate) level: Level,
    // The places of the finding, and of the belief in it.
    pub(crate) finding: usize,
    pub(crate) belief: usize,
}

// The place of a client among those of the record.
fn place_of(clients: &[u64], client: u64) -> Option<usize>
    ensures { result ≡ position (is_number client) clients.now }
{
    clients.iter().position(|one| *one == client)
}

// The changes of a file with this number, whose finding has this place.
fn push_changes(
    changes: &mut Vec<Change>,
    clients: &[u64],
    file: u8,
    finding: usize,
    beliefs: &[Belief],
) -> Result<(), Memory>
    requires { length clients.now ≤ MOST }
    ensures { OnOk result (map shown changes.new.items
        ≡ map shown changes.old.items ++ changes_in clients.now file finding 0 beliefs.now) }
{
    for (belief, one) in beliefs.iter().enumerate() {
        if let Some(place) = place_of(clients, one.client) {
            changes.push(Change {
                position: one.position,
                file: FileNo(file),
                client: ClientNo(place as u8 + 1),
                level: one.level,
                finding,
                belief,
            })?;
        }
    }
    Ok(())
}

/// The changes of the files whose findings have these places, file by file.
pub(crate) fn changes_of(
    alloc: Global,
    files: &[FileFinding],
    clients: &[u64],
    findings: &[usize],
) -> Result<Vec<Change>, Memory>
    requires clients { length clients.now ≤ MOST }
    requires files { length findings.now ≤ MOST }
    ensures { IfOk result (λ changes. (chosen : List FileFinding) → AllZip (IsAt files.now) findings.now chosen
        → map shown changes.items ≡ changes_of clients.now findings.now chosen) }
{
    let mut changes = Vec::new(alloc);
    for (index, finding) in findings.iter().enumerate() {
        if let Some(file) = files.get(*finding) {
            push_changes(
                &mut changes,
                clients,
                index as u8 + 1,
                *finding,
                file.beliefs.as_slice(),
            )?;
        }
    }
    Ok(changes)
}
