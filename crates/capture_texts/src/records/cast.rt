ghost use Rattle.std.specs.Prelude.{◌≡◌, List, IfOk, OnOk, map, length};
ghost use Rattle.std.specs.List.{list_any};
ghost use Rattle.capture_texts.specs.Reports as reports;
ghost use Rattle.capture_texts.specs.Reports.{number_named};
ghost use Rattle.capture_texts.specs.records.Remarks.{wanted};
ghost use Rattle.capture_texts.specs.records.Casts.{is_number, with_client, with_clients, is_wanted, has_unsafe, Takes, IsCast};

use crate::finding::{ClientName, FileFinding, Judged};
use lease_state::Memory;
use std::alloc::Global;

/// The most files, and the most clients, that a record can name.
pub const MOST: usize = 255;

/// Whom a record is of: its clients, by their numbers in the capture, and its files, by the places of their findings.
#[derive(Drop)]
pub(crate) struct Cast {
    pub(crate) clients: Vec<u64>,
    pub(crate) findings: Vec<usize>,
}

fn is_unsafe(file: &FileFinding) -> bool
    ensures { result ≡ reports.is_unsafe file.now.judged }
{
    file.judged.is_unsafe()
}

fn has_unsafe(files: &[FileFinding]) -> bool
    ensures { result ≡ has_unsafe files.now }
{
    files.iter().any(is_unsafe)
}

// Whether the record is of the file, by whether it is of unsafe ones.
fn is_wanted(are_unsafe: bool, file: &FileFinding) -> bool
    ensures { result ≡ is_wanted are_unsafe file.now }
{
    match file.judged {
        Judged::Unsafe(_) | Judged::Granted(_) => are_unsafe,
        Judged::Safe => !are_unsafe,
        Judged::NoClient | Judged::Contradictory | Judged::TooMany => false,
    }
}

// How many files the record is of, if there is room.
pub(crate) fn count_wanted(files: &[FileFinding]) -> usize
    ensures { result ≡ wanted files.now }
{
    let are_unsafe = has_unsafe(files);
    files
        .iter()
        .filter(|file| is_wanted(are_unsafe, file))
        .count()
}

fn has_client(clients: &[u64], client: u64) -> bool
    ensures { result ≡ list_any (is_number client) clients.now }
{
    clients.iter().any(|one| *one == client)
}

fn note_client(clients: &mut Vec<u64>, client: u64) -> Result<(), Memory>
    ensures { OnOk result (clients.new.items ≡ with_client client clients.old.items) }
{
    if !has_client(clients.as_slice(), client) {
        clients.push(client)?;
    }
    Ok(())
}

// The clients with those that have these names.
fn clients_with(alloc: Global, known: &[u64], names: &[ClientName]) -> Result<Vec<u64>, Memory>
    ensures { IfOk result (λ clients. clients.items ≡ with_clients known.now (map number_named names.now)) }
{
    let mut clients = Vec::from_slice(alloc, known)?;
    for name in names {
        note_client(&mut clients, name.number)?;
    }
    Ok(clients)
}

impl Cast {
    // Takes a file, by its place, if there is room for it and its clients.
    fn take(&mut self, alloc: Global, place: usize, file: &FileFinding) -> Result<(), Memory>
        ensures { OnOk result (Takes place file.now self.old self.new) }
    {
        let clients = clients_with(alloc, self.clients.as_slice(), file.clients.as_slice())?;
        if self.findings.len() < MOST && clients.len() <= MOST {
            self.clients = clients;
            self.findings.push(place)?;
        }
        Ok(())
    }
}

/// Whom the record of these findings is of.
pub(crate) fn cast_of(alloc: Global, files: &[FileFinding]) -> Result<Cast, Memory>
    ensures { IfOk result (IsCast files.now) }
{
    let are_unsafe = has_unsafe(files);
    let mut cast = Cast {
        clients: Vec::new(alloc),
        findings: Vec::new(alloc),
    };
    for (place, file) in files.iter().enumerate() {
        if is_wanted(are_unsafe, file) {
            cast.take(alloc, place, file)?;
        }
    }
    Ok(cast)
}
