ghost use Rattle.std.specs.Prelude.{◌≡◌, ◌<◌, ◌+◌, ◌∷◌, [], List, OnOk, IfOk, length, vec_len};
ghost use Rattle.lease_facts.specs.Facts.{fact_of};
ghost use Rattle.lease_model.specs.records.Facts as model;
ghost use Rattle.lease_reasons.specs.Beliefs.{row_in, is_empty, HasCell, HasBelief, HasSameCells, HasSameRows, AreLast};
ghost use Rattle.lease_reasons.specs.Places.{past_of};

use crate::reason::Belief;
use lease_facts::Fact;
use lease_state::{ClientNo, FileNo, Memory};
use std::alloc::Global;
use std::marker::Model;

/// The last beliefs of a file, one of each client that noted some.
#[derive(Debug, Drop)]
pub struct FileBeliefs {
    // By the numbers of clients.
    cells: Vec<Option<Belief>>,
}

impl Model for FileBeliefs {
    ghost use Rattle.std.specs.Prelude.{List, Option};
    ghost use Rattle.lease_reasons.specs.declared.reason.Belief.{Belief};

    ghost Value = { List (Option Belief) };

    ghost view = { λ beliefs. beliefs.cells.items };
}

impl FileBeliefs {
    /// Of no client. Allocates nothing.
    pub fn new(alloc: Global) -> FileBeliefs
        ensures { result ≡ [] }
    {
        FileBeliefs {
            cells: Vec::new(alloc),
        }
    }

    /// The beliefs by the numbers of clients.
    pub fn as_slice(&self) -> &[Option<Belief>]
        ensures { result.now ≡ self.now }
    {
        self.cells.as_slice()
    }

    // Whether no client noted one.
    fn is_empty(&self) -> bool
        ensures { result ≡ is_empty self.now }
    {
        self.cells.is_empty()
    }

    // The belief stands in place of an earlier one of its client.
    fn put(&mut self, belief: Belief) -> Result<(), Memory>
        ensures { OnOk result (HasCell belief self.old self.new) }
    {
        reach_client(&mut self.cells, belief.client)?;
        self.cells[usize::from(belief.client.0)] = Some(belief);
        Ok(())
    }
}

/// The last beliefs that facts report, by files and clients.
#[derive(Debug, Drop)]
pub struct LastBeliefs {
    /// The files of which some client noted a belief, in the order in which they come.
    pub files: Vec<FileNo>,
    // By the numbers of files.
    rows: Vec<FileBeliefs>,
}

impl LastBeliefs {
    /// Those of these facts.
    ///
    /// # Errors
    ///
    /// `Memory` where there is none left for the beliefs.
    pub fn of(alloc: Global, facts: &[Fact]) -> Result<LastBeliefs, Memory>
        ensures { IfOk result (AreLast (past_of facts.now)) }
    {
        let mut beliefs = LastBeliefs {
            files: Vec::new(alloc),
            rows: Vec::new(alloc),
        };
        for (index, fact) in facts.iter().enumerate() {
            beliefs.note(fact, index + 1)?;
        }
        Ok(beliefs)
    }

    // Takes note of the fact at this place.
    fn note(&mut self, fact: &Fact, place: usize) -> Result<(), Memory>
        ensures { OnOk result ((past : List model.Fact) → length past + 1 ≡ place → AreLast past self.old
            → AreLast (fact_of fact.now ∷ past) self.new) }
    {
        match fact {
            Fact::Believes(client, file, state) => self.put(
                *file,
                Belief {
                    client: *client,
                    place,
                    state: *state,
                },
            ),
            _ => Ok(()),
        }
    }

    // The belief is the last of its client.
    fn put(&mut self, file: FileNo, belief: Belief) -> Result<(), Memory>
        ensures { OnOk result (HasBelief file.0 belief self.old self.new) }
    {
        reach_file(&mut self.rows, file)?;
        let row = &mut self.rows[usize::from(file.0)];
        let is_first = row.is_empty();
        row.put(belief)?;
        if is_first {
            self.files.push(file)?;
        }
        Ok(())
    }

    /// The beliefs of a file, by the numbers of clients.
    pub fn of_file(&self, file: FileNo) -> &[Option<Belief>]
        ensures { result.now ≡ row_in self.now.rows.items file.0 }
    {
        match self.rows.get(usize::from(file.0)) {
            Some(row) => row.as_slice(),
            None => &[],
        }
    }
}

// Makes a place for the belief of the client.
fn reach_client(cells: &mut Vec<Option<Belief>>, client: ClientNo) -> Result<(), Memory>
    ensures there { OnOk result (client.0 < vec_len cells.new) }
    ensures same { HasSameCells cells.old.items cells.new.items }
{
    while cells.len() <= usize::from(client.0) {
        cells.push(None)?;
    }
    Ok(())
}

// Makes a place for the beliefs of the file.
fn reach_file(rows: &mut Vec<FileBeliefs>, file: FileNo) -> Result<(), Memory>
    ensures there { OnOk result (file.0 < vec_len rows.new) }
    ensures same { HasSameRows rows.old.items rows.new.items }
{
    let alloc = *rows.allocator();
    while rows.len() <= usize::from(file.0) {
        rows.push(FileBeliefs::new(alloc))?;
    }
    Ok(())
}
