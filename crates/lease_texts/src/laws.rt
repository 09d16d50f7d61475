//! What is true of lines by their tables: public functions whose contracts carry the laws. They do nothing.

ghost use Rattle.lease_texts.specs.Laws.{FactFaultsAreFirst, FactsAreReadBack, LinesTellFacts, LinesTellParts};
ghost use Rattle.lease_texts.specs.Laws.{PartFaultsAreFirst, PartsAreReadBack, RecordsAreReadBack, SchedulesAreReadBack};
ghost use Rattle.lease_texts.specs.Laws.{TextsGoOn};

/// A line is read as a fact exactly where it is the line of this fact by the table of kinds: where between single spaces stand
/// the name of a kind of fact and the words of its fields. No line is that of two facts, or of one by two kinds, and a line is
/// refused exactly where it is that of none. Does nothing.
#[tactic(auto, using(crate::proofs::Rows::facts_told))]
pub fn lines_tell_facts()
    ensures facts { LinesTellFacts }
{}

/// The same of the lines of schedules: their files and clients, and what happens. Does nothing.
#[tactic(auto, using(crate::proofs::Rows::parts_told))]
pub fn lines_tell_parts()
    ensures parts { LinesTellParts }
{}

/// `complaint_about` has a complaint exactly where a line is refused as a fact, or as a part of a schedule. It is of the first
/// field that no line has: some line of the table begins with the fields before it, and none goes on with this one, or none ends
/// there. The words that may stand in that field are those that it says were expected. Does nothing.
#[tactic(auto, using(crate::proofs::Rows::facts_complained, crate::proofs::Rows::parts_complained))]
pub fn complaints_name_first_faults()
    ensures facts { FactFaultsAreFirst }
    ensures parts { PartFaultsAreFirst }
{}

/// The line of each fact that can be written is one line, counts for something, and is read as that
/// fact; and so it is with the files, clients and events of schedules. Does nothing.
#[tactic(auto, using(crate::proofs::Rows::facts_back, crate::proofs::Rows::parts_back))]
pub fn lines_are_read_back()
    ensures facts { FactsAreReadBack }
    ensures parts { PartsAreReadBack }
{}

/// The text of each record whose facts can be written is read as that record, and what follows it
/// in a text is read after it. Does nothing.
#[tactic(auto, using(crate::proofs::Texts::records_back, crate::proofs::Texts::texts_go_on))]
pub fn records_are_read_back()
    ensures records { RecordsAreReadBack }
    ensures behind { TextsGoOn }
{}

/// The text of a schedule, its setup and its events, is read as that schedule, if lines can hold it. Does nothing.
#[tactic(auto, using(crate::proofs::Texts::schedules_back))]
pub fn schedules_are_read_back()
    ensures schedules { SchedulesAreReadBack }
{}
