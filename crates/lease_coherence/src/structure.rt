ghost use Rattle.lease_coherence.specs.Parts.{CreatesOfRuns, NamesOfRuns, OpensOfRuns};

/// What every run has of each client that never strayed, with no premise. All that it names was
/// introduced before: each FileId in its requests and its entries was opened for it on that file,
/// each write in them was given to it with that patch, each create and each acknowledgment stands
/// under the file's lease key, each of its opens has that key, and a write that is reported to it
/// as done was accepted. While its link is up, at most one create of a file is under way, exactly
/// where the file's entry asked for one; and the open of each live entry, and of each grant that is
/// on its way to it, is there, connected and on that file, unless the break timer of the file's key
/// ran out, with no Close of it on its way. Does nothing.
pub fn runs_have_structure()
    ensures names { NamesOfRuns }
    ensures creates { CreatesOfRuns }
    ensures opens { OpensOfRuns }
{}
