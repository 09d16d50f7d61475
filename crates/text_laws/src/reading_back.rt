ghost use Rattle.text_laws.specs.Remarked.{RemarkedRunsAreJudgedSafe, RemarkedRunsAreReadBack};
ghost use Rattle.text_laws.specs.Runs.{RunsAreReadBack, RunsAreJudgedSafe, ReplaysAreJudgedSafe};

use lease_coherence::coherent;

/// The text of the record of a run is read as the record of that run, and the verdict on what is read is that it is safe. So it
/// is with the line of this verdict after it: then it is what a replay prints. This is said of every allowed setup, of all
/// events, and of the facts of the run, whose numbers are those of their types. Does nothing.
#[tactic(auto, using(crate::proofs::Runs::runs_back, crate::proofs::Runs::runs_safe, crate::proofs::Runs::replays_safe))]
pub fn runs_are_read_back()
    ensures record { RunsAreReadBack }
    ensures safe { RunsAreJudgedSafe }
    ensures replayed { ReplaysAreJudgedSafe }
{
    coherent();
}

/// Comment lines before the facts of a run's record, between them and after them change nothing in what is read, nor in the
/// verdict. This is said of the same runs. Does nothing.
#[tactic(auto, using(crate::proofs::Remarked::remarked_back, crate::proofs::Remarked::remarked_safe))]
pub fn remarks_change_nothing()
    ensures record { RemarkedRunsAreReadBack }
    ensures safe { RemarkedRunsAreJudgedSafe }
{
    coherent();
}
