ghost use Rattle.lease_model.specs.worked.Verdicts.{OneFlaw, StrayedVerdicts, StrangeOrder, LimitVerdicts, LargeWrites};
ghost use Rattle.lease_model.specs.worked.Verdicts.{BeliefsAndReads, UnfitFacts, SettledAsDone, SettledForAnother};
ghost use Rattle.lease_model.specs.worked.Verdicts.{NothingWrong};

/// Verdicts on short records: one flaw each, strayed clients, facts in an order that no run gives,
/// and writes at the limit.
pub fn verdicts()
    ensures one_flaw { OneFlaw }
    ensures strayed { StrayedVerdicts }
    ensures strange { StrangeOrder }
    ensures limit { LimitVerdicts }
    ensures large_writes { LargeWrites }
{}

/// Verdicts on records that just keep a rule or just break it, and on ones in which a client learns of
/// a write that another one was given.
pub fn verdicts_of_each_rule()
    ensures beliefs_and_reads { BeliefsAndReads }
    ensures unfit { UnfitFacts }
    ensures done { SettledAsDone }
    ensures of_its_own { SettledForAnother }
    ensures nothing_wrong { NothingWrong }
{}
