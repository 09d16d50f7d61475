ghost use Rattle.lease_versions.specs.Laws.{EpochCountsRises, EpochRisesThere, FirstVersionCarriesZero};
ghost use Rattle.lease_versions.specs.Laws.{AnswerCarriesTheLease, LifeBeginsAbove, NoticeCarriesTheEpoch};
ghost use Rattle.lease_versions.specs.Laws.{NoticesDiffer, OpensStay, ReconnectsNeedTheGuid, VersionAndParentStay};

/// Laws of what is carried, over any decisions: the epoch of a lease rises exactly with a break of it and with an answer to a
/// create whose state isn't the one that its client knows; notices of one life of a lease differ in their epochs; a lease keeps
/// its version and its parent; version 1 has no epoch; a new lease has the epoch after the one that was asked; a message carries
/// what the lease has after it; an open keeps its client, its key and its CreateGuid while it is there, so that a `DH2C` isn't
/// refused under that guid, and is under any other. Does nothing.
pub fn version_laws()
    ensures rises { EpochRisesThere }
    ensures counts { EpochCountsRises }
    ensures differ { NoticesDiffer }
    ensures stay { VersionAndParentStay }
    ensures first_version { FirstVersionCarriesZero }
    ensures begins { LifeBeginsAbove }
    ensures answer { AnswerCarriesTheLease }
    ensures notice { NoticeCarriesTheEpoch }
    ensures opens { OpensStay }
    ensures guids { ReconnectsNeedTheGuid }
{}
