ghost use Rattle.lease_laws.specs.world.Contents.{ContentsAreTold, RepliesAreOfTheirPlaces};
ghost use Rattle.lease_laws.specs.world.FileIds.{FileIdsAreCounted, OpensAreTold};
ghost use Rattle.lease_laws.specs.world.Links.{LinksOfRuns};
ghost use Rattle.lease_laws.specs.world.Timers.{TimersAreTold};
ghost use Rattle.lease_laws.specs.world.Runs.{ServersOfRunsAreSound, ContentsOfRunsFit, BeliefsOfRuns};

/// What holds in every run. Its server meets the laws of servers and of waiting. Where the setup is
/// allowed, no content is longer than a file may be. What the record says that a client believes is
/// what it believes. The server has a client's connection where its link is up, only then is
/// something on its way, and the record shows how many messages are. FileIds are given one after
/// the other, and each open is the one that the record has in the place of its FileId. A client
/// whose timer ran out since it connected isn't called served. Where the setup is allowed, the
/// record has the contents of the server, and a reply on its way that carries a file's bytes has
/// those that the file had where the reply was sent. Does nothing.
pub fn runs_are_lawful()
    ensures servers { ServersOfRunsAreSound }
    ensures contents { ContentsOfRunsFit }
    ensures beliefs { BeliefsOfRuns }
    ensures links { LinksOfRuns }
    ensures file_ids { FileIdsAreCounted }
    ensures opens { OpensAreTold }
    ensures timers { TimersAreTold }
    ensures record { ContentsAreTold }
    ensures replies { RepliesAreOfTheirPlaces }
{}
