ghost use Rattle.client_versions.specs.Laws.{AsksTheSame, AsksTogether, AsksWithNewest, ConnectsUnderItsGuid};
ghost use Rattle.client_versions.specs.Laws.{DroppedChangesNothing, EpochStaysOrRises, InOrderAllIsGiven, NewestIsKnown};
ghost use Rattle.client_versions.specs.Laws.{NewestEpochIsKnown, OrderDoesNotMatter};
ghost use Rattle.client_versions.specs.World.{RecordsAreThoseOfVersion1};

/// Laws of what is known and given, over any messages: of messages that come in order the machine is given all as they were
/// sent; of those in any order the newest one's epoch and state are known in the end, so that their order doesn't matter, and
/// where those of the newest epoch differ in their states, that epoch; the known epoch never goes back, and a create asks with
/// one that isn't older than any that was known; a notice that is dropped changes nothing; version 2 changes nothing of what a
/// machine asks for, and its durable contexts go together; and a reconnect has the CreateGuid of its open's create. Does
/// nothing.
pub fn client_version_laws()
    ensures in_order { InOrderAllIsGiven }
    ensures newest { NewestIsKnown }
    ensures any_order { OrderDoesNotMatter }
    ensures newest_epoch { NewestEpochIsKnown }
    ensures rises { EpochStaysOrRises }
    ensures asks { AsksWithNewest }
    ensures dropped { DroppedChangesNothing }
    ensures the_same { AsksTheSame }
    ensures together { AsksTogether }
    ensures guid { ConnectsUnderItsGuid }
{}

/// A law of whole runs: for every list of events the world in which each client has one connection, and all creates, their
/// answers and the notices of breaks are of version 2, has the record of the world of version 1, whatever version 2 adds to the
/// messages, as long as the server refuses nothing for that. Does nothing.
pub fn law_of_worlds()
    ensures { RecordsAreThoseOfVersion1 }
{}
