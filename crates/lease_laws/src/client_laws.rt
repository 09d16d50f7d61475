ghost use Rattle.lease_laws.specs.client.Laws.{FirstClientIsSound, ClientsStaySound, NotesTellNumbers, NotesTellBeliefs};
ghost use Rattle.lease_laws.specs.client.Laws.{RefusedCommandsDoNothing};

/// The laws of every client machine: a base only under R, unsent writes only under W, what an entry
/// has in each phase, and each write's own number. They hold of a new client, and every call keeps
/// them. What a call notes of writes agrees with their numbers, and what it notes of beliefs is what the
/// client believes after it. A refused command changes, sends and notes nothing.
pub fn clients_are_sound()
    ensures first { FirstClientIsSound }
    ensures kept { ClientsStaySound }
    ensures numbers { NotesTellNumbers }
    ensures beliefs { NotesTellBeliefs }
    ensures refused { RefusedCommandsDoNothing }
{}
