ghost use Rattle.lease_state.specs.Laws.{EqualStatesAreSame, ConflictIsMutual, RepeatedPatchesAgree, RepeatedPatchAgrees};

/// The law of `==` on lease states, for every two: true exactly where both name the same state.
pub fn state_laws()
    ensures { EqualStatesAreSame }
{}

/// The law of conflicts, for every two opens: one conflicts with the other exactly where the
/// other conflicts with it.
pub fn access_laws()
    ensures { ConflictIsMutual }
{}

/// The law of patches, for every content: a list of patches that is put on again, after a first
/// part of it was put on, gives what the list gives once.
pub fn patch_laws()
    ensures list { RepeatedPatchesAgree }
    ensures one { RepeatedPatchAgrees }
{}
