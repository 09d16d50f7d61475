ghost use Rattle.lease_model.specs.worked.Setups.{AllowedSetups, NothingThere};

/// Which setups a run accepts, and what is found where a setup has nothing.
pub fn setups()
    ensures allowed { AllowedSetups }
    ensures nothing_there { NothingThere }
{}
