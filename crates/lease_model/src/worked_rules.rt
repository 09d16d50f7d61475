ghost use Rattle.lease_model.specs.worked.ServerRules.{FlushGoesOn, FlushWaits, OneKeyInOrder, RisesAlone};
ghost use Rattle.lease_model.specs.worked.ServerRules.{RisesBesideAnother, StaysBesideAnother};

/// Servers of the order by key beside the profile's order by client: what waits behind a create without a
/// key, and what stays in order.
pub fn orders_of_servers()
    ensures goes_on { FlushGoesOn }
    ensures waits { FlushWaits }
    ensures in_order { OneKeyInOrder }
{}

/// Servers whose leases rise whole or not at all beside the profile's, whose leases rise as far as is free.
pub fn rises_of_servers()
    ensures stays { StaysBesideAnother }
    ensures rises { RisesBesideAnother }
    ensures alone { RisesAlone }
{}
