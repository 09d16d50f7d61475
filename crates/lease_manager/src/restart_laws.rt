ghost use Rattle.lease_manager.specs.Restarting.{AllIsKept, KeptMayBeRestored, RestoredIsKept};

/// Of any manager what `kept_opens` gives may be restored by `restored` under the manager's own rules, its files and its
/// `last_file_id`: what a host keeps is never `Unlawful`. Does nothing.
pub fn what_is_kept_may_be_restored()
    ensures { KeptMayBeRestored }
{}

/// A manager that was restored keeps the same again, as long as nothing is asked of it: `kept_opens` then gives the opens that
/// it was made of, in their order, with what their leases hold. Does nothing.
pub fn what_is_restored_is_kept()
    ensures { RestoredIsKept }
{}

/// Of a manager to which no client is connected `kept_opens` gives each open: so a host that cuts its clients before it stops
/// has the same opens again. Does nothing.
pub fn all_is_kept_once_clients_are_gone()
    ensures { AllIsKept }
{}
