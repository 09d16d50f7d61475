ghost use Rattle.lease_manager.specs.Calls.{ManagersAreServers};

/// A call of a manager is a call of its server: the manager has the server that the call of the rules makes, what waits in it is
/// what waits on that, and what it decides is what the server gives out, in this order, whatever tags requests come under.
/// (Where a request begins to wait or is taken back, and where an open ends or waits for its client, a server gives nothing out.)
/// Does nothing.
pub fn managers_are_servers()
    ensures { ManagersAreServers }
{}
