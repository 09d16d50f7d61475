ghost use Rattle.lease_manager.specs.Laws.{FirstIsOfHosts, WritesAreBare};

/// What `law_of_hosts` of `manager_model` says of runs is true of managers by `Manager`: a new one is the first manager of those
/// runs, with files of every number, and a write is asked as those are without their bytes. Does nothing.
pub fn managers_are_those_of_hosts()
    ensures first { FirstIsOfHosts }
    ensures writes { WritesAreBare }
{}
