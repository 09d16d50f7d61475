ghost use Rattle.waiting_changes.specs.Laws.{ChangesAreAnswered, TriesAreFair};
ghost use Rattle.waiting_changes.specs.Runs.{RunsAreOfManagers};

/// Laws of changes that wait. To a manager a try is nothing but calls of `give_up`; those go on that nothing is in the way of, and
/// each of the others waits on. A change that is asked for goes on where nothing is in its way, and else waits. So a run of calls
/// among which changes are asked for is a run of the manager, with its own calls in their order, and what holds of its runs holds
/// of it; and each change that was asked for goes on, waits, or was withdrawn or left, and does so once. Does nothing.
pub fn change_laws()
    ensures tries { TriesAreFair }
    ensures answers { ChangesAreAnswered }
    ensures runs { RunsAreOfManagers }
{}
