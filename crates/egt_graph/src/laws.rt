//! Laws over the definitions alone. Each is the contract of a function that does nothing.
ghost use Rattle.egt_graph.specs.Due.{DueEntriesAreAsDeep, DueEntriesAreNumbers, DueEntriesAreValues, DueNumbersStay};
ghost use Rattle.egt_graph.specs.Due.{DueEntriesAreAsFar, DueEntriesAreNears, DueEntriesAreRanks, DueValuesStay};
ghost use Rattle.egt_graph.specs.Events.{EventsLeave, EachRoundIsOfItsRank, FinishedRunsAgree};
ghost use Rattle.egt_graph.specs.Laws.{MorePliesDoNoHarm, EachNodeHasOneValue};

/// A mate within n plies is a mate within more.
pub fn more_plies_do_no_harm()
    ensures { MorePliesDoNoHarm }
{}

/// No node both mates and is mated, and each has one value at most.
pub fn each_node_has_one_value()
    ensures { EachNodeHasOneValue }
{}

/// After any list of expansions, posts and closes, with batches repeated, late or lost: the round is the number of
/// answers `Next`, and `posted` tells the blocks that were posted since the last of them.
pub fn any_events_leave_a_round()
    ensures { EventsLeave }
{}

/// Within any such list, the nodes that an expansion lists are those of its block whose rank is the round.
pub fn each_round_is_of_its_rank()
    ensures { EachRoundIsOfItsRank }
{}

/// Two finished runs over one game, in whatever orders, have gone as many rounds; their ranks and those that `solve`
/// gives are equal.
pub fn finished_runs_agree()
    ensures { FinishedRunsAgree }
{}

/// Entries that are due at every node, each by the best of its node's successors, are the ranks, by whatever way they
/// were found; an entry past a limit tells of a rank above it.
pub fn entries_that_are_due_are_the_ranks()
    ensures values { DueEntriesAreValues }
    ensures ranks { DueEntriesAreRanks }
    ensures deep { DueEntriesAreAsDeep }
{}

/// And of the numbers of the nearest mates.
pub fn numbers_that_are_due_are_the_nearest()
    ensures numbers { DueEntriesAreNumbers }
    ensures nears { DueEntriesAreNears }
    ensures far { DueEntriesAreAsFar }
{}

/// What is due at a node stays due while the entries of the nodes that a move leads to stay.
pub fn entries_stay_due()
    ensures values { DueValuesStay }
    ensures numbers { DueNumbersStay }
{}
