// Laws of acceptance, of proofs of existence and of renewal, over the definitions alone.
#![tactic(auto)]

ghost use Rattle.acceptance.specs.Laws.{AcceptanceIsKept, TokenAcceptanceIsKept, EarliestIsTheLeastProved, RenewalKeepsYes, CasesHaveEarliestTimes, EarliestIsSomeProvedTime};
ghost use Rattle.acceptance.specs.Rounds.{RoundsReachTheEarliest};
ghost use Rattle.acceptance.specs.Tokens.{Token};

/// What is accepted stays accepted at earlier times, under times that are no later, and in a pool that has grown.
pub fn acceptance_is_closed_downwards()
    ensures certificate { AcceptanceIsKept }
    ensures token { TokenAcceptanceIsKept }
{}

/// As many rounds as there are stamps reach the earliest times, and a further one changes nothing.
pub fn rounds_reach_the_earliest()
    ensures { RoundsReachTheEarliest Token }
{}

/// The earliest time of an object is proved of it, and no earlier one is.
pub fn earliest_is_the_least_proved()
    ensures { EarliestIsTheLeastProved Token }
{}

/// A last stamp over all of a case keeps its verdict.
pub fn renewal_keeps_yes()
    ensures { RenewalKeepsYes }
{}

/// Each case has its earliest times.
pub fn cases_have_earliest_times()
    ensures { CasesHaveEarliestTimes }
{}

/// What is accepted at an object's earliest time is what is accepted at some time that is proved of it.
pub fn earliest_is_some_proved_time()
    ensures { EarliestIsSomeProvedTime }
{}

ghost use Rattle.acceptance.specs.Last.{HoldingIsClosedDownwards, HoldingEnds};

/// From the latest proof time on, a case that holds at a moment holds at each earlier one.
pub fn holding_is_closed_downwards()
    ensures { HoldingIsClosedDownwards }
{}

/// A case with a stamp doesn't hold for ever.
pub fn holding_ends()
    ensures { HoldingEnds }
{}
