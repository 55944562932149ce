//! The laws of the rules: each stands in the contract of a function that does nothing else.
ghost use Rattle.rules.specs.Cases.{WorkedCases};
ghost use Rattle.rules.specs.Laws.{WhoIsMet, MemoryDoesNotMatter, RefusedChangesNothing, ClosesAreFair, RunsAreFair};

// The eight cases worked by hand come out of the rules as they should.
pub fn worked_cases_hold()
    ensures { WorkedCases }
{}

// An entry goes through exactly the standing offers that cross it, each once, best rank first and at equal rank the lower number first.
pub fn who_is_met()
    ensures { WhoIsMet }
{}

// The order in which offers lie in memory changes nothing: an entry goes through the same ones in the same order.
pub fn memory_does_not_matter()
    ensures { MemoryDoesNotMatter }
{}

// A call that is refused leaves the state as it was, and posts nothing.
pub fn refused_call_changes_nothing()
    ensures { RefusedChangesNothing }
{}

// A close costs its buyer no more and brings its seller no less than its own quote would.
pub fn closes_are_fair()
    ensures { ClosesAreFair }
{}

// And so it is over every list of calls from a new session, for every close that was ever struck.
pub fn runs_are_fair()
    ensures { RunsAreFair }
{}
