//! Laws of traces.

ghost use Rattle.gh_trace.specs.Laws.{FailuresAreOne, TracesAreProper, ChecksAreDecided, PartsAreReplaced};
ghost use Rattle.gh_trace.specs.Laws.{EntriesAreOne, CallsAreOne};
ghost use Rattle.gh_trace.specs.Laws.{TestsGiveTheirTruth};

/// Drawn states have at most one first failure, and a counterexample has none.
pub fn failures_are_one()
    ensures { FailuresAreOne }
{}

/// From a heap that meets an assertion no trace leads to a cell at null.
pub fn traces_are_proper()
    ensures { TracesAreProper }
{}

/// A check that does not fail is passed.
pub fn checks_are_decided()
    ensures { ChecksAreDecided }
{}

/// Any split that shows the part of a call or a loop tells what stays.
pub fn parts_are_replaced()
    ensures { PartsAreReplaced }
{}

/// Any store with the arguments' values decides the check of a call.
pub fn entries_are_one()
    ensures { EntriesAreOne }
{}

/// Any store with the values of arguments and targets decides the step of a call.
pub fn calls_are_one()
    ensures { CallsAreOne }
{}

/// A test without reads means the same in an assertion and in a statement.
pub fn tests_give_their_truth()
    ensures { TestsGiveTheirTruth }
{}
