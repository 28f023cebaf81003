//! Laws of ground clauses.

ghost use Rattle.gh_reduce.specs.Examples.{SmallestHolds, TwoWaysHold};

/// The clauses of the one condition of the smallest program.
pub fn smallest_holds()
    ensures { SmallestHolds }
{}

/// The clauses of a condition whose check is one of two assertions.
pub fn two_ways_hold()
    ensures { TwoWaysHold }
{}
