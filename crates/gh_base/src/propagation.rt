//! Laws of unit propagation.

ghost use Rattle.gh_base.specs.Propagation.{IsLeast, IsSound};
ghost use Rattle.gh_base.specs.Hints.{HintsShowByUnits, HintsShowTruth};

/// What unit propagation gives stands in each set of literals that is closed under it.
pub fn units_are_least()
    ensures { IsLeast }
{}

/// A clause that reverse unit propagation over some clauses shows is true wherever these are.
pub fn units_are_sound()
    ensures { IsSound }
{}

/// A clause that hints out of a list of clauses show follows from these by unit propagation, and is true wherever they
/// are.
pub fn hints_are_sound()
    ensures units { HintsShowByUnits }
    ensures truth { HintsShowTruth }
{}
