//! Laws of the definitions.

ghost use Rattle.gh_inst.specs.Laws.{AreAllInstances, AreDistinct, AreCounted};

/// The names in the list of all instances are those of which row, arity, version and terms are there, with term 0 past
/// the arity.
pub fn all_are_listed()
    ensures { AreAllInstances }
{}

/// Each name is in the list of all instances once.
pub fn each_is_listed_once()
    ensures { AreDistinct }
{}

/// How many instances there are.
pub fn instances_are_counted()
    ensures { AreCounted }
{}
