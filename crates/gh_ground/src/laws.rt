//! A law of the structure of a trail.

ghost use Rattle.gh_ground.specs.Laws.{AreClausesTrue};

/// The clauses of a search are true there, once each has a true literal.
pub fn are_clauses_true()
    ensures { AreClausesTrue }
{}
