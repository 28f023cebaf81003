//! Laws of the structure of asserted literals.

ghost use Rattle.gh_cc.specs.Laws.{AreCongruences, AreAssertedTrue, AreAlike, AreLeastEnough};

/// Equality is a congruence in the structure of asserted literals.
pub fn are_congruences()
    ensures { AreCongruences }
{}

/// Where what is asserted is consistent, it is true in its structure.
pub fn are_asserted_true()
    ensures { AreAssertedTrue }
{}

/// All structures of the same literals give each atom one truth.
pub fn are_alike()
    ensures { AreAlike }
{}

/// An atom has the truth of the one over other terms of the same classes, as the least ones.
pub fn are_least_enough()
    ensures { AreLeastEnough }
{}
