//! Laws of terms.

ghost use Rattle.gh_symb.specs.Examples.{ExamplesHold, StatesHold};
ghost use Rattle.gh_symb.specs.Phases.{StepsHaveTwoParts};

/// The versions and terms of the conditions of six programs.
pub fn examples_hold()
    ensures { ExamplesHold }
{}

/// The terms of the variables at the states of two programs, and the steps of one over terms.
pub fn states_hold()
    ensures { StatesHold }
{}

/// A step over terms is what it uses, and then the rest: the terms after it, and what it is over terms.
pub fn steps_have_two_parts()
    ensures { StepsHaveTwoParts }
{}
