//! Laws of the checker's answers.

ghost use Rattle.gh_check.specs.Answers.{AreApart, AreOne};

/// A valid section has no first fault.
pub fn valid_sections_have_no_fault()
    ensures { AreApart }
{}

/// A section has one first fault at most: its number and its line are determined.
pub fn first_faults_are_one()
    ensures { AreOne }
{}
