//! Laws of logs.

ghost use Rattle.gh_log.specs.Sections.{ValidSectionsRefute};
ghost use Rattle.gh_log.specs.Laws.{HaveOneText, LogsAreInside};

/// Where a section is valid for ground clauses, no interpretation whose equality is a congruence makes these clauses
/// and all axiom instances true.
pub fn valid_sections_refute()
    ensures { ValidSectionsRefute }
{}

/// A text is that of at most one log that the grammar can spell: its version is determined, and its lines are.
pub fn texts_are_one()
    ensures { HaveOneText }
{}

/// A text of a log has no first line outside the grammar.
pub fn logs_are_inside()
    ensures { LogsAreInside }
{}
