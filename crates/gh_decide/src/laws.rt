//! Why valid conditions make good programs, and what verdicts and logs tell.

ghost use Rattle.gh_decide.specs.Verdicts.{VerdictsAreExact};
ghost use Rattle.gh_decide.specs.Logs.{ValidLogsShowValidity, ValidSectionsHaveNoModel};
ghost use Rattle.gh_decide.specs.Laws.{SafeMeansPathsPass, TestsLead, Composition, ValidPass, ListedIsGood};
ghost use Rattle.gh_decide.specs.Laws.{TypedKeepRules, TypedIsGood, ExamplesHold};

/// A state is safe exactly where each path's check is passed.
pub fn safe_means_paths_pass()
    ensures { SafeMeansPathsPass }
{}

/// In a safe state a test has an outcome, and the way that it leads is safe.
pub fn tests_lead()
    ensures { TestsLead }
{}

/// In a program that keeps the rules, where each check of each path is passed, every run of every procedure is good.
pub fn composition()
    ensures { Composition }
{}

/// Where conditions have no counterexample, their checks are passed.
pub fn valid_pass()
    ensures { ValidPass }
{}

/// A program that keeps the rules is good where each of its conditions is valid.
pub fn listed_is_good()
    ensures { ListedIsGood }
{}

/// The type rules give what the composition needs.
pub fn typed_keep_rules()
    ensures { TypedKeepRules }
{}

/// A program that breaks no type rule is good where each of its conditions is valid.
pub fn typed_is_good()
    ensures { TypedIsGood }
{}

/// Of three small programs one is good, and those that leak or free twice are not.
pub fn examples_hold()
    ensures { ExamplesHold }
{}

/// A condition is answered valid exactly where it has no counterexample, and refuted exactly where
/// that isn't so.
pub fn verdicts_are_exact()
    ensures { VerdictsAreExact }
{}

/// Where a log is valid for a program, all conditions are valid.
pub fn valid_logs_show_validity()
    ensures { ValidLogsShowValidity }
{}

/// Where a section is valid for a condition's clauses, these have no model.
pub fn valid_sections_have_no_model()
    ensures { ValidSectionsHaveNoModel }
{}
