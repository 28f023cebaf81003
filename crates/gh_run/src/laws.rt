//! Laws of state files and of reports.

ghost use Rattle.gh_run.specs.Laws.{ReportsRefute, ReportsAreOne, StateFilesAreOne};

/// A run that faults, or ends outside what the procedure gives, shows that the program isn't good.
pub fn reports_refute()
    ensures { ReportsRefute }
{}

/// On a run of at most n steps there is at most one report.
pub fn reports_are_one()
    ensures { ReportsAreOne }
{}

/// A text is a state file of one state, or has one first line that isn't as said.
pub fn state_files_are_one()
    ensures { StateFilesAreOne }
{}
