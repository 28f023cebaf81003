//! Laws of drawings. Together with what `draw` and `read_drawing` say, they make a drawing that is
//! written read back as itself.

ghost use Rattle.gh_draw.specs.Laws.{DrawingsAreOne, DrawingsAreFiles, DrawingsReadBack, DrawingsAreTold};
ghost use Rattle.gh_draw.specs.Laws.{ReportsAreFiles, RefutationsAreTold, DescriptionsAreLines, RefutationsAreFiles};
ghost use Rattle.gh_draw.specs.Laws.{DrawableHaveValues};

/// A file has at most one drawing of a condition of a program.
pub fn drawings_are_one()
    ensures { DrawingsAreOne }
{}

/// The text of a drawing is a file that has it.
pub fn drawings_are_files()
    ensures { DrawingsAreFiles }
{}

/// What `read_drawing` answers on the text that `draw` writes for a drawing over the variables of its
/// condition is that drawing, whether it is a counterexample or not.
pub fn drawings_read_back()
    ensures { DrawingsReadBack }
{}

/// The text of a drawing is that of its states over the variables of its condition.
pub fn drawings_are_told()
    ensures { DrawingsAreTold }
{}

/// A report that ends in a drawing, after other lines, is a file that has it.
pub fn reports_are_files()
    ensures { ReportsAreFiles }
{}

/// The drawing of states that refute a condition is that of the plain states that they stand for,
/// which refute it too.
pub fn refutations_are_told()
    ensures { RefutationsAreTold }
{}

/// A description is one line, and not the line that begins a drawing.
pub fn descriptions_are_lines()
    ensures { DescriptionsAreLines }
{}

/// The report on a refuted condition is a drawing file.
pub fn refutations_are_files()
    ensures { RefutationsAreFiles }
{}

/// Where each name stands once and null has no cell, a kept state has values within 32 bits exactly where the state
/// that it stands for is drawable.
pub fn drawable_have_values()
    ensures { DrawableHaveValues }
{}
