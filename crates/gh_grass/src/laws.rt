//! Laws of ground formulas and their clauses.

ghost use Rattle.gh_grass.specs.Truth.{LiteralsAreFormulas, ClausesMeanFormulas, DefinitionsExist, FormulasGiveClauses};

/// Where the defining clauses of a formula are true, its literal is true exactly where the formula is.
pub fn literals_are_formulas()
    ensures { LiteralsAreFormulas }
{}

/// Where the clauses of some formulas are true, the formulas are.
pub fn clauses_mean_formulas()
    ensures { ClausesMeanFormulas }
{}

/// Definitions can be given values that make their clauses true, whatever the other atoms are.
pub fn definitions_exist()
    ensures { DefinitionsExist }
{}

/// Where some formulas are true, there are values of the definitions that make all their clauses true.
pub fn formulas_give_clauses()
    ensures { FormulasGiveClauses }
{}
