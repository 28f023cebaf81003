//! Laws of scripts.

ghost use Rattle.gh_smt.specs.Laws.{ScriptsMeanModels, ScriptsDecide, TextsAreOne};

/// The script of some clauses is satisfiable exactly where some interpretation whose equality is a
/// congruence makes the clauses and all instances of the axioms true.
pub fn scripts_mean_models()
    ensures { ScriptsMeanModels }
{}

/// The script of a condition is satisfiable exactly where the condition has a counterexample, and
/// isn't exactly where the condition is valid.
pub fn scripts_decide()
    ensures { ScriptsDecide }
{}

/// A text is that of at most one script.
pub fn texts_are_one()
    ensures { TextsAreOne }
{}
