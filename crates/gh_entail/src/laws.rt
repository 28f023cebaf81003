//! Laws of questions.

ghost use Rattle.gh_entail.specs.Laws.{WitnessesExist, DepictionsExist, DepictionsAreModels, DepictionsLookAlike};
ghost use Rattle.gh_entail.specs.Laws.{ModelsFail, FailuresAreDepicted, FailuresGiveModels, SectionsShowEntailment};
ghost use Rattle.gh_entail.specs.Laws.{ModelsDecide};
ghost use Rattle.gh_entail.specs.Examples.{ExamplesHold};

/// One value is enough to show whether an assertion is met.
pub fn witnesses_exist()
    ensures { WitnessesExist }
{}

/// Some structure depicts a heap, owned or not.
pub fn depictions_exist()
    ensures { DepictionsExist }
{}

/// A structure that depicts a heap keeps the axioms.
pub fn depictions_are_models()
    ensures { DepictionsAreModels }
{}

/// The built heap of a structure that depicts a heap looks like that heap.
pub fn depictions_look_alike()
    ensures { DepictionsLookAlike }
{}

/// A model gives a store and a heap in which the question fails.
pub fn models_fail()
    ensures { ModelsFail }
{}

/// A store and a heap in which the question fails give a model that depicts the heap.
pub fn failures_are_depicted()
    ensures { FailuresAreDepicted }
{}

/// A store and any heap in which the question fails give a model.
pub fn failures_give_models()
    ensures { FailuresGiveModels }
{}

/// A question whose clauses have a valid section is entailed.
pub fn sections_show_entailment()
    ensures { SectionsShowEntailment }
{}

/// A question is entailed exactly where it has no model.
pub fn models_decide()
    ensures { ModelsDecide }
{}

/// The terms of three questions.
pub fn examples_hold()
    ensures { ExamplesHold }
{}
