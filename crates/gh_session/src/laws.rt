//! Laws of essences.

ghost use Rattle.gh_session.specs.Laws.{EssencesDecide, HaveOneEssence, SameCounterexamples};

/// A condition has one essence.
pub fn have_one_essence()
    ensures { HaveOneEssence }
{}

/// States refute a condition exactly where they refute its essence, and it is valid exactly where its essence is.
pub fn essences_decide()
    ensures { EssencesDecide }
{}

/// Two conditions of one essence have the same counterexamples.
pub fn same_counterexamples()
    ensures { SameCounterexamples }
{}
