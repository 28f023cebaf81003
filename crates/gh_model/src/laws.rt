//! Laws of structures and of the heaps that they represent.

ghost use Rattle.gh_model.specs.StepLaws.{WritesAreRepresented, NewsAreRepresented, FreesAreRepresented};
ghost use Rattle.gh_model.specs.StepLaws.{CallsAreRepresented};
ghost use Rattle.gh_model.specs.Abstraction.{TracesSatisfy, TracesGiveModels};
ghost use Rattle.gh_model.specs.Depictions.{TracesAreDepicted};
ghost use Rattle.gh_model.specs.BuiltTraces.{LocalityHolds, VersionsAreBuilt};
ghost use Rattle.gh_model.specs.ReadingLaws.{FormulasAreRead};
ghost use Rattle.gh_model.specs.BoundVariables.{OnlyVariablesHaveTerms};
ghost use Rattle.gh_model.specs.KeptTraces.{BuiltIsCounterexample};
ghost use Rattle.gh_model.specs.StepFormulas.{WritesArePreserved, NewsArePreserved, FreesArePreserved};
ghost use Rattle.gh_model.specs.StepFormulas.{CallsArePreserved};
ghost use Rattle.gh_model.specs.Homomorphisms.{FormulasArePreserved, InstancesHold};
ghost use Rattle.gh_model.specs.Sections.{SectionsShowValidity};
ghost use Rattle.gh_model.specs.TraceLaws.{TracesAreOwned, ValuesExist};
ghost use Rattle.gh_model.specs.Laws.{HopsAgree, ContentsAreHops, ModelsAreBuilt, HeapsAreModels, BuiltIsRead};
ghost use Rattle.gh_model.specs.Laws.{AssertionsAgree, BuiltAgrees, NextIsSuccessor, WritesAreBuilt, NewsAreBuilt};
ghost use Rattle.gh_model.specs.Laws.{FreesAreBuilt, CallsAreBuilt, ClassesAreModels, RepresentationsExist};
ghost use Rattle.gh_model.specs.Laws.{InstancesAreKept, VersionsAreModels};
ghost use Rattle.gh_model.specs.Laws.{RowsAreTheOrder, RowsAreTheLinks, CongruencesAreOfVersions};

/// A value hops to one value at most.
pub fn hops_agree()
    ensures { HopsAgree }
{}

/// The cells of the built heap are the hops.
pub fn contents_are_hops()
    ensures { ContentsAreHops }
{}

/// The structure represents its built heap.
pub fn models_are_built()
    ensures { ModelsAreBuilt }
{}

/// Assertions on the built heap can be read off the named values.
pub fn built_is_read()
    ensures { BuiltIsRead }
{}

/// What represents an owned heap keeps the axioms.
pub fn heaps_are_models()
    ensures { HeapsAreModels }
{}

/// A structure agrees on each assertion with a heap that it represents.
pub fn assertions_agree()
    ensures { AssertionsAgree }
{}

/// A structure agrees on each assertion with its built heap.
pub fn built_agrees()
    ensures { BuiltAgrees }
{}

/// The successor of a value in the built heap is what it hops to where it is allocated, and itself where it isn't.
pub fn next_is_successor()
    ensures { NextIsSuccessor }
{}

/// Where structures are one write apart, so are their built heaps.
pub fn writes_are_built()
    ensures { WritesAreBuilt }
{}

/// The same of a new cell.
pub fn news_are_built()
    ensures { NewsAreBuilt }
{}

/// The same of a freed cell.
pub fn frees_are_built()
    ensures { FreesAreBuilt }
{}

/// The same of a call or a loop.
pub fn calls_are_built()
    ensures { CallsAreBuilt }
{}

/// A structure on terms is a model over their classes.
pub fn classes_are_models()
    ensures { ClassesAreModels }
{}

/// Some structure represents an owned heap.
pub fn representations_exist()
    ensures { RepresentationsExist }
{}

/// Where all instances of the axioms are true, a version in which null is no cell and each cell hops keeps the axioms.
pub fn instances_are_kept()
    ensures { InstancesAreKept }
{}

/// Where equality is a congruence too, such a version is a model over the classes of its terms.
pub fn versions_are_models()
    ensures { VersionsAreModels }
{}

/// The heaps of a counterexample are owned over the values of the terms.
pub fn traces_are_owned()
    ensures { TracesAreOwned }
{}

/// In a counterexample the terms have values.
pub fn values_exist()
    ensures { ValuesExist }
{}

/// A homomorphism keeps the formulas of an assertion.
pub fn formulas_are_preserved()
    ensures { FormulasArePreserved }
{}

/// Structures that represent the heaps before and after a write are one write apart.
pub fn writes_are_represented()
    ensures { WritesAreRepresented }
{}

/// The same of a new cell.
pub fn news_are_represented()
    ensures { NewsAreRepresented }
{}

/// The same of a freed cell.
pub fn frees_are_represented()
    ensures { FreesAreRepresented }
{}

/// The same of a call or a loop.
pub fn calls_are_represented()
    ensures { CallsAreRepresented }
{}

/// Where each version maps onto a model, all instances of the axioms are true.
pub fn instances_hold()
    ensures { InstancesHold }
{}

/// The formulas of a write are true exactly where the structures of the values are one write apart.
pub fn writes_are_preserved()
    ensures { WritesArePreserved }
{}

/// The same of a new cell.
pub fn news_are_preserved()
    ensures { NewsArePreserved }
{}

/// The same of a freed cell.
pub fn frees_are_preserved()
    ensures { FreesArePreserved }
{}

/// The same of a call or a loop.
pub fn calls_are_preserved()
    ensures { CallsArePreserved }
{}

/// A counterexample gives an interpretation in which the axioms and the condition's formulas are true.
pub fn traces_satisfy()
    ensures { TracesSatisfy }
{}

/// A counterexample gives a model of the condition's clauses.
pub fn traces_give_models()
    ensures { TracesGiveModels }
{}

/// In one of these models terms are equal exactly where their values are, and each version depicts its heap.
pub fn traces_are_depicted()
    ensures { TracesAreDepicted }
{}

/// Where a section is valid for a condition's clauses, the condition has no counterexample.
pub fn sections_show_validity()
    ensures { SectionsShowValidity }
{}

/// The reading law: in an interpretation that depicts an owned heap, the formulas of an assertion over terms say
/// exactly where a part of the heap meets it, which terms lie in that part, and where the whole heap meets it.
pub fn formulas_are_read()
    ensures { FormulasAreRead }
{}

/// In each version of a model of a condition the heap that is built has the version's cells, hops and betweenness.
pub fn versions_are_built()
    ensures { VersionsAreBuilt }
{}

/// The trace of an interpretation in which the axioms and the clauses of a condition are true is a counterexample.
pub fn locality_holds()
    ensures { LocalityHolds }
{}

/// At the states of a condition only variables of its procedure have terms.
pub fn only_variables_have_terms()
    ensures { OnlyVariablesHaveTerms }
{}

/// The trace of a model of a condition, drawn over the variables of its procedure, refutes the condition.
pub fn built_is_counterexample()
    ensures { BuiltIsCounterexample }
{}

/// The rows that betweenness keeps in a heap are the ten rows of a structure over all values.
pub fn rows_are_the_order()
    ensures { RowsAreTheOrder }
{}

/// The rows that hops keep in a heap, with what a structure says of its cells, are the links of the structure.
pub fn rows_are_the_links()
    ensures { RowsAreTheLinks }
{}

/// Equality is a congruence of an interpretation exactly where it is one of each version.
pub fn congruences_are_of_versions()
    ensures { CongruencesAreOfVersions }
{}
