//! Laws of paths and of the list of conditions.

ghost use Rattle.gh_path.specs.Laws.{PathsAreOrdered, PathsHaveOneList, AllAreListed, NumbersAreThere, ExamplesHold};
ghost use Rattle.gh_path.specs.Laws.{CalleesAreNumbered, AssignsDecides};

/// No path of a graph stands before itself, and the order goes over.
pub fn paths_are_ordered()
    ensures { PathsAreOrdered }
{}

/// One list has the paths of a graph, in order.
pub fn paths_have_one_list()
    ensures { PathsHaveOneList }
{}

/// The list of conditions has all conditions and nothing else.
pub fn all_are_listed()
    ensures { AllAreListed }
{}

/// The numbers in the conditions of a typed program are those of procedures and loops.
pub fn numbers_are_there()
    ensures { NumbersAreThere }
{}

/// The conditions of two small programs.
pub fn examples_hold()
    ensures { ExamplesHold }
{}

/// The number that a call has is that of the procedure which it means.
pub fn callees_are_numbered()
    ensures { CalleesAreNumbered }
{}

/// The walk of terms knows which variables a statement assigns.
pub fn assigns_decides()
    ensures { AssignsDecides }
{}
