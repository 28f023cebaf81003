//! What the clauses of "fewer than so many cells" say.

ghost use Rattle.gh_small.specs.Examples.{TwoAreSpelled};
ghost use Rattle.gh_small.specs.Smallest.{FoundIsExact};
ghost use Rattle.gh_small.specs.Cells.{CellsAreCounted, ClassesAreCells};
ghost use Rattle.gh_small.specs.Laws.{FewerIsSound, FewerIsPossible, FewerIsCounted, ClassesAreCounted, ClassesAreFew};
ghost use Rattle.gh_small.specs.Laws.{BoundedIsSound, BoundedIsPossible, SmallTracesAreModels, SectionsShowLeast};

/// Where the clauses are true, fewer than k classes are allocated.
pub fn fewer_is_sound()
    ensures { FewerIsSound }
{}

/// Where fewer than k classes are allocated, the new definitions have truths that make the clauses true.
pub fn fewer_is_possible()
    ensures { FewerIsPossible }
{}

/// How many clauses say that fewer than k classes are allocated.
pub fn fewer_is_counted()
    ensures { FewerIsCounted }
{}

/// The leaders are as many as the allocated classes.
pub fn classes_are_counted()
    ensures { ClassesAreCounted }
{}

/// Where terms of one value are of one class, allocated terms have no more classes than values.
pub fn classes_are_few()
    ensures { ClassesAreFew }
{}

/// A model of the bounded clauses is one of the clauses, with fewer than k allocated classes.
pub fn bounded_is_sound()
    ensures { BoundedIsSound }
{}

/// A model with fewer than k allocated classes becomes one of the bounded clauses.
pub fn bounded_is_possible()
    ensures { BoundedIsPossible }
{}

/// The clauses for two terms.
pub fn two_are_spelled()
    ensures { TwoAreSpelled }
{}

/// A heap with a cell at each number that passes a test has as many cells.
pub fn cells_are_counted()
    ensures { CellsAreCounted }
{}

/// There are no more allocated classes than cells, where terms have values and each allocated one's has a cell.
pub fn classes_are_cells()
    ensures { ClassesAreCells }
{}

/// A counterexample with fewer than k cells in its first heap gives a model of the bounded clauses.
pub fn small_traces_are_models()
    ensures { SmallTracesAreModels }
{}

/// Where a section is valid for the bounded clauses, no counterexample has fewer than k cells in its first heap.
pub fn sections_show_least()
    ensures { SectionsShowLeast }
{}

/// Nothing is found exactly where the condition is valid.
pub fn found_is_exact()
    ensures { FoundIsExact }
{}
