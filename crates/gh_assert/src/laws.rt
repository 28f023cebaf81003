//! Laws of splitting, assertions, walks and ownership.

ghost use Rattle.gh_assert.specs.Laws.{SplitsCompose, MetAreProper, HaveOneFootprint, PartsAreDecided, NamesDecide};
ghost use Rattle.gh_assert.specs.Laws.{PartsSplitOff, WalksCompose, UnallocatedStay, WalksAreSimple, SegmentsExist};
ghost use Rattle.gh_assert.specs.Laws.{SegmentsAreWalks, RowsHold, WalksAreShort, TestsDecide, OnePointsThere};
ghost use Rattle.gh_assert.specs.Laws.{LastNamedExists, ReadingLaw, HopsExist, HopRowsHold, FootprintsAreOwned};
ghost use Rattle.gh_assert.specs.Laws.{FootprintsComeAndGo, CellsComeAndGo, UnionsAreOwned, HopsAreKept};

/// How heaps split.
pub fn splits_compose()
    ensures { SplitsCompose }
{}

/// What meets an assertion has no cell at null.
pub fn met_are_proper()
    ensures { MetAreProper }
{}

/// In one store and one heap at most one sub-heap meets an assertion.
pub fn one_footprint()
    ensures { HaveOneFootprint }
{}

/// Whether some part of a heap, or the whole, meets an assertion is decided.
pub fn parts_are_decided()
    ensures { PartsAreDecided }
{}

/// Stores that agree on the names of an assertion are one to it.
pub fn names_decide()
    ensures { NamesDecide }
{}

/// A part of a heap is what is split off.
pub fn parts_split_off()
    ensures { PartsSplitOff }
{}

/// m and then n steps of a walk are m + n steps.
pub fn walks_compose()
    ensures { WalksCompose }
{}

/// What is not allocated reaches itself alone.
pub fn unallocated_stay()
    ensures { UnallocatedStay }
{}

/// Before its end a walk goes over allocated, distinct places.
pub fn walks_are_simple()
    ensures { WalksAreSimple }
{}

/// Some part of a heap is a segment from x to y exactly where x reaches y.
pub fn segments_exist()
    ensures { SegmentsExist }
{}

/// The places of a segment are those of the walk before its end.
pub fn segments_are_walks()
    ensures { SegmentsAreWalks }
{}

/// The ten rows on betweenness.
pub fn rows_hold()
    ensures { RowsHold }
{}

/// What is reached is reached in as many steps as there are cells.
pub fn walks_are_short()
    ensures { WalksAreShort }
{}

/// Reaching and betweenness have tests.
pub fn tests_decide()
    ensures { TestsDecide }
{}

/// Exactly one cell points to what is owned and has no name.
pub fn one_points_there()
    ensures { OnePointsThere }
{}

/// What is owned and has no name hangs below a last named cell.
pub fn last_named_exists()
    ensures { LastNamedExists }
{}

/// What an assertion says can be read off the named values.
pub fn reading()
    ensures { ReadingLaw }
{}

/// From a named cell the walk meets a named value again.
pub fn hops_exist()
    ensures { HopsExist }
{}

/// The four rows on hops.
pub fn hop_rows_hold()
    ensures { HopRowsHold }
{}

/// What meets an assertion whose operands have names is owned.
pub fn footprints_are_owned()
    ensures { FootprintsAreOwned }
{}

/// Ownership stays when a footprint comes or goes.
pub fn footprints_come_and_go()
    ensures { FootprintsComeAndGo }
{}

/// Ownership stays when a named cell with a named content comes or goes.
pub fn cells_come_and_go()
    ensures { CellsComeAndGo }
{}

/// Disjoint owned heaps have an owned union.
pub fn unions_are_owned()
    ensures { UnionsAreOwned }
{}

/// A part that is owned has the hops of the whole.
pub fn hops_are_kept()
    ensures { HopsAreKept }
{}
