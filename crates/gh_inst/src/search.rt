//! The first tuple at which a row is false.

ghost use Rattle.std.specs.Prelude.{◌≡◌, ◌<◌, ◌≤◌, ◌↔◌, IsTrue, All, take, []};
ghost use Rattle.gh_inst.specs.Schemas.{places_of, AreTermsBelow};
ghost use Rattle.gh_inst.specs.Words.{IsOpenIn, IsWorded};
ghost use Rattle.gh_inst.specs.Search.{IsAmong, IsTupleBegun, IsFirstTuple, IsFalseOver, IsRowFalseOver};
ghost use Rattle.gh_inst.specs.Search.{IsAlwaysTrue, IsRowAlwaysTrue, IsTrueOver};

use crate::schema::{Pattern, Shape};
use crate::words::{Worded, open_terms, words_of};
use gh_base::atom::Term;
use gh_base::structure::Structure;

impl Pattern {
    // How many places it uses.
    fn place_count(self) -> usize
        ensures { result ≡ places_of self.shape }
    {
        match self.shape {
            Shape::Alloc => 1,
            Shape::Equal | Shape::Hop => 2,
            Shape::Btwn => 3,
        }
    }

    // Whether its variables are among the first ones.
    fn is_among(self, first: usize) -> bool
        ensures { IsTrue result ↔ IsAmong first self }
    {
        self.places[..self.place_count()]
            .iter()
            .all(|place| (*place as usize) < first)
    }

    // Whether it is true at some terms.
    fn is_true(self, structure: &Structure, version: u8, tuple: &[Term; 4]) -> bool
        requires version { version < structure.now.sizes.versions }
        requires variables { IsAmong 4 self }
        requires terms { AreTermsBelow structure.now.sizes.terms self tuple.now }
        ensures { IsTrue result ↔ IsTrueOver structure.now version tuple.now self }
    {
        let lit = self.lit(version, tuple);
        structure.holds(lit.atom) == lit.positive
    }

    // Whether its variables are among the first ones, and it is true whatever the others are.
    pub(crate) fn is_always_true(
        self,
        structure: &Structure,
        version: u8,
        tuple: &[Term; 4],
        first: usize,
    ) -> bool
        requires { IsTupleBegun structure.now version tuple.now first }
        ensures always { IsTrue result → IsAlwaysTrue structure.now version (take first tuple.now) self }
        ensures open { ¬ IsTrue result → IsFalseOver structure.now version first tuple.now self }
    {
        if self.is_among(first) {
            return self.is_true(structure, version, tuple);
        }
        false
    }
}

// Whether a literal over the first variables is true, so that the row is, whatever the others are.
fn is_row_always_true(
    lits: &[Pattern],
    structure: &Structure,
    version: u8,
    tuple: &[Term; 4],
    first: usize,
) -> bool
    requires { IsTupleBegun structure.now version tuple.now first }
    ensures always { IsTrue result → IsRowAlwaysTrue structure.now version lits.now (take first tuple.now) }
    ensures open { ¬ IsTrue result → IsRowFalseOver structure.now version first tuple.now lits.now }
{
    for pattern in lits {
        if pattern.is_always_true(structure, version, tuple, first) {
            return true;
        }
    }
    false
}

/// The first tuple at which a row is false, among those that begin with the first terms of a tuple.
pub(crate) fn first_from(
    lits: &[Pattern],
    variables: usize,
    structure: &Structure,
    version: u8,
    start: [Term; 4],
    first: usize,
) -> Option<[Term; 4]>
    requires version { version < structure.now.sizes.versions }
    requires variables { variables ≤ 4 }
    requires first { first ≤ variables }
    requires lits { All (IsAmong variables) lits.now }
    requires terms { All (λ t. t.0 < structure.now.sizes.terms) (take first start) }
    ensures { IsFirstTuple structure.now version lits.now variables first start result }
{
    if is_row_always_true(lits, structure, version, &start, first) {
        return None;
    }
    if first == variables {
        return Some(start);
    }
    let mut tuple = start;
    for term in 0..structure.terms() {
        tuple[first] = Term(term);
        let found = first_from(lits, variables, structure, version, tuple, first + 1);
        if found.is_some() {
            return found;
        }
    }
    None
}

// The first tuple at which a row is false, among those that begin with the first terms of a tuple, of which the open
// next terms are known.
fn first_open(
    lits: &[Pattern],
    variables: usize,
    worded: &Worded,
    start: [Term; 4],
    first: usize,
    left: u32,
) -> Option<[Term; 4]>
    requires worded { IsWorded worded.now }
    requires variables { variables ≤ 4 }
    requires first { first < variables }
    requires lits { All (IsAmong variables) lits.now }
    requires terms { All (λ t. t.0 < worded.now.structure.now.sizes.terms) (take first start) }
    requires left { IsOpenIn worded.now.structure.now worded.now.version lits.now start first left }
    ensures { IsFirstTuple worded.now.structure.now worded.now.version lits.now variables first start result }
{
    let mut tuple = start;
    for term in 0..worded.structure.terms() {
        if left >> term & 1 == 0 {
            continue;
        }
        tuple[first] = Term(term);
        let next = open_terms(lits, worded, &tuple, first + 1);
        if next == 0 {
            continue;
        }
        if first + 1 == variables {
            return Some(tuple);
        }
        let found = first_open(lits, variables, worded, tuple, first + 1, next);
        if found.is_some() {
            return found;
        }
    }
    None
}

/// The first tuple at which a row is false, among those that begin with the first terms of a tuple, by the words.
pub(crate) fn first_by_words(
    lits: &[Pattern],
    variables: usize,
    worded: &Worded,
    start: [Term; 4],
    first: usize,
) -> Option<[Term; 4]>
    requires worded { IsWorded worded.now }
    requires variables { variables ≤ 4 }
    requires first { first ≤ variables }
    requires lits { All (IsAmong variables) lits.now }
    requires terms { All (λ t. t.0 < worded.now.structure.now.sizes.terms) (take first start) }
    ensures { IsFirstTuple worded.now.structure.now worded.now.version lits.now variables first start result }
{
    let left = open_terms(lits, worded, &start, first);
    if left == 0 {
        return None;
    }
    if first == variables {
        return Some(start);
    }
    first_open(lits, variables, worded, start, first, left)
}

/// The first tuple at which a row is false.
pub(crate) fn first_tuple(
    lits: &[Pattern],
    variables: usize,
    structure: &Structure,
    version: u8,
) -> Option<[Term; 4]>
    requires version { version < structure.now.sizes.versions }
    requires variables { variables ≤ 4 }
    requires lits { All (IsAmong variables) lits.now }
    ensures { IsFirstTuple structure.now version lits.now variables 0 [] result }
{
    let start = [Term(0); 4];
    if variables >= 3 && structure.terms() >= 1 && structure.terms() <= 32 {
        let words = words_of(structure, version);
        let worded = Worded {
            structure,
            version,
            words: &words,
        };
        return first_by_words(lits, variables, &worded, start, 0);
    }
    first_from(lits, variables, structure, version, start, 0)
}
