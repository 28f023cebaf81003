//! Instances that are false in a structure, some of each row and version.

ghost use Rattle.std.specs.Prelude.{◌≡◌, ◌<◌, ◌≤◌, [], ◌∷◌, All, IfOk, OnOk, length, take};
ghost use Rattle.gh_inst.specs.Words.{AreWordsOf};
ghost use Rattle.gh_inst.specs.Violations.{AreAllTrueIn};
ghost use Rattle.gh_inst.specs.Collecting.{IsLooked, AreAllNamed, AreNamedIn, IsFirstNamed, GathersFrom, GathersRow};
ghost use Rattle.gh_inst.specs.Collecting.{GathersVersion, IsFalseIn, IsFirstOfRow, IsRowNamed, AddsOneAt, AreDistinct};
ghost use Rattle.gh_inst.specs.Collecting.{AreSeconds, PassesTerm, PassesRow, PassesVersion};

use crate::naming::InstanceName;
use crate::schema::Pattern;
use crate::search::{first_by_words, first_from};
use crate::table::row_numbered;
use crate::violation::name_of_terms;
use crate::words::{Worded, open_terms, words_of};
use gh_base::atom::Term;
use gh_base::structure::Structure;
use std::alloc::{AllocError, Global};

// Once so many instances of a row in a version were found, no further first term is looked at.
const MOST: usize = 150;

// A row in a version of a structure, with the words of that version.
#[derive(Drop)]
struct Looked<'a> {
    number: u8,
    variables: u8,
    lits: &'a [Pattern],
    structure: &'a Structure,
    version: u8,
    words: &'a [u32],
}

// The row's first false tuple among those that begin with the first terms of a tuple.
fn first_in(row: &Looked, start: [Term; 4], first: usize) -> Option<[Term; 4]>
    requires looked { IsLooked row.now }
    requires some { 0 < row.now.structure.now.sizes.terms }
    requires first { first ≤ row.now.variables }
    requires terms { All (λ t. t.0 < row.now.structure.now.sizes.terms) (take first start) }
    ensures { IsFirstOfRow row.now first start result }
{
    let variables = row.variables as usize;
    let (structure, version, words) = (row.structure, row.version, row.words);
    if words.is_empty() {
        return first_from(row.lits, variables, structure, version, start, first);
    }
    let worded = Worded {
        structure,
        version,
        words,
    };
    first_by_words(row.lits, variables, &worded, start, first)
}

// Adds the row's first false instance whose tuple begins with the first terms of a tuple.
fn gather_first(
    row: &Looked,
    start: [Term; 4],
    first: usize,
    found: &mut Vec<InstanceName>,
) -> Result<(), AllocError>
    requires looked { IsLooked row.now }
    requires some { 0 < row.now.structure.now.sizes.terms }
    requires first { first ≤ row.now.variables }
    requires long { length (take first start) ≡ first }
    requires terms { All (λ t. t.0 < row.now.structure.now.sizes.terms) (take first start) }
    ensures gathers { OnOk result (GathersFrom row.now (take first start) first found.old.items found.new.items) }
    ensures one { OnOk result (AddsOneAt row.now (take first start) found.old.items found.new.items) }
{
    if let Some(terms) = first_in(row, start, first) {
        found.push(name_of_terms(row.number, row.variables, row.version, terms))?;
    }
    Ok(())
}

// The second terms after which the row may be false, as bits.
fn second_terms(row: &Looked, x: Term) -> u32
    requires looked { IsLooked row.now }
    requires x { x.0 < row.now.structure.now.sizes.terms }
    ensures { AreSeconds row.now x result }
{
    if row.words.is_empty() {
        return u32::MAX;
    }
    let start = [x, Term(0), Term(0), Term(0)];
    let worded = Worded {
        structure: row.structure,
        version: row.version,
        words: row.words,
    };
    open_terms(row.lits, &worded, &start, 1)
}

// Adds false instances whose tuples begin with a term, the first one for each second term.
fn gather_second(row: &Looked, x: Term, found: &mut Vec<InstanceName>) -> Result<(), AllocError>
    requires looked { IsLooked row.now }
    requires x { x.0 < row.now.structure.now.sizes.terms }
    ensures gathers { OnOk result (GathersFrom row.now (x ∷ []) 1 found.old.items found.new.items) }
    ensures up { OnOk result (PassesTerm row.now.version row.now.number x.0 found.old.items found.new.items) }
{
    if row.variables == 1 {
        return gather_first(row, [x, Term(0), Term(0), Term(0)], 1, found);
    }
    let seconds = second_terms(row, x);
    for y in 0..row.structure.terms() {
        if y < 32 && seconds >> y & 1 == 0 {
            continue;
        }
        gather_first(row, [x, Term(y), Term(0), Term(0)], 2, found)?;
    }
    Ok(())
}

// Adds false instances of the row, until the list has so many.
fn gather(row: &Looked, most: usize, found: &mut Vec<InstanceName>) -> Result<(), AllocError>
    requires looked { IsLooked row.now }
    requires room { length found.old.items < most }
    ensures gathers { OnOk result (GathersFrom row.now [] 0 found.old.items found.new.items) }
    ensures up { OnOk result (PassesRow row.now.version row.now.number found.old.items found.new.items) }
{
    for x in 0..row.structure.terms() {
        if found.len() >= most {
            return Ok(());
        }
        gather_second(row, Term(x), found)?;
    }
    Ok(())
}

// Adds some false instances of a row in a version.
fn gather_row(
    number: u8,
    structure: &Structure,
    version: u8,
    words: &[u32],
    found: &mut Vec<InstanceName>,
) -> Result<(), AllocError>
    requires version { version < structure.now.sizes.versions }
    requires words { AreWordsOf structure.now version words.now }
    ensures gathers { OnOk result (GathersRow structure.now version number found.old.items found.new.items) }
    ensures named { OnOk result (IsRowNamed structure.now version number found.new.items) }
    ensures up { OnOk result (PassesRow version number found.old.items found.new.items) }
{
    if let Some(row) = row_numbered(number) {
        let looked = Looked {
            number,
            variables: row.variables(),
            lits: row.lits(),
            structure,
            version,
            words,
        };
        gather(&looked, found.len().saturating_add(MOST), found)?;
    }
    Ok(())
}

// Adds some false instances of each row in a version.
fn gather_version(
    structure: &Structure,
    version: u8,
    found: &mut Vec<InstanceName>,
) -> Result<(), AllocError>
    requires version { version < structure.now.sizes.versions }
    ensures gathers { OnOk result (GathersVersion structure.now version found.old.items found.new.items) }
    ensures named { OnOk result (AreNamedIn structure.now version found.new.items) }
    ensures up { OnOk result (PassesVersion version found.old.items found.new.items) }
{
    if structure.terms() > 32 {
        return gather_rows(structure, version, &[], found);
    }
    let words = words_of(structure, version);
    gather_rows(structure, version, &words, found)
}

// Adds some false instances of each row in a version, of which the words are there.
fn gather_rows(
    structure: &Structure,
    version: u8,
    words: &[u32],
    found: &mut Vec<InstanceName>,
) -> Result<(), AllocError>
    requires version { version < structure.now.sizes.versions }
    requires words { AreWordsOf structure.now version words.now }
    ensures gathers { OnOk result (GathersVersion structure.now version found.old.items found.new.items) }
    ensures named { OnOk result (AreNamedIn structure.now version found.new.items) }
    ensures up { OnOk result (PassesVersion version found.old.items found.new.items) }
{
    for number in 1..16 {
        gather_row(number, structure, version, words, found)?;
    }
    Ok(())
}

/// Names of instances that are false in a structure, each once: of each row and version in which there is one, the
/// first one and some others.
pub fn false_instances(
    alloc: Global,
    structure: &Structure,
) -> Result<Vec<InstanceName>, AllocError>
    ensures each { IfOk result (λ found. All (IsFalseIn structure.now) found.items) }
    ensures named { IfOk result (λ found. AreAllNamed structure.now found.items) }
    ensures first { IfOk result (λ found. IsFirstNamed structure.now found.items) }
    ensures once { IfOk result (λ found. AreDistinct found.items) }
    ensures none { IfOk result (λ found. found.items ≡ [] → AreAllTrueIn structure.now) }
{
    let mut found = Vec::new(alloc);
    for version in 0..structure.versions() {
        gather_version(structure, version, &mut found)?;
    }
    Ok(found)
}
