//! What a search finds.

use crate::known::Known;
use crate::lemmas::try_lemmas;
use crate::load::note_keys;
use crate::search::{End, Searcher};
use crate::section::section_of;
use crate::spans::{Spanned, try_spans};
use gh_base::atom::Lit;
use gh_base::ground::Ground;
use gh_log::lines::Section;
use std::alloc::{AllocError, Global};

/// What a search finds. Nothing is promised of it.
#[derive(Debug, Drop)]
pub enum Found {
    /// A section that is to refute the clauses.
    Refutation(Section),
    /// Literals that a structure is to make true.
    Truths(Vec<Lit>),
    /// Nothing: there are more terms or atoms than it has tables for.
    Nothing,
}

// So many conflicts for each term come before lemmas are looked for: most searches need fewer, and over many terms
// there are many lemmas.
const FOR_TERM: u64 = 40;

// So many come where something is known that may serve, and so many after it is told.
const BEFORE_TOLD: u64 = 3;

const AFTER_TOLD: u64 = 10;

// No more terms have bits in a word, and for no more atoms tables are made.
const MOST_TERMS: u8 = 32;

const MOST_ATOMS: usize = 8000000;

// So many conflicts for each term of a search.
fn for_each_term(searcher: &Searcher, conflicts: u64) -> u64 {
    conflicts.saturating_mul(searcher.state.shape.terms as u64)
}

// Searches for a while over all clauses. Answers nothing where it takes longer.
fn begin(
    searcher: &mut Searcher,
    ground: &Ground,
    known: &mut Known,
) -> Result<Option<Found>, AllocError> {
    if let Some(number) = searcher.false_clause() {
        return refuted(searcher, number, known);
    }
    let conflicts = if known.serves(ground) {
        BEFORE_TOLD
    } else {
        FOR_TERM
    };
    let most = for_each_term(searcher, conflicts);
    let end = searcher.run(&[], most)?;
    outcome(searcher, &end, known)
}

// Searches for a while over all clauses and what is known. Answers nothing where it takes longer.
fn recall(
    searcher: &mut Searcher,
    ground: &Ground,
    known: &mut Known,
) -> Result<Option<Found>, AllocError> {
    note_keys(searcher.state.alloc, &mut searcher.state.shape, ground)?;
    if let Some(conflict) = known.lend(searcher)? {
        return refutation(searcher, conflict);
    }
    let most = for_each_term(searcher, AFTER_TOLD);
    match searcher.run(&[], most)? {
        End::Refuted(conflict) => refutation(searcher, conflict),
        End::Found(_made) => truths(searcher),
        End::Shown => Ok(None),
        End::TooLong => Ok(None),
    }
}

// Searches for lemmas first, over all clauses but the last one: of a condition that one says that its check fails, and
// without it what is found serves for later checks of the path, too. Then searches over all clauses.
fn search(searcher: &mut Searcher, ground: &Ground, known: &mut Known) -> Result<End, AllocError> {
    note_keys(searcher.state.alloc, &mut searcher.state.shape, ground)?;
    if let Some(conflict) = known.hand_over(searcher)? {
        return Ok(End::Refuted(conflict));
    }
    if let Some(conflict) = searcher.propagate()? {
        return Ok(End::Refuted(conflict));
    }
    match try_spans(searcher)? {
        Spanned::Refuted(conflict) => return Ok(End::Refuted(conflict)),
        Spanned::Shown => {}
        Spanned::Open => {
            if let Some(conflict) = try_lemmas(searcher)? {
                return Ok(End::Refuted(conflict));
            }
        }
    }
    searcher.set_window(0, u8::MAX)?;
    let last = searcher.add_ground(ground, ground.count().saturating_sub(1))?;
    if last.is_false {
        return Ok(End::Refuted(last.number));
    }
    searcher.run(&[], u64::MAX)
}

// The literals of a trail, as truths.
fn truths(searcher: &Searcher) -> Result<Option<Found>, AllocError> {
    let mut lits = Vec::new(searcher.state.alloc);
    for code in searcher.state.trail.steps.as_slice() {
        lits.push(searcher.state.shape.lit(*code))?;
    }
    Ok(Some(Found::Truths(lits)))
}

// The refutation by a clause that is false at level 0.
fn refutation(searcher: &mut Searcher, conflict: u32) -> Result<Option<Found>, AllocError> {
    let section = section_of(searcher, conflict)?;
    Ok(Some(Found::Refutation(section)))
}

// The truths of a search that ended with a structure. Lemmas that it has are known from now on.
fn satisfied(searcher: &mut Searcher, known: &mut Known) -> Result<Option<Found>, AllocError> {
    let truths = truths(searcher)?;
    known.keep(searcher).and(Ok(truths))
}

// The refutation by a clause that is false at level 0. Lemmas that the search has are known from now on.
fn refuted(
    searcher: &mut Searcher,
    conflict: u32,
    known: &mut Known,
) -> Result<Option<Found>, AllocError> {
    let found = refutation(searcher, conflict)?;
    known.keep(searcher).and(Ok(found))
}

// What a search found that ended, if it found something.
fn outcome(
    searcher: &mut Searcher,
    end: &End,
    known: &mut Known,
) -> Result<Option<Found>, AllocError> {
    match end {
        End::Refuted(conflict) => refuted(searcher, *conflict, known),
        End::Found(_made) => satisfied(searcher, known),
        End::Shown => Ok(None),
        End::TooLong => Ok(None),
    }
}

// A search of all clauses for a while, without what is known, or with it.
fn seek_soon(
    alloc: Global,
    ground: &Ground,
    known: &mut Known,
    is_told: bool,
) -> Result<Option<Found>, AllocError> {
    let mut searcher = Searcher::new(alloc, ground, ground.count())?;
    if !is_told {
        return begin(&mut searcher, ground, known);
    }
    let found = recall(&mut searcher, ground, known)?;
    known.take_back(&mut searcher);
    Ok(found)
}

// A search of any length.
fn seek_long(
    alloc: Global,
    ground: &Ground,
    known: &mut Known,
) -> Result<Option<Found>, AllocError> {
    let mut searcher = Searcher::new(alloc, ground, ground.count().saturating_sub(1))?;
    let end = search(&mut searcher, ground, known)?;
    outcome(&mut searcher, &end, known)
}

/// Looks for a refutation of the clauses, or for a structure that makes them and all axiom instances true. What is known
/// from earlier searches may help, and what is found then is known to later ones.
pub fn seek(alloc: Global, ground: &Ground, known: &mut Known) -> Result<Found, AllocError> {
    let sizes = ground.sizes();
    if sizes.terms > MOST_TERMS || sizes.count() > MOST_ATOMS {
        return Ok(Found::Nothing);
    }
    if let Some(found) = seek_soon(alloc, ground, known, false)? {
        return Ok(found);
    }
    if known.serves(ground) {
        if let Some(found) = seek_soon(alloc, ground, known, true)? {
            return Ok(found);
        }
    }
    let found = seek_long(alloc, ground, known)?;
    Ok(found.unwrap_or(Found::Nothing))
}
