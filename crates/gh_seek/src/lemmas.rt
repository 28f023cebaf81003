//! Lemmas that are looked for ahead, version by version: a term stands on a segment in one version if it does in the
//! version before, and the other way round; segments of a version have no cell in common; what is allocated stands on
//! one of them. So a version is told by its segments, and what is decided for one needs no other but the one before.
//!
//! Most lists stay as they were beside a write or a call. A search that meets this again and again, below decisions on
//! later versions, takes long. Structures that refute lemmas spare most tries: a segment of which one makes a lemma
//! false is given up in that version. In a try the contents along the lemma's segment are decided first, then its cases.

use crate::candidates::Candidates;
use crate::search::{End, Searcher};
use crate::spoken::{Segment, Spoken};
use gh_trail::shape::{Code, Kind, Parts};
use gh_trail::table::byte;
use std::alloc::AllocError;

// So many conflicts a lemma may take.
const MOST: u64 = 20000;

// Those of some segments that are there in a version.
fn there_in(
    searcher: &Searcher,
    segments: &[Segment],
    version: u8,
) -> Result<Vec<Segment>, AllocError> {
    let state = &searcher.state;
    let mut found = Vec::new(state.alloc);
    for segment in segments {
        let whole = state.shape.btwn(version, segment.x, segment.z, segment.z);
        if state.trail.is_true(Code::new(whole, true)) {
            found.push(*segment)?;
        }
    }
    Ok(found)
}

// The lemmas on the segments that are there in the version before.
fn kept(searcher: &Searcher, segments: &[Segment], version: u8) -> Result<Candidates, AllocError> {
    let mut found = Candidates::new(searcher.state.alloc);
    let there = there_in(searcher, segments, version.wrapping_sub(1))?;
    for index in 0..there.len() {
        found.push_segment(&searcher.state.shape, version, there[index], byte(index))?;
    }
    Ok(found)
}

// The lemmas on what a version has: segments apart, and nothing beside them.
fn parted(
    searcher: &Searcher,
    segments: &[Segment],
    version: u8,
) -> Result<Candidates, AllocError> {
    let shape = &searcher.state.shape;
    let mut found = Candidates::new(searcher.state.alloc);
    let there = there_in(searcher, segments, version)?;
    for term in 0..shape.terms {
        found.push_owned(shape, version, byte(term), there.as_slice())?;
    }
    for count in 0..there.len() {
        found.push_apart(shape, version, there[count], &there.as_slice()[..count])?;
    }
    Ok(found)
}

// The segment along which contents are decided: the one that a lemma of two literals begins with.
fn chain_of(searcher: &Searcher, wanted: &[Code]) -> Option<Parts> {
    if wanted.len() != 2 {
        return None;
    }
    let begun = wanted.iter().find(|code| !code.is_positive())?;
    let parts = searcher.state.shape.parts(begun.atom());
    if parts.kind == Kind::Btwn {
        Some(parts)
    } else {
        None
    }
}

// Sets the cases by which a lemma is shown: the contents along its segment, then for each of its segments which terms
// are the one that it names, and which come before that one.
fn set_cases(searcher: &mut Searcher, wanted: &[Code]) -> Result<(), AllocError> {
    searcher.cases.clear();
    searcher.chain = chain_of(searcher, wanted);
    for code in wanted {
        let parts = searcher.state.shape.parts(code.atom());
        if parts.kind == Kind::Btwn {
            push_cases(searcher, parts)?;
        }
    }
    Ok(())
}

// Adds the cases on a term of a segment.
fn push_cases(searcher: &mut Searcher, parts: Parts) -> Result<(), AllocError> {
    let [x, y, _] = parts.terms;
    for term in 0..searcher.state.shape.terms {
        let (shape, other) = (&searcher.state.shape, byte(term));
        let (same, before) = (
            shape.equality(other, y),
            shape.btwn(parts.version, x, other, y),
        );
        searcher.push_case(same)?;
        searcher.push_case(before)?;
    }
    Ok(())
}

// Tries a lemma. Where a structure refutes it, leaves out those that this one makes false. Answers a clause that is
// false at level 0, if one came to be.
fn try_one(
    searcher: &mut Searcher,
    all: &mut Candidates,
    wanted: &[Code],
) -> Result<Option<u32>, AllocError> {
    set_cases(searcher, wanted)?;
    searcher.cut(0)?;
    match searcher.run(wanted, MOST)? {
        End::Refuted(conflict) => return Ok(Some(conflict)),
        End::Found(made) => all.keep_true(&searcher.state.shape, &searcher.least, &made),
        End::Shown => {}
        End::TooLong => {}
    }
    Ok(None)
}

// Tries the lemmas. Answers a clause that is false at level 0, if one came to be.
fn try_all(searcher: &mut Searcher, all: &mut Candidates) -> Result<Option<u32>, AllocError> {
    if all.is_empty() {
        return Ok(None);
    }
    let mut wanted = Vec::new(searcher.state.alloc);
    for _ in 0..u32::MAX {
        if !all.pop(&mut wanted)? {
            break;
        }
        if let Some(conflict) = try_one(searcher, all, wanted.as_slice())? {
            return Ok(Some(conflict));
        }
    }
    searcher.cases.clear();
    searcher.chain = None;
    searcher.cut(0)?;
    Ok(None)
}

// Tries that what is there in the version before is there in a version, too.
fn try_kept(
    searcher: &mut Searcher,
    segments: &[Segment],
    version: u8,
) -> Result<Option<u32>, AllocError> {
    let mut all = kept(searcher, segments, version)?;
    try_all(searcher, &mut all)
}

// Tries that the segments of a version are apart, and that nothing is beside them.
fn try_parted(
    searcher: &mut Searcher,
    segments: &[Segment],
    version: u8,
) -> Result<Option<u32>, AllocError> {
    let mut all = parted(searcher, segments, version)?;
    try_all(searcher, &mut all)
}

// Tries the lemmas of a version. Answers a clause that is false at level 0, if one came to be.
fn try_version(
    searcher: &mut Searcher,
    segments: &[Segment],
    version: u8,
) -> Result<Option<u32>, AllocError> {
    searcher.set_window(version.saturating_sub(1), version)?;
    if version > 0 {
        if let Some(conflict) = try_kept(searcher, segments, version)? {
            return Ok(Some(conflict));
        }
    }
    try_parted(searcher, segments, version)
}

/// Tries the lemmas of all versions. Answers a clause that is false at level 0, if one came to be.
pub(crate) fn try_lemmas(searcher: &mut Searcher) -> Result<Option<u32>, AllocError> {
    let segments = Spoken::new(searcher)?.segments(searcher)?;
    for version in 0..searcher.state.shape.versions {
        if let Some(conflict) = try_version(searcher, segments.as_slice(), byte(version))? {
            return Ok(Some(conflict));
        }
    }
    Ok(None)
}
