//! What a search learns, and whether its reasons show it.

use crate::apart::{Apart, stands};
use crate::problems::named;
use crate::turns::next_lesson;
use gh_base::atom::Lit;
use gh_base::clause::Clause;
use gh_sat::clause_search::Learnt;
use gh_sat::search::Search;
use gh_sat::trail::Step;
use std::alloc::{AllocError, Global};

// How many literals of a clause have no opposite in a set.
#[derive(Clone, Copy)]
enum Left {
    Nothing,
    One(Lit),
    More,
}

fn left_of(set: &[Lit], clause: &Clause) -> Left {
    let mut left = Left::Nothing;
    for lit in clause.lits() {
        if !stands(set, lit.negated()) {
            left = match left {
                Left::Nothing => Left::One(*lit),
                _ => Left::More,
            };
        }
    }
    left
}

// Whether clauses by their numbers, taken as hints in this order, show that a set of literals can't all be true.
fn are_reasons(
    search: &Search<Apart>,
    set: &mut Vec<Lit>,
    reasons: &[u32],
) -> Result<bool, AllocError> {
    for number in reasons {
        let Some(hint) = search.clause(*number) else {
            return Ok(false);
        };
        match left_of(set.as_slice(), hint) {
            Left::Nothing => return Ok(true),
            Left::One(lit) => set.push(lit)?,
            Left::More => return Ok(false),
        }
    }
    Ok(false)
}

// The opposites of literals.
fn opposites(alloc: Global, lits: &[Lit]) -> Result<Vec<Lit>, AllocError> {
    let mut set = Vec::new(alloc);
    for lit in lits {
        set.push(lit.negated())?;
    }
    Ok(set)
}

// Whether clauses by their numbers, taken as hints in this order, show a clause.
pub(crate) fn is_shown(
    alloc: Global,
    search: &Search<Apart>,
    reasons: &[u32],
    lits: &[Lit],
) -> Result<bool, AllocError> {
    let mut set = opposites(alloc, lits)?;
    are_reasons(search, &mut set, reasons)
}

// A search that learns from its first conflict: the clause by names, the level to which it jumps back, and the unit.
#[derive(Clone, Copy)]
pub(crate) struct Lesson {
    pub(crate) defs: u32,
    pub(crate) clauses: &'static [&'static [i32]],
    pub(crate) learnt: &'static [i32],
    pub(crate) level: u32,
    pub(crate) unit: i32,
}

// Whether the clause has the named literals and no others.
fn has_names(lits: &[Lit], names: &[i32]) -> bool {
    for name in names {
        if !stands(lits, named(*name)) {
            return false;
        }
    }
    lits.len() == names.len()
}

// Whether a literal is true at a level.
fn is_true_at(steps: &[Step], lit: Lit, level: u32) -> bool {
    for step in steps {
        if step.lit.is_same(lit) {
            return step.level == level;
        }
    }
    false
}

// Whether what is learnt is the lesson, and its reasons show it.
fn is_lesson(
    alloc: Global,
    search: &Search<Apart>,
    learnt: &Learnt,
    lesson: &Lesson,
) -> Result<bool, AllocError> {
    let lits = learnt.clause.lits();
    let is_wanted = has_names(lits, lesson.learnt)
        && learnt.level == lesson.level
        && learnt.unit.is_same(named(lesson.unit));
    Ok(is_shown(alloc, search, learnt.reasons.as_slice(), lits)? && is_wanted)
}

// Whether the next lesson is this one.
fn learns(alloc: Global, search: &mut Search<Apart>, lesson: &Lesson) -> Result<bool, AllocError> {
    match next_lesson(alloc, search)? {
        None => Ok(false),
        Some(learnt) => is_lesson(alloc, search, &learnt, lesson),
    }
}

// Whether the next lesson is this one, and its unit is then true at its level.
pub(crate) fn is_learnt(
    alloc: Global,
    search: &mut Search<Apart>,
    lesson: &Lesson,
) -> Result<bool, AllocError> {
    let is_lesson = learns(alloc, search, lesson)?;
    search.propagate(alloc)?;
    let is_unit = is_true_at(search.steps(), named(lesson.unit), lesson.level);
    Ok(is_lesson && is_unit && search.level() == lesson.level)
}
