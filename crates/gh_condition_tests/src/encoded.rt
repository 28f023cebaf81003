//! Conditions over terms as they are encoded, and their ground clauses, to compare with.

ghost use Rattle.gh_ast.specs.Plain.{program_of};
ghost use Rattle.gh_path.specs.Kept.{IsScoped};

use gh_ast::typed::{Limit, Typed};
use gh_base::atom::{Atom, Lit, Term};
use gh_base::ground::Ground;
use gh_base::name::Name;
use gh_base::place::Span;
use gh_base::term::TermKind;
use gh_grass::binding::Binding;
use gh_grass::terms::TermList;
use gh_parse::parse::parse;
use gh_path::condition::Condition;
use gh_path::listing::conditions;
use gh_reduce::ground::ground;
use gh_symb::limits::SymbolicError;
use gh_symb::over_terms::{BoundAssertion, Symbolic, TermCheck, TermStep};
use gh_symb::symbolic::symbolic;
use gh_types::check::check;
use gh_types::counts::MOST_BYTES;
use std::alloc::{AllocError, Global};

// Stands for the term of a variable that has none.
pub(crate) const NONE: u8 = 90;

pub(crate) type Terms<'a> = &'a [(&'a str, u8)];

// What a term was made for: null, a value by its number, the content of the cell at a term in a version.
#[derive(Clone, Copy, PartialEq, Eq)]
pub(crate) enum Made {
    Null,
    Value(u16),
    Content(u8, u8),
}

pub(crate) fn kind_made(kind: TermKind) -> Made {
    match kind {
        TermKind::Null => Made::Null,
        TermKind::Value { number } => Made::Value(number),
        TermKind::Next { version, of } => Made::Content(version, of.0),
    }
}

// The encoding of a step; of a part of the heap the versions before and after.
#[derive(Clone, Copy, PartialEq, Eq)]
pub(crate) enum StepEncoding {
    Access(u8),
    Equal(u8, u8),
    Unequal(u8, u8),
    Same,
    Write(u8, u8),
    New(u8, u8),
    Free(u8),
    Part(u8, u8),
    Other,
}

// What a check asks; of a part of the heap or all of it in which version.
#[derive(Clone, Copy, PartialEq, Eq)]
pub(crate) enum Asked {
    Access(u8),
    Sub(u8),
    Whole(u8),
    Other,
}

// The terms of names before and after the step of a place, which replaces a part of the heap.
#[derive(Clone, Copy)]
pub(crate) struct Part<'a> {
    pub(crate) place: usize,
    pub(crate) before: Terms<'a>,
    pub(crate) after: Terms<'a>,
}

// What a condition is over terms, with the terms of names in the start and in the check, and those of
// variables at the states in order.
#[derive(Clone, Copy)]
pub(crate) struct Encoded<'a> {
    pub(crate) kinds: &'a [Made],
    pub(crate) versions: u8,
    pub(crate) start: Terms<'a>,
    pub(crate) steps: &'a [StepEncoding],
    pub(crate) parts: &'a [Part<'a>],
    pub(crate) check: Asked,
    pub(crate) asked: Terms<'a>,
    pub(crate) states: &'a [(&'a str, &'a [u8])],
}

pub(crate) fn step_encoded(step: &TermStep<'_>) -> StepEncoding {
    match step {
        TermStep::Access { x } => StepEncoding::Access(x.0),
        TermStep::Assume { left, equal, right } => {
            if *equal {
                StepEncoding::Equal(left.0, right.0)
            } else {
                StepEncoding::Unequal(left.0, right.0)
            }
        }
        TermStep::Same => StepEncoding::Same,
        TermStep::Write { x, value } => StepEncoding::Write(x.0, value.0),
        TermStep::New { location, content } => StepEncoding::New(location.0, content.0),
        TermStep::Free { x } => StepEncoding::Free(x.0),
        TermStep::Part { before, after } => match after.as_slice() {
            [only] => StepEncoding::Part(before.version, only.version),
            _ => StepEncoding::Other,
        },
    }
}

pub(crate) fn check_asked(check: &TermCheck<'_>) -> Asked {
    match check {
        TermCheck::Access { x } => Asked::Access(x.0),
        TermCheck::Sub(bound) => Asked::Sub(bound.version),
        TermCheck::Whole(bounds) => match bounds.as_slice() {
            [only] => Asked::Whole(only.version),
            _ => Asked::Other,
        },
    }
}

pub(crate) fn are_kinds(terms: &TermList, kinds: &[Made]) -> bool {
    if terms.count() as usize != kinds.len() {
        return false;
    }
    let mut place: u8 = 0;
    for kind in kinds {
        let Some(found) = terms.kind(Term(place)) else {
            return false;
        };
        if kind_made(found) != *kind {
            return false;
        }
        place = place.saturating_add(1);
    }
    true
}

pub(crate) fn are_steps(steps: &[TermStep<'_>], all: &[StepEncoding]) -> bool {
    if steps.len() != all.len() {
        return false;
    }
    for (place, step) in steps.iter().enumerate() {
        if step_encoded(step) != all[place] {
            return false;
        }
    }
    true
}

// The term of a name.
pub(crate) fn term_of(alloc: Global, binding: &Binding, text: &str) -> Result<u8, AllocError> {
    let Some(name) = Name::new(alloc, text)? else {
        return Ok(NONE);
    };
    match binding.get(&name) {
        Some(term) => Ok(term.0),
        None => Ok(NONE),
    }
}

pub(crate) fn binds(
    alloc: Global,
    binding: &Binding,
    terms: Terms<'_>,
) -> Result<bool, AllocError> {
    for (text, term) in terms {
        if term_of(alloc, binding, text)? != *term {
            return Ok(false);
        }
    }
    Ok(true)
}

// Whether a name has these terms at the states in order, and there is no further state.
pub(crate) fn stays(
    alloc: Global,
    symbolic: &Symbolic<'_>,
    text: &str,
    terms: &[u8],
) -> Result<bool, AllocError> {
    let mut state: u16 = 0;
    for term in terms {
        let Some(binding) = symbolic.binding(state) else {
            return Ok(false);
        };
        if term_of(alloc, binding, text)? != *term {
            return Ok(false);
        }
        state = state.saturating_add(1);
    }
    Ok(symbolic.binding(state).is_none())
}

pub(crate) fn all_stay(
    alloc: Global,
    symbolic: &Symbolic<'_>,
    encoded: &Encoded<'_>,
) -> Result<bool, AllocError> {
    for (text, terms) in encoded.states {
        if !stays(alloc, symbolic, text, terms)? {
            return Ok(false);
        }
    }
    Ok(true)
}

pub(crate) fn is_part(
    alloc: Global,
    step: &TermStep<'_>,
    part: &Part<'_>,
) -> Result<bool, AllocError> {
    match step {
        TermStep::Part { before, after } => match after.as_slice() {
            [only] => Ok(
                binds(alloc, &before.binding, part.before)?
                    && binds(alloc, &only.binding, part.after)?,
            ),
            _ => Ok(false),
        },
        _ => Ok(false),
    }
}

pub(crate) fn are_parts(
    alloc: Global,
    steps: &[TermStep<'_>],
    parts: &[Part<'_>],
) -> Result<bool, AllocError> {
    for part in parts {
        let Some(step) = steps.get(part.place) else {
            return Ok(false);
        };
        if !is_part(alloc, step, part)? {
            return Ok(false);
        }
    }
    Ok(true)
}

pub(crate) fn is_asked(
    alloc: Global,
    check: &TermCheck<'_>,
    terms: Terms<'_>,
) -> Result<bool, AllocError> {
    match check {
        TermCheck::Access { .. } => Ok(terms.is_empty()),
        TermCheck::Sub(bound) => Ok(binds(alloc, &bound.binding, terms)?),
        TermCheck::Whole(bounds) => match bounds.as_slice() {
            [only] => Ok(binds(alloc, &only.binding, terms)?),
            _ => Ok(false),
        },
    }
}

pub(crate) fn is_encoded(
    alloc: Global,
    symbolic: &Symbolic<'_>,
    encoded: &Encoded<'_>,
) -> Result<bool, AllocError> {
    let same = symbolic.versions() == encoded.versions
        && are_kinds(symbolic.terms(), encoded.kinds)
        && are_steps(symbolic.steps(), encoded.steps)
        && symbolic.start().version == 0
        && check_asked(symbolic.check()) == encoded.check;
    if !same {
        return Ok(false);
    }
    let start = binds(alloc, &symbolic.start().binding, encoded.start)?;
    let parts = are_parts(alloc, symbolic.steps(), encoded.parts)?;
    let check = is_asked(alloc, symbolic.check(), encoded.asked)?;
    Ok(start && parts && check && all_stay(alloc, symbolic, encoded)?)
}

// The numbers of terms, versions, definitions and clauses.
pub(crate) type Sizes = (u8, u8, u32, u32);

// What is expected of a condition.
#[derive(Clone, Copy)]
pub(crate) enum Expected<'a> {
    Encoded(Encoded<'a>),
    Limit(u8, u32),
    Sizes(Sizes),
    Clauses(&'a [&'a [Word]]),
}

// A literal over the only term and version of the smallest program.
#[derive(Clone, Copy, PartialEq, Eq)]
pub(crate) enum Word {
    A,
    NotA,
    H,
    NotH,
    D(u32),
    NotD(u32),
    Other,
}

pub(crate) fn literal(lit: Lit) -> Word {
    match lit.atom {
        Atom::Alloc {
            version: 0,
            x: Term(0),
        } => { if lit.positive { Word::A } else { Word::NotA } }
        Atom::Hop {
            version: 0,
            x: Term(0),
            v: Term(0),
        } => { if lit.positive { Word::H } else { Word::NotH } }
        Atom::Def { number } => {
            if lit.positive {
                Word::D(number)
            } else {
                Word::NotD(number)
            }
        }
        _ => Word::Other,
    }
}

pub(crate) fn are_words(lits: &[Lit], words: &[Word]) -> bool {
    if lits.len() != words.len() {
        return false;
    }
    for (place, lit) in lits.iter().enumerate() {
        if literal(*lit) != words[place] {
            return false;
        }
    }
    true
}

pub(crate) fn are_clauses(ground: &Ground, clauses: &[&[Word]]) -> bool {
    if ground.count() as usize != clauses.len() {
        return false;
    }
    let mut number: u32 = 0;
    for words in clauses {
        let Some(clause) = ground.clause(number) else {
            return false;
        };
        if !are_words(clause.lits(), words) {
            return false;
        }
        number = number.saturating_add(1);
    }
    true
}

pub(crate) fn numbers(ground: &Ground) -> Sizes {
    (
        ground.terms(),
        ground.versions(),
        ground.defs(),
        ground.count(),
    )
}

// Whether the only procedure is refused with this limit.
pub(crate) fn is_limit(limit: &Limit, kind: u8, count: u32) -> bool {
    limit.kind == kind && limit.count == count && limit.span == Span { line: 2, col: 11 }
}

// Whether this is what a condition is over terms.
pub(crate) fn shows(
    alloc: Global,
    over: &Symbolic<'_>,
    expected: &Expected<'_>,
) -> Result<bool, AllocError> {
    match expected {
        Expected::Encoded(encoded) => Ok(is_encoded(alloc, over, encoded)?),
        Expected::Limit(..) => Ok(false),
        Expected::Sizes(all) => {
            let found = ground(alloc, over)?;
            Ok(numbers(&found) == *all)
        }
        Expected::Clauses(clauses) => {
            let found = ground(alloc, over)?;
            Ok(are_clauses(&found, clauses))
        }
    }
}

pub(crate) fn meets(
    alloc: Global,
    typed: &Typed,
    condition: &Condition,
    expected: &Expected<'_>,
) -> Result<bool, AllocError>
    requires { IsScoped (program_of typed.now) condition.now }
{
    match symbolic(alloc, typed, condition) {
        Ok(over) => Ok(shows(alloc, &over, expected)?),
        Err(SymbolicError::Limit(limit)) => match expected {
            Expected::Limit(kind, count) => Ok(is_limit(&limit, *kind, *count)),
            _ => Ok(false),
        },
        Err(SymbolicError::OutOfMemory) => Err(AllocError),
    }
}

// Whether the condition of a number is as expected.
pub(crate) fn is(
    alloc: Global,
    text: &[u8],
    number: u32,
    expected: Expected<'_>,
) -> Result<bool, AllocError> {
    if text.len() > MOST_BYTES {
        return Ok(false);
    }
    let Ok(program) = parse(alloc, text) else {
        return Ok(false);
    };
    let Ok(typed) = check(alloc, program) else {
        return Ok(false);
    };
    let Ok(all) = conditions(alloc, &typed) else {
        return Ok(false);
    };
    let Some(condition) = all.condition(alloc, number)? else {
        return Ok(false);
    };
    Ok(meets(alloc, &typed, &condition, &expected)?)
}

pub(crate) type Row<'a> = (&'a [u8], u32, Expected<'a>);

// Whether all conditions are as expected.
pub(crate) fn are(alloc: Global, rows: &[Row<'_>]) -> Result<bool, AllocError> {
    for row in rows {
        if !is(alloc, row.0, row.1, row.2)? {
            return Ok(false);
        }
    }
    Ok(true)
}
