//! Small grounds, with models that make all true and sections that the checker accepts.

ghost use Rattle.std.specs.Prelude.{◌+◌, ◌<◌, ◌≤◌, IfOk, length};
ghost use Rattle.gh_ground.specs.Solving.{IsAnswer};

mod alone;
mod plain;
mod random;

use gh_base::atom::{Atom, Lit, Term};
use gh_base::clause::Clause;
use gh_base::ground::Ground;
use gh_base::structure::Structure;
use gh_check::check::check_log;
use gh_ground::solve::{Answer, solve, solve_alone};
use gh_inst::violation::violated;
use gh_log::lines::{LogLine, Section};
use gh_seek::known::Known;
use gh_seek::seek::{Found, seek};
use std::alloc::{AllocError, Global};

// What a ground was found to be, and of how many lines how many were learnt. Wrong: the structure isn't a model, or the
// section isn't valid.
#[derive(Clone, Copy, PartialEq, Eq)]
enum Verdict {
    Model,
    Refuted { lines: usize, learnt: usize },
    Wrong,
}

fn is_true(structure: &Structure, lit: Lit) -> bool {
    structure.sizes().has(lit.atom) && structure.holds(lit.atom) == lit.positive
}

// Whether each clause is true in the structure, and each instance.
fn is_model(structure: &Structure, ground: &Ground) -> bool {
    for number in 0..ground.count() {
        let Some(clause) = ground.clause(number) else {
            return false;
        };
        if !clause.lits().iter().any(|lit| is_true(structure, *lit)) {
            return false;
        }
    }
    violated(structure).is_none()
}

fn is_accepted(alloc: Global, ground: &Ground, section: &Section) -> bool
    requires { section.now.first + length section.now.lines ≤ 4294967295 }
{
    section.first == 1 && check_log(alloc, ground, section).is_ok()
}

fn count_learnt(section: &Section) -> usize {
    let mut learnt: usize = 0;
    for place in 0..section.lines.len() {
        let is_learnt = matches!(section.lines.line(place), LogLine::Hinted { .. });
        learnt = learnt.saturating_add(usize::from(is_learnt));
    }
    learnt
}

// Whether an answer is right, and which it is.
fn judged(alloc: Global, ground: &Ground, answer: Answer) -> Verdict
    requires { IsAnswer ground.now answer }
{
    match answer {
        Answer::Model(structure) => {
            if is_model(&structure, ground) {
                return Verdict::Model;
            }
        }
        Answer::Refutation(section) => {
            if is_accepted(alloc, ground, &section) {
                let lines = section.lines.len();
                let learnt = count_learnt(&section);
                return Verdict::Refuted { lines, learnt };
            }
        }
    }
    Verdict::Wrong
}

// By which searches a ground is decided.
#[derive(Clone, Copy)]
enum Way {
    // as the program does, which asks gh_seek first
    Sought,
    // with nothing found ahead
    Alone,
}

fn answer_by(alloc: Global, ground: &Ground, way: Way) -> Result<Answer, AllocError>
    ensures { IfOk result (λ answer. IsAnswer ground.now answer) }
{
    match way {
        Way::Sought => Ok(solve(alloc, ground)?),
        Way::Alone => Ok(solve_alone(alloc, ground)?),
    }
}

fn decided_by(alloc: Global, ground: &Ground, way: Way) -> Result<Verdict, AllocError> {
    Ok(judged(alloc, ground, answer_by(alloc, ground, way)?))
}

fn decided(alloc: Global, ground: &Ground) -> Result<Verdict, AllocError> {
    decided_by(alloc, ground, Way::Sought)
}

fn is_refuted(alloc: Global, ground: &Ground) -> Result<bool, AllocError> {
    Ok(matches!(decided(alloc, ground)?, Verdict::Refuted { .. }))
}

// No clause, over the terms up to a last one, one version and so many definitions.
fn empty(alloc: Global, last: u8, defs: u32) -> Ground
    requires { last < 255 }
{
    let mut ground = Ground::new(alloc, last + 1, 1);
    for _number in 0..defs {
        if ground.defs() < 1000 {
            ground.define();
        }
    }
    ground
}

// Adds a clause, if its atoms are in range.
fn push(ground: &mut Ground, clause: Clause) -> Result<(), AllocError> {
    let sizes = ground.sizes();
    if clause.lits().iter().all(|lit| sizes.has(lit.atom)) && ground.count() < 100_000 {
        ground.push(clause)?;
    }
    Ok(())
}

fn equal(a: u8, b: u8) -> Atom {
    Atom::Eq {
        a: Term(a),
        b: Term(b),
    }
}

fn hop(x: u8, v: u8) -> Atom {
    Atom::Hop {
        version: 0,
        x: Term(x),
        v: Term(v),
    }
}

fn allocated(x: u8) -> Atom {
    Atom::Alloc {
        version: 0,
        x: Term(x),
    }
}

// Atoms by name: those from 8 on are definitions.
fn atom_of(name: u8) -> Atom {
    match name {
        1 => allocated(0),
        2 => hop(0, 0),
        3 => equal(0, 1),
        4 => equal(0, 2),
        5 => equal(1, 2),
        6 => allocated(1),
        7 => hop(0, 1),
        _ => Atom::Def {
            number: u32::from(name).saturating_sub(8),
        },
    }
}

// A clause of named literals: a negative name is the opposite.
fn clause_of(alloc: Global, names: &[i8]) -> Result<Clause, AllocError> {
    let mut clause = Clause::new(alloc);
    for name in names {
        clause.push(Lit {
            atom: atom_of(name.unsigned_abs()),
            positive: *name > 0,
        })?;
    }
    Ok(clause)
}

fn push_all(alloc: Global, ground: &mut Ground, rows: &[&[i8]]) -> Result<(), AllocError> {
    for row in rows {
        push(ground, clause_of(alloc, row)?)?;
    }
    Ok(())
}

// The clauses of one condition.
const WORKED: [&[i8]; 25] = [
    &[-1],
    &[8, 1],
    &[8, -2],
    &[-8, -1, 2],
    &[8],
    &[9],
    &[-10],
    &[-11, -1, 10],
    &[-11, 1, -10],
    &[11, 1, 10],
    &[11, -1, -10],
    &[-12, 9],
    &[-12, 11],
    &[12, -9, -11],
    &[12],
    &[13],
    &[-14],
    &[-15, -1, 14],
    &[-15, 1, -14],
    &[15, 1, 14],
    &[15, -1, -14],
    &[-16, 13],
    &[-16, 15],
    &[16, -13, -15],
    &[-16],
];

// A ground with some of them.
fn worked_of(alloc: Global, rows: &[&[i8]]) -> Result<Ground, AllocError> {
    let mut ground = empty(alloc, 0, 9);
    push_all(alloc, &mut ground, rows)?;
    Ok(ground)
}

// A ground with all of them.
pub(crate) fn worked(alloc: Global) -> Result<Ground, AllocError> {
    worked_of(alloc, &WORKED)
}

// What is found of a ground with some of them.
fn decided_of(alloc: Global, rows: &[&[i8]]) -> Result<Verdict, AllocError> {
    let ground = worked_of(alloc, rows)?;
    decided(alloc, &ground)
}

// Without the last one they have a model.
#[test]
fn worked_condition(rt: HostRuntime) -> Result<(), AllocError> {
    assert!(rt; decided_of(rt.alloc(), &WORKED[..24])? == Verdict::Model);
    assert!(rt; matches!(decided_of(rt.alloc(), &WORKED)?, Verdict::Refuted { .. }));
    Ok(())
}

// A clause on both definitions of a pair.
fn push_pair(
    alloc: Global,
    ground: &mut Ground,
    pair: u32,
    signs: [bool; 2],
) -> Result<(), AllocError>
    requires { pair < 1000 }
{
    let mut clause = Clause::new(alloc);
    clause.push(Lit {
        atom: Atom::Def { number: 2 * pair },
        positive: signs[0],
    })?;
    clause.push(Lit {
        atom: Atom::Def {
            number: 2 * pair + 1,
        },
        positive: signs[1],
    })?;
    push(ground, clause)
}

// One of each of 41 pairs is true, and no signs are left for one of them.
fn pairs(alloc: Global) -> Result<Ground, AllocError> {
    let mut ground = empty(alloc, 0, 82);
    for pair in 0..41 {
        if pair != 20 {
            push_pair(alloc, &mut ground, pair, [true, true])?;
        }
    }
    for first in [true, false] {
        push_pair(alloc, &mut ground, 20, [first, true])?;
        push_pair(alloc, &mut ground, 20, [first, false])?;
    }
    Ok(ground)
}

// What was decided about other pairs isn't tried again, and their clauses have no lines: there are four clauses beside
// the lines that were learnt.
fn are_lessons_few(alloc: Global) -> Result<bool, AllocError> {
    let ground = pairs(alloc)?;
    if ground.count() != 44 {
        return Ok(false);
    }
    match decided(alloc, &ground)? {
        Verdict::Refuted { lines, learnt } => Ok(learnt <= 3 && lines <= learnt.saturating_add(4)),
        _ => Ok(false),
    }
}

#[test]
fn lessons_are_few(rt: HostRuntime) -> Result<(), AllocError> {
    assert!(rt; are_lessons_few(rt.alloc())?);
    Ok(())
}

fn between(x: u8, y: u8, z: u8, positive: bool) -> Lit {
    Lit {
        atom: Atom::Btwn {
            version: 0,
            x: Term(x),
            y: Term(y),
            z: Term(z),
        },
        positive,
    }
}

// Terms in a row, each reached by the one before it.
fn chain(alloc: Global, last: u8) -> Result<Ground, AllocError>
    requires { last < 255 }
{
    let mut ground = empty(alloc, last, 0);
    for x in 0..last {
        let reached = [between(x, x + 1, x + 1, true)];
        push(&mut ground, Clause::from_lits(alloc, &reached)?)?;
    }
    Ok(ground)
}

// The same, where the last one isn't reached by the first.
fn broken_chain(alloc: Global, last: u8) -> Result<Ground, AllocError>
    requires { last < 255 }
{
    let mut ground = chain(alloc, last)?;
    let unreached = [between(0, last, last, false)];
    push(&mut ground, Clause::from_lits(alloc, &unreached)?)?;
    Ok(ground)
}

// Whether a section was found that the checker takes.
fn is_section(alloc: Global, ground: &Ground, found: Found) -> bool {
    match found {
        Found::Refutation(section) => {
            section.first == 1
                && section.lines.len() < 1000
                && check_log(alloc, ground, &section).is_ok()
        }
        Found::Truths(_) => false,
        Found::Nothing => false,
    }
}

fn are_truths_found(alloc: Global) -> Result<bool, AllocError> {
    let ground = chain(alloc, 5)?;
    let found = seek(alloc, &ground, &mut Known::new())?;
    Ok(matches!(found, Found::Truths(_)))
}

fn is_section_found(alloc: Global) -> Result<bool, AllocError> {
    let ground = broken_chain(alloc, 5)?;
    let found = seek(alloc, &ground, &mut Known::new())?;
    Ok(is_section(alloc, &ground, found))
}

// The search that is asked first finds truths for a chain, and a section where its end isn't reached.
#[test]
fn what_is_found_first(rt: HostRuntime) -> Result<(), AllocError> {
    assert!(rt; are_truths_found(rt.alloc())?);
    assert!(rt; is_section_found(rt.alloc())?);
    Ok(())
}

// Whether a chain has a model, and none where its end isn't reached.
fn is_reached(alloc: Global, last: u8) -> Result<bool, AllocError>
    requires { last < 255 }
{
    let whole = chain(alloc, last)?;
    let broken = broken_chain(alloc, last)?;
    Ok(decided(alloc, &whole)? == Verdict::Model && is_refuted(alloc, &broken)?)
}

// The last one is reached by the first.
#[test]
fn chains(rt: HostRuntime) -> Result<(), AllocError> {
    for last in 1..10 {
        assert!(rt; is_reached(rt.alloc(), last)?);
    }
    Ok(())
}

fn is_refuted_over(alloc: Global, rows: &[&[i8]]) -> Result<bool, AllocError> {
    let mut ground = empty(alloc, 2, 2);
    push_all(alloc, &mut ground, rows)?;
    let found = decided(alloc, &ground)?;
    if found == Verdict::Wrong {
        return Err(AllocError);
    }
    Ok(found != Verdict::Model)
}

// What equality and congruence refute over three terms.
const EQUALITIES: &[(&[&[i8]], bool)] = &[
    (&[], false),
    (&[&[]], true),
    (&[&[3], &[5], &[-4]], true),
    (&[&[3], &[-5], &[-4]], false),
    (&[&[1], &[-6]], false),
    (&[&[3], &[1], &[-6]], true),
    (&[&[3], &[2], &[-7]], true),
    (&[&[3, 4], &[5], &[-3]], true),
    (&[&[3, 8], &[-8, 3], &[4, 9], &[-9, 5], &[-4, -5]], true),
];

// The first row that is answered otherwise.
fn wrong_row(alloc: Global, rows: &[(&[&[i8]], bool)]) -> Result<Option<usize>, AllocError> {
    for (number, (clauses, wanted)) in rows.iter().enumerate() {
        if is_refuted_over(alloc, clauses)? != *wanted {
            return Ok(Some(number));
        }
    }
    Ok(None)
}

#[test]
fn equalities(rt: HostRuntime) -> Result<(), AllocError> {
    assert!(rt; wrong_row(rt.alloc(), EQUALITIES)? == None);
    Ok(())
}
