//! The section of a smallest counterexample, over the clauses of its bound and of the next.

ghost use Rattle.std.specs.Prelude.{◌≡◌, ◌≤◌};
ghost use Rattle.gh_ast.specs.Limits.{KeepsLimits};
ghost use Rattle.gh_ast.specs.Plain.{program_of};
ghost use Rattle.gh_ast.specs.Rules.{IsTyped};
ghost use Rattle.gh_path.specs.Admitted.{IsAdmitted};
ghost use Rattle.gh_path.specs.Kept.{IsOne};

use gh_ast::typed::Typed;
use gh_base::ground::Ground;
use gh_check::check::check_log;
use gh_check::fault::CheckError;
use gh_decide::decide::over_terms;
use gh_ground::solve::{Answer, solve};
use gh_log::lines::Section;
use gh_parse::parse::parse;
use gh_path::condition::Condition;
use gh_path::conditions::Conditions;
use gh_path::listing::conditions;
use gh_reduce::ground::ground;
use gh_small::bounding::{bounded, copied, has_room};
use gh_small::smallest::smallest;
use gh_symb::admit::admit;
use gh_texts::CUT;
use gh_types::check::check;
use gh_types::counts::MOST_BYTES;
use std::alloc::{AllocError, Global};

// What is found of a section over bounded clauses: they have a model, and the section is valid for them.
#[derive(Clone, Copy, PartialEq, Eq)]
struct Judged {
    modelled: bool,
    shown: bool,
}

// How many cells, and what is found where so many and one more are the bound.
#[derive(Clone, Copy, PartialEq, Eq)]
struct Sides {
    cells: u32,
    at: Judged,
    above: Judged,
}

// Whether a section is valid for ground clauses.
fn shown(alloc: Global, ground: &Ground, section: &Section) -> Result<bool, AllocError> {
    if section.first as usize > 1 || section.lines.len() > 4_000_000 {
        return Ok(false);
    }
    match check_log(alloc, ground, section) {
        Ok(()) => Ok(true),
        Err(CheckError::Fault(_)) => Ok(false),
        Err(CheckError::OutOfMemory) => Err(AllocError),
    }
}

// The section over the clauses with a bound.
fn judge(
    alloc: Global,
    ground: &Ground,
    cells: u32,
    section: &Section,
) -> Result<Judged, AllocError>
    requires { 1 ≤ cells }
{
    if !has_room(ground, cells) {
        return Err(AllocError);
    }
    let clauses = bounded(alloc, copied(alloc, ground)?, cells)?;
    let shown = shown(alloc, &clauses, section)?;
    let answer = solve(alloc, &clauses)?;
    let modelled = matches!(answer, Answer::Model(_));
    Ok(Judged { modelled, shown })
}

// The clauses of a condition.
fn clauses_of(alloc: Global, typed: &Typed, condition: &Condition) -> Result<Ground, AllocError>
    requires admitted { IsAdmitted (program_of typed.now) }
    requires one { IsOne (program_of typed.now) condition.now }
{
    let over = over_terms(alloc, typed, condition)?;
    ground(alloc, &over)
}

// What is found of the section of a condition's smallest counterexample.
fn bounds(alloc: Global, typed: &Typed, condition: &Condition) -> Result<Option<Sides>, AllocError>
    requires admitted { IsAdmitted (program_of typed.now) }
    requires one { IsOne (program_of typed.now) condition.now }
{
    let Some(found) = smallest(alloc, typed, condition)? else {
        return Ok(None);
    };
    let Some(section) = &found.section else {
        return Ok(None);
    };
    let cells = found.cells;
    if cells == 0 || cells > 254 {
        return Ok(None);
    }
    let clauses = clauses_of(alloc, typed, condition)?;
    let at = judge(alloc, &clauses, cells, section)?;
    let above = judge(alloc, &clauses, cells + 1, section)?;
    Ok(Some(Sides { cells, at, above }))
}

// The same of the condition of a number.
fn numbered(
    alloc: Global,
    typed: &Typed,
    conditions: &Conditions<'_>,
    number: u32,
) -> Result<Option<Sides>, AllocError>
    requires same { program_of conditions.now ≡ program_of typed.now }
    requires admitted { IsAdmitted (program_of typed.now) }
{
    let Some(condition) = conditions.condition(alloc, number)? else {
        return Ok(None);
    };
    bounds(alloc, typed, &condition)
}

// The same of a program that keeps the rules and the limits on a text.
fn bounds_of(alloc: Global, typed: &Typed, number: u32) -> Result<Option<Sides>, AllocError>
    requires typed { IsTyped (program_of typed.now) }
    requires limits { KeepsLimits (program_of typed.now) }
{
    let all = match conditions(alloc, typed) {
        Ok(all) => all,
        Err(_) => return Ok(None),
    };
    match admit(alloc, typed, &all) {
        Ok(()) => numbered(alloc, typed, &all, number),
        Err(_) => Ok(None),
    }
}

fn bounds_in(alloc: Global, text: &[u8], number: u32) -> Result<Option<Sides>, AllocError> {
    if text.len() > MOST_BYTES {
        return Ok(None);
    }
    let Ok(program) = parse(alloc, text) else {
        return Ok(None);
    };
    match check(alloc, program) {
        Ok(typed) => bounds_of(alloc, &typed, number),
        Err(_) => Ok(None),
    }
}

const EXPECTED: Sides = Sides {
    cells: 2,
    at: Judged {
        modelled: false,
        shown: true,
    },
    above: Judged {
        modelled: true,
        shown: false,
    },
};

#[test]
fn a_section_of_its_bound_alone(rt: HostRuntime) -> Result<(), AllocError> {
    assert!(rt; bounds_in(rt.alloc(), CUT, 2)? == Some(EXPECTED));
    Ok(())
}
