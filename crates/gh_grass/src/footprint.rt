//! The formulas of an assertion: which terms are in its footprint, and that some part of the heap meets it.

ghost use Rattle.std.specs.Prelude.{◌≡◌, IfOk, OnOk};
ghost use Rattle.gh_grass.specs.Claims.{ground_formula_of, ground_formula_list, AddsFormulas};
ghost use Rattle.gh_grass.specs.Footprints.{before_end, all_apart_of, apart_from, apart_here_of, apart_of};
ghost use Rattle.gh_grass.specs.Footprints.{footprint_of, footprints_of, leads_to_of, structure_of, structures_of};

use crate::binding::Binding;
use crate::formula::Formula;
use crate::terms::TermList;
use crate::tested::{cases, comparison, term_of, variable_term};
use gh_ast::{Assertion, Occ, Operand};
use gh_base::atom::{Atom, Term};
use std::alloc::{AllocError, Global};

// The term `z` is on the way from `x` to the first `y`, and isn't `y`.
fn segment_footprint(
    alloc: Global,
    version: u8,
    x: Term,
    z: Term,
    y: Term,
) -> Result<Formula, AllocError>
    ensures { IfOk result (λ f. ground_formula_of f ≡ before_end version x z y) }
{
    let between = Formula::Atom(Atom::Btwn {
        version,
        x,
        y: z,
        z: y,
    });
    let not_yet = Formula::equal(z, y).negated(alloc)?;
    Ok(between.and(alloc, not_yet)?)
}

/// The term `z` is in the footprint of an assertion in a version of the heap.
///
/// A name that isn't bound counts as null.
#[cycle(footprint)]
pub fn footprint_at(
    alloc: Global,
    assertion: &Assertion,
    binding: &Binding,
    version: u8,
    z: Term,
) -> Result<Formula, AllocError>
    ensures { IfOk result (λ f. ground_formula_of f ≡ footprint_of binding.now version z assertion.now) }
{
    match assertion {
        Assertion::Emp => Ok(Formula::Or(Vec::new(alloc))),
        Assertion::Pure { .. } => Ok(Formula::Or(Vec::new(alloc))),
        Assertion::PointsTo { at, .. } => Ok(Formula::equal(z, variable_term(binding, at))),
        Assertion::Acc { at } => Ok(Formula::equal(z, variable_term(binding, at))),
        Assertion::Lseg { from, to } => {
            let from = term_of(binding, from);
            let to = term_of(binding, to);
            Ok(segment_footprint(alloc, version, from, z, to)?)
        }
        Assertion::Star(members) => {
            let formulas = footprints_at(alloc, members.as_slice(), binding, version, z)?;
            Ok(Formula::Or(formulas))
        }
        Assertion::Cases { test, yes, no } => {
            let taken = footprint_at(alloc, yes, binding, version, z)?;
            let otherwise = footprint_at(alloc, no, binding, version, z)?;
            Ok(cases(alloc, test, binding, taken, otherwise)?)
        }
    }
}

#[cycle(footprint)]
fn footprints_at(
    alloc: Global,
    assertions: &[Assertion],
    binding: &Binding,
    version: u8,
    z: Term,
) -> Result<Vec<Formula>, AllocError>
    ensures { IfOk result (λ fs. ground_formula_list fs.items ≡ footprints_of binding.now version z assertions.now) }
{
    let mut formulas = Vec::new(alloc);
    for assertion in assertions {
        formulas.push(footprint_at(alloc, assertion, binding, version, z)?)?;
    }
    Ok(formulas)
}

// What the names of an assertion are bound to, in which version of the heap, and how many terms there are.
#[derive(Clone, Copy)]
struct Interpretation<'t> {
    binding: &'t Binding,
    version: u8,
    terms: u8,
}

// The term is in at most one of two footprints.
fn apart_at(
    alloc: Global,
    under: Interpretation<'_>,
    first: &Assertion,
    second: &Assertion,
    z: Term,
) -> Result<Formula, AllocError>
    ensures { IfOk result (λ f. ground_formula_of f ≡ apart_here_of under.entry first.now second.now z) }
{
    let one = footprint_at(alloc, first, under.binding, under.version, z)?;
    let other = footprint_at(alloc, second, under.binding, under.version, z)?;
    Ok(one.and(alloc, other)?.negated(alloc)?)
}

// No term is in both footprints.
fn push_apart(
    alloc: Global,
    under: Interpretation<'_>,
    first: &Assertion,
    second: &Assertion,
    formulas: &mut Vec<Formula>,
) -> Result<(), AllocError>
    ensures { OnOk result (AddsFormulas formulas.old formulas.new (apart_of under.entry first.now second.now)) }
{
    for z in 0..under.terms {
        formulas.push(apart_at(alloc, under, first, second, Term(z))?)?;
    }
    Ok(())
}

// No term is in the footprint of an assertion and in that of one of the others.
fn push_apart_from(
    alloc: Global,
    under: Interpretation<'_>,
    first: &Assertion,
    others: &[Assertion],
    formulas: &mut Vec<Formula>,
) -> Result<(), AllocError>
    ensures { OnOk result (AddsFormulas formulas.old formulas.new (apart_from under.entry first.now others.now)) }
{
    for second in others {
        push_apart(alloc, under, first, second, formulas)?;
    }
    Ok(())
}

// No term is in the footprints of two members.
fn push_all_apart(
    alloc: Global,
    under: Interpretation<'_>,
    members: &[Assertion],
    formulas: &mut Vec<Formula>,
) -> Result<(), AllocError>
    ensures { OnOk result (AddsFormulas formulas.old formulas.new (all_apart_of under.entry members.now)) }
{
    for (i, first) in members.iter().enumerate() {
        let others = &members[i + 1..];
        push_apart_from(alloc, under, first, others, formulas)?;
    }
    Ok(())
}

// The cell at a variable is there, and its content is the operand.
fn points_to(
    alloc: Global,
    at: &Occ,
    to: &Operand,
    binding: &Binding,
    version: u8,
    terms: &TermList,
) -> Result<Formula, AllocError>
    ensures { IfOk result (λ f. ground_formula_of f ≡ leads_to_of binding.now terms.now version at.now to.now) }
{
    let x = variable_term(binding, at);
    let next = terms.next(version, x).unwrap_or(Term(0));
    let content = Formula::equal(next, term_of(binding, to));
    Ok(Formula::Atom(Atom::Alloc { version, x }).and(alloc, content)?)
}

/// Some part of the heap meets an assertion in a version of the heap.
///
/// A name that isn't bound and a successor that isn't listed count as null.
#[cycle(structure)]
pub fn structure_of(
    alloc: Global,
    assertion: &Assertion,
    binding: &Binding,
    version: u8,
    terms: &TermList,
) -> Result<Formula, AllocError>
    ensures { IfOk result (λ f. ground_formula_of f ≡ structure_of binding.now terms.now version assertion.now) }
{
    match assertion {
        Assertion::Emp => Ok(Formula::And(Vec::new(alloc))),
        Assertion::Pure { left, equal, right } => {
            let left = term_of(binding, left);
            let right = term_of(binding, right);
            Ok(comparison(alloc, left, *equal, right)?)
        }
        Assertion::PointsTo { at, to } => Ok(points_to(alloc, at, to, binding, version, terms)?),
        Assertion::Acc { at } => Ok(Formula::Atom(Atom::Alloc {
            version,
            x: variable_term(binding, at),
        })),
        Assertion::Lseg { from, to } => {
            let to = term_of(binding, to);
            Ok(Formula::Atom(Atom::Btwn {
                version,
                x: term_of(binding, from),
                y: to,
                z: to,
            }))
        }
        Assertion::Star(members) => {
            let members = members.as_slice();
            let mut formulas = structures_of(alloc, members, binding, version, terms)?;
            let under = Interpretation {
                binding,
                version,
                terms: terms.count(),
            };
            push_all_apart(alloc, under, members, &mut formulas)?;
            Ok(Formula::And(formulas))
        }
        Assertion::Cases { test, yes, no } => {
            let taken = structure_of(alloc, yes, binding, version, terms)?;
            let otherwise = structure_of(alloc, no, binding, version, terms)?;
            Ok(cases(alloc, test, binding, taken, otherwise)?)
        }
    }
}

#[cycle(structure)]
fn structures_of(
    alloc: Global,
    assertions: &[Assertion],
    binding: &Binding,
    version: u8,
    terms: &TermList,
) -> Result<Vec<Formula>, AllocError>
    ensures { IfOk result (λ fs. ground_formula_list fs.items ≡ structures_of binding.now terms.now version assertions.now) }
{
    let mut formulas = Vec::new(alloc);
    for assertion in assertions {
        formulas.push(structure_of(alloc, assertion, binding, version, terms)?)?;
    }
    Ok(formulas)
}
