//! The least terms of the classes that asserted equalities make.

ghost use Rattle.std.specs.Prelude.{◌≡◌, ◌<◌, [], IfOk, length, map};
ghost use Rattle.gh_base.specs.declared.sizes.Sizes.{Sizes};
ghost use Rattle.gh_base.specs.Atoms.{IsInRange, AreInRange};
ghost use Rattle.gh_cc.specs.Asserted.{equality};
ghost use Rattle.gh_cc.specs.Partitions.{moved};
ghost use Rattle.gh_ground.specs.Making.{AreClassesOf, TakesIn};

use gh_base::atom::{Atom, Lit, Term};
use gh_base::sizes::Sizes;
use std::alloc::{AllocError, Global};

// The new one of two terms in the place of the old one.
fn moved(term: Term, old: Term, new: Term) -> Term
    ensures { result ≡ moved old new term }
{
    if term.0 == old.0 { new } else { term }
}

// Puts one term in the place of another.
fn relabel(classes: &mut Vec<Term>, old: Term, new: Term)
    ensures { classes.new.items ≡ map (moved old new) classes.old.items }
{
    for class in classes.iter_mut() {
        *class = moved(*class, old, new);
    }
}

// Each term alone.
fn alone(alloc: Global, terms: u8) -> Result<Vec<Term>, AllocError>
    ensures { IfOk result (λ v. AreClassesOf terms [] v.items) }
{
    let mut classes = Vec::with_capacity(alloc, terms as usize)?;
    for term in 0..terms {
        classes.push(Term(term))?;
    }
    Ok(classes)
}

// Joins the classes of two terms.
fn join(classes: &mut Vec<Term>, a: Term, b: Term)
    requires first { a.0 < length classes.old.items }
    requires second { b.0 < length classes.old.items }
    ensures { TakesIn (equality a b) classes.old.items classes.new.items }
{
    let first = classes[a.0 as usize];
    let second = classes[b.0 as usize];
    if first.0 < second.0 {
        relabel(classes, second, first);
    } else {
        relabel(classes, first, second);
    }
}

// Takes a literal in, if it is an equality that is asserted.
fn take_in(classes: &mut Vec<Term>, lit: Lit)
    requires { (s : Sizes) × (s.terms ≡ length classes.old.items) × IsInRange s lit.atom }
    ensures { TakesIn lit classes.old.items classes.new.items }
{
    if !lit.positive {
        return;
    }
    match lit.atom {
        Atom::Eq { a, b } => join(classes, a, b),
        _ => {}
    }
}

/// The class of each term, which is its least one, by the equalities among some literals.
pub(crate) fn classes_of(alloc: Global, sizes: Sizes, lits: &[Lit]) -> Result<Vec<Term>, AllocError>
    requires { AreInRange sizes lits.now }
    ensures { IfOk result (λ v. AreClassesOf sizes.terms lits.now v.items) }
{
    let mut classes = alone(alloc, sizes.terms)?;
    for lit in lits {
        take_in(&mut classes, *lit);
    }
    Ok(classes)
}
