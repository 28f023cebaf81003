//! The structure of literals.

ghost use Rattle.std.specs.Prelude.{◌≡◌, ◌≤◌, ◌<◌, ◌∷◌, ◌++◌, ◌↔◌, [], IfOk, IsTrue, List};
ghost use Rattle.gh_base.specs.declared.atom.Atom.TheVariants.{Btwn, Hop, Alloc};
ghost use Rattle.gh_base.specs.declared.atom.Lit.{Lit};
ghost use Rattle.gh_base.specs.Atoms.{IsInRange, AreInRange};
ghost use Rattle.gh_base.specs.Structures.{interpretation_of};
ghost use Rattle.gh_cc.specs.Kept.{IsRelation};
ghost use Rattle.gh_cc.specs.Partials.{IsStructureOf};
ghost use Rattle.gh_ground.specs.Making.{AreGiven, MakesTrue, IsAtom, IsOfClass, IsThird, IsSecond, IsTriple, IsLike};
ghost use Rattle.gh_ground.specs.Making.{KeepsClasses};

use crate::classes::classes_of;
use gh_base::atom::{Atom, Lit, Term};
use gh_base::sizes::Sizes;
use gh_base::structure::Structure;
use std::alloc::{AllocError, Global};

// Makes an atom true.
fn give(structure: &mut Structure, atom: Atom)
    requires range { IsInRange structure.old.sizes atom }
    requires relation { IsRelation atom }
    ensures { MakesTrue (IsAtom atom) structure.old structure.new }
{
    structure.set(atom, true);
}

// Makes the atoms true over the terms of a class.
fn give_alloc(structure: &mut Structure, version: u8, x: Term)
    requires range { IsInRange structure.old.sizes (Alloc version x) }
    ensures { MakesTrue (IsOfClass x (λ t. IsAtom (Alloc version t))) structure.old structure.new }
{
    let class = structure.class(x).0;
    for other in 0..structure.terms() {
        if structure.class(Term(other)).0 == class {
            let x = Term(other);
            give(structure, Atom::Alloc { version, x });
        }
    }
}

// Makes the atoms true whose second term is of a class.
fn give_content(structure: &mut Structure, version: u8, x: Term, v: Term)
    requires range { IsInRange structure.old.sizes (Hop version x v) }
    ensures { MakesTrue (IsOfClass v (λ t. IsAtom (Hop version x t))) structure.old structure.new }
{
    let class = structure.class(v).0;
    for other in 0..structure.terms() {
        if structure.class(Term(other)).0 == class {
            let v = Term(other);
            give(structure, Atom::Hop { version, x, v });
        }
    }
}

// Makes the atoms true over the terms of two classes.
fn give_hop(structure: &mut Structure, version: u8, x: Term, v: Term)
    requires range { IsInRange structure.old.sizes (Hop version x v) }
    ensures { MakesTrue (IsOfClass x (λ t. IsOfClass v (λ u. IsAtom (Hop version t u)))) structure.old structure.new }
{
    let class = structure.class(x).0;
    for other in 0..structure.terms() {
        if structure.class(Term(other)).0 == class {
            give_content(structure, version, Term(other), v);
        }
    }
}

// Makes the atoms true whose third term is of a class.
fn give_third(structure: &mut Structure, version: u8, x: Term, y: Term, z: Term)
    requires range { IsInRange structure.old.sizes (Btwn version x y z) }
    ensures { MakesTrue (IsThird version x y z) structure.old structure.new }
{
    let class = structure.class(z).0;
    for other in 0..structure.terms() {
        if structure.class(Term(other)).0 == class {
            let z = Term(other);
            give(structure, Atom::Btwn { version, x, y, z });
        }
    }
}

// Makes the atoms true whose second and third terms are of two classes.
fn give_second(structure: &mut Structure, version: u8, x: Term, y: Term, z: Term)
    requires range { IsInRange structure.old.sizes (Btwn version x y z) }
    ensures { MakesTrue (IsSecond version x y z) structure.old structure.new }
{
    let class = structure.class(y).0;
    for other in 0..structure.terms() {
        if structure.class(Term(other)).0 == class {
            give_third(structure, version, x, Term(other), z);
        }
    }
}

// Makes the atoms true over the terms of three classes.
fn give_btwn(structure: &mut Structure, version: u8, x: Term, y: Term, z: Term)
    requires range { IsInRange structure.old.sizes (Btwn version x y z) }
    ensures { MakesTrue (IsTriple version x y z) structure.old structure.new }
{
    let class = structure.class(x).0;
    for other in 0..structure.terms() {
        if structure.class(Term(other)).0 == class {
            give_second(structure, version, Term(other), y, z);
        }
    }
}

// Makes an atom true, over all terms of its classes.
fn give_like(structure: &mut Structure, atom: Atom)
    requires range { IsInRange structure.old.sizes atom }
    requires relation { IsRelation atom }
    ensures { MakesTrue (IsLike atom) structure.old structure.new }
{
    match atom {
        Atom::Eq { .. } => unreachable!(),
        Atom::Btwn { version, x, y, z } => give_btwn(structure, version, x, y, z),
        Atom::Hop { version, x, v } => give_hop(structure, version, x, v),
        Atom::Alloc { version, x } => give_alloc(structure, version, x),
        Atom::Def { .. } => give(structure, atom),
    }
}

// Whether an atom is no equality.
fn is_relation(atom: Atom) -> bool
    ensures { IsTrue result ↔ IsRelation atom }
{
    match atom {
        Atom::Eq { .. } => false,
        Atom::Btwn { .. } => true,
        Atom::Hop { .. } => true,
        Atom::Alloc { .. } => true,
        Atom::Def { .. } => true,
    }
}

// Takes a literal in, if it is positive and no equality. Where its atom is true, so are those over the same classes.
fn take_in(structure: &mut Structure, lit: Lit)
    requires { IsInRange structure.old.sizes lit.atom }
    ensures keeps { KeepsClasses structure.old structure.new }
    ensures given { (lits : List Lit) → AreGiven lits structure.old → AreGiven (lits ++ lit ∷ []) structure.new }
{
    if !lit.positive {
        return;
    }
    if !is_relation(lit.atom) {
        return;
    }
    if structure.holds(lit.atom) {
        return;
    }
    give_like(structure, lit.atom);
}

/// The structure of some literals: terms are equal where equalities among them make them so, and another atom is true
/// where a positive one is over the same classes.
pub(crate) fn structure_of(
    alloc: Global,
    sizes: Sizes,
    lits: &[Lit],
) -> Result<Structure, AllocError>
    requires range { AreInRange sizes lits.now }
    requires terms { 1 ≤ sizes.terms }
    requires versions { 1 ≤ sizes.versions }
    ensures sizes { IfOk result (λ s. s.sizes ≡ sizes) }
    ensures structure { IfOk result (λ s. IsStructureOf sizes lits.now (interpretation_of s)) }
{
    let classes = classes_of(alloc, sizes, lits)?;
    let mut structure = Structure::new(alloc, classes.as_slice(), sizes.versions, sizes.defs)?;
    for lit in lits {
        take_in(&mut structure, *lit);
    }
    Ok(structure)
}
