//! Structures that give each atom a truth.

ghost use Rattle.std.specs.Prelude.{◌≡◌, ◌≤◌, ◌<◌, false, IfOk, All, length, map, vec_len};
ghost use Rattle.gh_base.specs.Atoms.{IsInRange};
ghost use Rattle.gh_base.specs.Meaning.{atom_truth};
ghost use Rattle.gh_base.specs.Structures.{AreClasses, AreTables, class_at, interpretation_of, IsEquality, with_truth};
ghost use Rattle.gh_base.specs.Structures.{ChangesTruth, known_truth};

use crate::assignment::Assignment;
use crate::atom::{Atom, Term};
use crate::sizes::Sizes;
use std::alloc::{AllocError, Global};
use std::marker::Model;

/// The class of each term, and tables of truth for the other atoms.
#[derive(Debug, Drop)]
pub struct Structure {
    sizes: Sizes,
    classes: Vec<Term>,
    table: Vec<bool>,
}

impl Model for Structure {
    ghost use Rattle.gh_base.specs.Structures.{Tables, AreTables};

    ghost Value = { Tables };

    ghost view = { λ s. record { sizes = s.sizes; classes = s.classes.items; table = s.table.items } };

    ghost invariant = { λ s. AreTables (record { sizes = s.sizes; classes = s.classes.items; table = s.table.items }) };
}

// A table in which all is false.
fn all_false(alloc: Global, count: usize) -> Result<Vec<bool>, AllocError>
    ensures all { IfOk result (λ v. vec_len v ≡ count) }
    ensures none { IfOk result (λ v. All (λ x. x ≡ false) v.items) }
{
    let mut table = Vec::with_capacity(alloc, count)?;
    for _number in 0..count {
        table.push(false)?;
    }
    Ok(table)
}

// A table with the truths that are there, and false for the others.
fn known_truths(alloc: Global, values: &[Option<bool>]) -> Result<Vec<bool>, AllocError>
    ensures { IfOk result (λ v. v.items ≡ map known_truth values.now) }
{
    let mut table = Vec::with_capacity(alloc, values.len())?;
    for value in values {
        table.push(value.unwrap_or(false))?;
    }
    Ok(table)
}

impl Structure {
    /// The structure in which term k has the class at place k, and each other atom has the truth that an assignment
    /// gives it, or is false where it gives none.
    pub fn from_assignment(
        alloc: Global,
        classes: &[Term],
        assignment: &Assignment,
    ) -> Result<Structure, AllocError>
        requires some { 1 ≤ length classes.now }
        requires all { length classes.now ≡ assignment.now.sizes.terms }
        requires classes { AreClasses classes.now }
        requires versions { 1 ≤ assignment.now.sizes.versions }
        ensures sizes { IfOk result (λ s. s.sizes ≡ assignment.now.sizes) }
        ensures classes { IfOk result (λ s. s.classes ≡ classes.now) }
        ensures truths { IfOk result (λ s. s.table ≡ map known_truth assignment.now.values) }
    {
        Ok(Structure {
            sizes: assignment.sizes(),
            classes: Vec::from_slice(alloc, classes)?,
            table: known_truths(alloc, assignment.values())?,
        })
    }

    /// The structure in which term k has the class at place k, and all else is false.
    pub fn new(
        alloc: Global,
        classes: &[Term],
        versions: u8,
        defs: u32,
    ) -> Result<Structure, AllocError>
        requires some { 1 ≤ length classes.now }
        requires few { length classes.now ≤ 255 }
        requires classes { AreClasses classes.now }
        requires versions { 1 ≤ versions }
        ensures sizes { IfOk result (λ s. s.sizes
            ≡ record { terms = length classes.now; versions = versions; defs = defs }) }
        ensures classes { IfOk result (λ s. s.classes ≡ classes.now) }
        ensures none { IfOk result (λ s. All (λ truth. truth ≡ false) s.table) }
    {
        let sizes = Sizes {
            terms: classes.len() as u8,
            versions,
            defs,
        };
        Ok(Structure {
            sizes,
            classes: Vec::from_slice(alloc, classes)?,
            table: all_false(alloc, sizes.count())?,
        })
    }

    /// The truth of an atom.
    pub fn holds(&self, atom: Atom) -> bool
        requires { IsInRange self.now.sizes atom }
        ensures { result ≡ atom_truth (interpretation_of self.now) atom }
    {
        match atom {
            Atom::Eq { a, b } => self.class(a).0 == self.class(b).0,
            _ => self.table[self.sizes.number(atom)],
        }
    }

    /// Gives an atom a truth.
    pub fn set(&mut self, atom: Atom, value: bool)
        requires in_range { IsInRange self.old.sizes atom }
        requires table { ¬ IsEquality atom }
        ensures table { self.new ≡ with_truth self.old atom value }
        ensures meaning { ChangesTruth self.old self.new atom value }
    {
        let number = self.sizes.number(atom);
        self.table[number] = value;
    }

    /// The class of a term, which is the least term of that class.
    pub fn class(&self, term: Term) -> Term
        requires { term.0 < self.now.sizes.terms }
        ensures { result.0 ≡ class_at self.now.classes term.0 }
    {
        self.classes[term.0 as usize]
    }

    /// The numbers of terms, versions and definitions.
    pub fn sizes(&self) -> Sizes
        ensures sizes { result ≡ self.now.sizes }
        ensures valid { AreTables self.now }
    {
        self.sizes
    }

    /// The number of terms.
    pub fn terms(&self) -> u8
        ensures { result ≡ self.now.sizes.terms }
    {
        self.sizes.terms
    }

    /// The number of versions.
    pub fn versions(&self) -> u8
        ensures { result ≡ self.now.sizes.versions }
    {
        self.sizes.versions
    }

    /// The number of definitions.
    pub fn defs(&self) -> u32
        ensures { result ≡ self.now.sizes.defs }
    {
        self.sizes.defs
    }
}
