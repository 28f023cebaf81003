//! Partial assignments of truth to atoms.

ghost use Rattle.std.specs.Prelude.{◌≡◌, ◌≤◌, Some, None, IfOk, All, vec_len};
ghost use Rattle.gh_base.specs.Atoms.{IsInRange, count_of};
ghost use Rattle.gh_base.specs.Assignments.{IsPartial, value_of, with_value, ChangesAtom};

use crate::atom::{Atom, Lit};
use crate::sizes::Sizes;
use std::alloc::{AllocError, Global};
use std::marker::Model;

/// For each atom in range a truth value or none.
#[derive(Debug, Drop)]
pub struct Assignment {
    sizes: Sizes,
    values: Vec<Option<bool>>,
}

impl Model for Assignment {
    ghost use Rattle.gh_base.specs.Assignments.{Partial, IsPartial};

    ghost Value = { Partial };

    ghost view = { λ a. record { sizes = a.sizes; values = a.values.items } };

    ghost invariant = { λ a. IsPartial (record { sizes = a.sizes; values = a.values.items }) };
}

// A table with no truth for each atom.
fn no_values(alloc: Global, count: usize) -> Result<Vec<Option<bool>>, AllocError>
    ensures all { IfOk result (λ v. vec_len v ≡ count) }
    ensures none { IfOk result (λ v. All (λ x. x ≡ None) v.items) }
{
    let mut values = Vec::with_capacity(alloc, count)?;
    for _number in 0..count {
        values.push(None)?;
    }
    Ok(values)
}

impl Assignment {
    /// Each atom is unassigned. More than 4,294,967,294 atoms are answered as where memory runs out.
    pub fn new(alloc: Global, terms: u8, versions: u8, defs: u32) -> Result<Assignment, AllocError>
        ensures sizes { IfOk result (λ a. a.sizes ≡ record { terms = terms; versions = versions; defs = defs }) }
        ensures none { IfOk result (λ a. All (λ v. v ≡ None) a.values) }
        ensures few { IfOk result (λ a. count_of a.sizes ≤ 4294967294) }
    {
        let sizes = Sizes {
            terms,
            versions,
            defs,
        };
        let count = sizes.count();
        if count > 4294967294 {
            return Err(AllocError);
        }
        Ok(Assignment {
            sizes,
            values: no_values(alloc, count)?,
        })
    }

    /// The truth of a literal.
    pub fn value(&self, lit: Lit) -> Option<bool>
        requires { IsInRange self.now.sizes lit.atom }
        ensures { result ≡ value_of self.now lit }
    {
        match self.values[self.sizes.number(lit.atom)] {
            None => None,
            Some(truth) => Some(truth == lit.positive),
        }
    }

    /// Makes a literal true.
    pub fn set(&mut self, lit: Lit)
        requires { IsInRange self.old.sizes lit.atom }
        ensures table { self.new ≡ with_value self.old lit.atom (Some lit.positive) }
        ensures meaning { ChangesAtom self.old self.new lit.atom (Some lit.positive) }
    {
        let number = self.sizes.number(lit.atom);
        self.values[number] = Some(lit.positive);
    }

    /// Leaves an atom unassigned.
    pub fn clear(&mut self, atom: Atom)
        requires { IsInRange self.old.sizes atom }
        ensures table { self.new ≡ with_value self.old atom None }
        ensures meaning { ChangesAtom self.old self.new atom None }
    {
        let number = self.sizes.number(atom);
        self.values[number] = None;
    }

    /// The truth of each atom, by the atom's number.
    pub fn values(&self) -> &[Option<bool>]
        ensures { result.now ≡ self.now.values }
    {
        self.values.as_slice()
    }

    /// The numbers of terms, versions and definitions.
    pub fn sizes(&self) -> Sizes
        ensures sizes { result ≡ self.now.sizes }
        ensures valid { IsPartial self.now }
    {
        self.sizes
    }
}
