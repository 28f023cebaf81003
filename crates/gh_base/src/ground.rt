//! Ground clauses over terms, versions and definitions.

ghost use Rattle.std.specs.Prelude.{◌≡◌, ◌∷◌, ◌++◌, ◌+◌, ◌^◌, ◌-◌, ◌<◌, ◌≤◌, [], IfSome, OnOk, OnErr, length};
ghost use Rattle.std.specs.Prelude.{slice_get, option_copied};
ghost use Rattle.gh_base.specs.Atoms.{AreInRange};
ghost use Rattle.gh_base.specs.Grounds.{IsProblem};

use crate::clause::Clause;
use crate::sizes::Sizes;
use std::alloc::{AllocError, Global};
use std::marker::Model;

/// Numbers of terms, versions and definitions, and a list of clauses whose atoms are all in range.
#[derive(Debug, Drop)]
pub struct Ground {
    sizes: Sizes,
    clauses: Vec<Clause>,
}

impl Model for Ground {
    ghost use Rattle.gh_base.specs.Grounds.{Problem, IsProblem};

    ghost Value = { Problem };

    ghost view = { λ g. record { sizes = g.sizes; clauses = g.clauses.items } };

    ghost invariant = { λ g. IsProblem (record { sizes = g.sizes; clauses = g.clauses.items }) };
}

impl Ground {
    /// No clause and no definition.
    pub fn new(alloc: Global, terms: u8, versions: u8) -> Ground
        requires terms { 1 ≤ terms }
        requires versions { 1 ≤ versions }
        ensures { result ≡ record { sizes = record { terms = terms; versions = versions; defs = 0 }; clauses = [] } }
    {
        Ground {
            sizes: Sizes {
                terms,
                versions,
                defs: 0,
            },
            clauses: Vec::new(alloc),
        }
    }

    /// Adds a definition, and answers its number.
    pub fn define(&mut self) -> u32
        requires { self.old.sizes.defs < 2 ^ 32 - 1 }
        ensures number { result ≡ self.old.sizes.defs }
        ensures counted { self.new ≡ record self.old {
          sizes = record self.old.sizes { defs = self.old.sizes.defs + 1 };
        } }
    {
        let number = self.sizes.defs;
        self.sizes.defs = number + 1;
        number
    }

    /// Adds a clause last.
    pub fn push(&mut self, clause: Clause) -> Result<(), AllocError>
        requires in_range { AreInRange self.old.sizes clause }
        requires room { length self.old.clauses < 4294967294 }
        ensures ok { OnOk result (self.new ≡ record self.old { clauses = self.old.clauses ++ clause ∷ [] }) }
        ensures err { OnErr result (self.new ≡ self.old) }
    {
        self.clauses.push(clause)?;
        Ok(())
    }

    /// The clause of a number, from 0.
    pub fn clause(&self, k: u32) -> Option<&Clause>
        ensures found { option_copied result ≡ slice_get self.now.clauses k }
        ensures in_range { IfSome result (λ c. AreInRange self.now.sizes c.now) }
    {
        self.clauses.get(k as usize)
    }

    /// How many clauses there are.
    pub fn count(&self) -> u32
        ensures count { result ≡ length self.now.clauses }
        ensures bound { result ≤ 4294967294 }
    {
        self.clauses.len() as u32
    }

    /// The numbers of terms, versions and definitions.
    pub fn sizes(&self) -> Sizes
        ensures sizes { result ≡ self.now.sizes }
        ensures valid { IsProblem self.now }
    {
        self.sizes
    }

    /// The number of terms.
    pub fn terms(&self) -> u8
        ensures { result ≡ self.now.sizes.terms }
    {
        self.sizes.terms
    }

    /// The number of versions.
    pub fn versions(&self) -> u8
        ensures { result ≡ self.now.sizes.versions }
    {
        self.sizes.versions
    }

    /// The number of definitions.
    pub fn defs(&self) -> u32
        ensures { result ≡ self.now.sizes.defs }
    {
        self.sizes.defs
    }
}
