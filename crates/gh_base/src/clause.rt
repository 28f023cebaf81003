//! Clauses: disjunctions of literals.

ghost use Rattle.std.specs.Prelude.{◌≡◌, ◌≤◌, ◌∷◌, ◌++◌, [], OnOk, OnErr, IfOk};

use crate::atom::Lit;
use smallvec::SmallVec;
use std::alloc::{AllocError, Global};
use std::marker::Model;

/// A disjunction of literals, four of them in place. Contracts see it as the list of its literals; neither their order
/// nor a repetition changes what the clause means.
#[derive(Debug, Drop)]
pub struct Clause {
    lits: SmallVec<Lit, 4>,
}

impl Model for Clause {
    ghost use Rattle.std.specs.Prelude.{List};
    ghost use Rattle.gh_base.specs.declared.atom.Lit.{Lit};

    ghost Value = { List Lit };

    ghost view = { λ c. c.lits.items };
}

impl Clause {
    /// The empty clause.
    pub fn new(alloc: Global) -> Clause
        ensures { result ≡ [] }
    {
        Clause {
            lits: SmallVec::new(alloc),
        }
    }

    /// The clause of some literals.
    pub fn from_lits(alloc: Global, lits: &[Lit]) -> Result<Clause, AllocError>
        ensures { IfOk result (λ c. c ≡ lits.now) }
    {
        Ok(Clause {
            lits: SmallVec::from_slice(alloc, lits)?,
        })
    }

    /// The clause of at most four literals. It takes no memory.
    pub fn from_array<const L: usize>(alloc: Global, few: [Lit; L]) -> Clause
        requires { L ≤ 4 }
        ensures { result ≡ few.entry }
    {
        let mut lits = SmallVec::new(alloc);
        for i in 0..L {
            lits.push_reserved(few[i]);
        }
        Clause { lits }
    }

    /// Adds a literal last.
    pub fn push(&mut self, lit: Lit) -> Result<(), AllocError>
        ensures ok { OnOk result (self.new ≡ self.old ++ lit ∷ []) }
        ensures err { OnErr result (self.new ≡ self.old) }
    {
        self.lits.push(lit)?;
        Ok(())
    }

    /// The literals.
    pub fn lits(&self) -> &[Lit]
        ensures { result.now ≡ self.now }
    {
        self.lits.as_slice()
    }

    /// A copy of the clause.
    pub fn copy(&self, alloc: Global) -> Result<Clause, AllocError>
        ensures { IfOk result (λ c. c ≡ self.now) }
    {
        Clause::from_lits(alloc, self.lits())
    }
}
