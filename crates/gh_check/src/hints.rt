//! Unit propagation along hints.

ghost use Rattle.std.specs.Prelude.{◌≡◌, ◌⊎◌, ◌↔◌, ◌∷◌, ◌++◌, [], map, false, Some, None, All, Contains, IfOk, OnOk};
ghost use Rattle.std.specs.Prelude.{IsTrue};
ghost use Rattle.gh_base.specs.declared.atom.Lit.{Lit};
ghost use Rattle.gh_base.specs.Atoms.{opposite, IsInRange, AreInRange};
ghost use Rattle.gh_base.specs.Assignments.{value_of};
ghost use Rattle.gh_base.specs.Hints.{IsRefutedByHints, IsShownByHints};
ghost use Rattle.gh_check.specs.Kept.{clause_at, named, AreWithin};
ghost use Rattle.gh_check.specs.Truths.{IsTable, IsConsistent, HasOpposites, FindsOpen, IsLook};

use crate::positions::Positions;
use gh_base::assignment::Assignment;
use gh_base::atom::Lit;
use gh_base::sizes::Sizes;
use std::alloc::{AllocError, Global};
use std::marker::Model;

/// What a clause is under some truths.
#[derive(Clone, Copy)]
pub enum Look {
    /// Each literal is false.
    False,
    /// Each literal but this one is false.
    Unit(Lit),
    /// Two literals aren't false.
    Open,
}

/// The literals that are true: a table by atom, and a list by which the table is cleared.
#[derive(Drop)]
pub struct Truths {
    table: Assignment,
    lits: Vec<Lit>,
}

impl Model for Truths {
    ghost use Rattle.gh_check.specs.Truths.{TruthSet, IsTable};

    ghost Value = { TruthSet };

    ghost view = { λ t. record { sizes = t.table.sizes; lits = t.lits.items } };

    ghost invariant = { λ t. IsTable t.table t.lits.items };
}

// Takes the truth of some literals from a table.
fn erase(table: &mut Assignment, lits: &[Lit])
    requires { IsTable table.old lits.now }
    ensures sizes { table.new.sizes ≡ table.old.sizes }
    ensures none { (l : Lit) → IsInRange table.old.sizes l.atom → value_of table.new l ≡ None }
{
    for lit in lits {
        table.clear(lit.atom);
    }
}

impl Truths {
    /// No literal is true.
    pub fn new(alloc: Global, sizes: Sizes) -> Result<Truths, AllocError>
        ensures { IfOk result (λ t. t ≡ record { sizes = sizes; lits = [] }) }
    {
        Ok(Truths {
            table: Assignment::new(alloc, sizes.terms, sizes.versions, sizes.defs)?,
            lits: Vec::new(alloc),
        })
    }

    /// Makes a literal true that isn't false.
    pub fn add(&mut self, lit: Lit) -> Result<(), AllocError>
        requires range { IsInRange self.old.sizes lit.atom }
        requires not_false { Contains self.old.lits (opposite lit) → ⊥ }
        ensures added { OnOk result (self.new ≡ record self.old { lits = self.old.lits ++ lit ∷ [] }) }
        ensures consistent { OnOk result (IsConsistent self.new.lits) }
    {
        self.lits.push(lit)?;
        self.table.set(lit);
        Ok(())
    }

    /// The literals that are true.
    pub fn lits(&self) -> &[Lit]
        ensures lits { result.now ≡ self.now.lits }
        ensures range { AreInRange self.now.sizes self.now.lits }
    {
        self.lits.as_slice()
    }

    /// Leaves no literal true.
    pub fn clear(&mut self)
        ensures { self.new ≡ record self.old { lits = [] } }
    {
        erase(&mut self.table, self.lits.as_slice());
        self.lits.clear();
    }

    /// Whether a literal is false.
    pub fn is_false(&self, lit: Lit) -> bool
        requires { IsInRange self.now.sizes lit.atom }
        ensures { IsTrue result ↔ Contains self.now.lits (opposite lit) }
    {
        match self.table.value(lit) {
            None => false,
            Some(truth) => !truth,
        }
    }

    /// What the clause at a position is.
    pub fn look_at(&self, kept: &Positions<'_>, position: u32) -> Look
        requires { AreWithin self.now.sizes kept.now.clauses }
        ensures { IsLook self.now.lits (clause_at kept.now position) result }
    {
        Layers::only(self).look_at(kept, position)
    }

    // Makes literals false, where none is true. Answers whether one of them and its opposite are among them.
    fn falsify(&mut self, lits: &[Lit]) -> Result<bool, AllocError>
        requires none { self.old.lits ≡ [] }
        requires range { AreInRange self.old.sizes lits.now }
        ensures sizes { OnOk result (self.new.sizes ≡ self.old.sizes) }
        ensures clash { IfOk result (λ b. IsTrue b → HasOpposites lits.now) }
        ensures set { IfOk result (λ b. (IsTrue b → ⊥) → self.new.lits ≡ map opposite lits.now) }
        ensures consistent { IfOk result (λ b. (IsTrue b → ⊥) → IsConsistent (map opposite lits.now)) }
    {
        for lit in lits {
            let negated = lit.negated();
            if self.is_false(negated) {
                return Ok(true);
            }
            self.add(negated)?;
        }
        Ok(false)
    }

    // Takes hints in order. Answers whether the clause of one of them comes to be false.
    fn walk_hints(&mut self, kept: &Positions<'_>, hints: &[u32]) -> Result<bool, AllocError>
        requires { AreWithin self.old.sizes kept.now.clauses }
        ensures exact { IfOk result (λ b. IsTrue b ↔ IsRefutedByHints (named kept.now hints.now) self.old.lits) }
        ensures sizes { OnOk result (self.new.sizes ≡ self.old.sizes) }
    {
        for hint in hints {
            match self.look_at(kept, *hint) {
                Look::False => return Ok(true),
                Look::Unit(lit) => self.add(lit)?,
                Look::Open => return Ok(false),
            }
        }
        Ok(false)
    }

    /// Whether the clauses at the hints, taken in order, show the clause of some literals.
    pub fn are_shown(
        &mut self,
        kept: &Positions<'_>,
        lits: &[Lit],
        hints: &[u32],
    ) -> Result<bool, AllocError>
        requires range { AreInRange self.old.sizes lits.now }
        requires within { AreWithin self.old.sizes kept.now.clauses }
        ensures exact { IfOk result (λ b. IsTrue b ↔ IsShownByHints (named kept.now hints.now) lits.now) }
        ensures sizes { OnOk result (self.new.sizes ≡ self.old.sizes) }
    {
        self.clear();
        if self.falsify(lits)? {
            return Ok(true);
        }
        Ok(self.walk_hints(kept, hints)?)
    }
}

/// Truths as one set: some alone, or some and those that stand below them.
#[derive(Drop)]
pub struct Layers<'a> {
    below: Option<&'a Truths>,
    above: &'a Truths,
}

impl<'a> Model for Layers<'a> {
    ghost use Rattle.std.specs.Prelude.{◌≡◌, ◌++◌, [], ⊤, MatchOption, option_map, unwrap_or};
    ghost use Rattle.gh_check.specs.Truths.{TruthSet};

    ghost Value = { TruthSet };

    ghost view = { λ t. record {
      sizes = t.above.now.sizes;
      lits = unwrap_or (option_map (λ below. below.now.lits) t.below) [] ++ t.above.now.lits;
    } };

    ghost invariant = { λ t. MatchOption t.below ⊤ (λ below. below.now.sizes ≡ t.above.now.sizes) };
}

impl<'a> Layers<'a> {
    /// Some truths alone.
    pub fn only(truths: &'a Truths) -> Layers<'a>
        ensures { result ≡ truths.now }
    {
        Layers {
            below: None,
            above: truths,
        }
    }

    /// Some truths, and those that stand below them.
    pub fn both(below: &'a Truths, above: &'a Truths) -> Layers<'a>
        requires { above.now.sizes ≡ below.now.sizes }
        ensures { result ≡ record { sizes = below.now.sizes; lits = below.now.lits ++ above.now.lits } }
    {
        Layers {
            below: Some(below),
            above,
        }
    }

    /// Whether a literal is false.
    pub fn is_false(&self, lit: Lit) -> bool
        requires { IsInRange self.now.sizes lit.atom }
        ensures { IsTrue result ↔ Contains self.now.lits (opposite lit) }
    {
        let Some(below) = self.below else {
            return self.above.is_false(lit);
        };
        if below.is_false(lit) {
            return true;
        }
        self.above.is_false(lit)
    }

    // Whether a literal is this one or false.
    fn is_false_or(&self, lit: Lit, one: Lit) -> bool
        requires { IsInRange self.now.sizes lit.atom }
        ensures { IsTrue result ↔ ((lit ≡ one) ⊎ Contains self.now.lits (opposite lit)) }
    {
        if lit.is_same(one) {
            return true;
        }
        self.is_false(lit)
    }

    /// A literal that isn't false, if there is one.
    pub fn find_open(&self, clause: &[Lit]) -> Option<Lit>
        requires { AreInRange self.now.sizes clause.now }
        ensures { FindsOpen self.now.lits clause.now result }
    {
        for lit in clause {
            if !self.is_false(*lit) {
                return Some(*lit);
            }
        }
        None
    }

    // Whether each literal but this one is false.
    fn are_false_but(&self, clause: &[Lit], one: Lit) -> bool
        requires { AreInRange self.now.sizes clause.now }
        ensures { IsTrue result ↔ All (λ l. (l ≡ one) ⊎ Contains self.now.lits (opposite l)) clause.now }
    {
        for lit in clause {
            if !self.is_false_or(*lit, one) {
                return false;
            }
        }
        true
    }

    /// What a clause is.
    pub fn look(&self, clause: &[Lit]) -> Look
        requires { AreInRange self.now.sizes clause.now }
        ensures { IsLook self.now.lits clause.now result }
    {
        let Some(one) = self.find_open(clause) else {
            return Look::False;
        };
        if self.are_false_but(clause, one) {
            return Look::Unit(one);
        }
        Look::Open
    }

    /// What the clause at a position is.
    pub fn look_at(&self, kept: &Positions<'_>, position: u32) -> Look
        requires { AreWithin self.now.sizes kept.now.clauses }
        ensures { IsLook self.now.lits (clause_at kept.now position) result }
    {
        let clause = kept.clause(position as usize);
        self.look(clause.lits())
    }
}
