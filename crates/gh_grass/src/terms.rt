//! The terms of a condition, in order of first appearance.

ghost use Rattle.std.specs.Prelude.{◌≡◌, ◌<◌, ◌∷◌, [], length, Some, slice_get, IfOk, OnErr, IfSome, IfNone, Contains};
ghost use Rattle.std.specs.Prelude.{unwrap_or};
ghost use Rattle.gh_base.specs.declared.term.TermKind.TheVariants.{Null, Next};
ghost use Rattle.gh_base.specs.Atoms.{term};
ghost use Rattle.gh_grass.specs.Bindings.{next_term, AddsNew, AreDistinctKinds, IsOnlyAt};

use gh_base::atom::Term;
use gh_base::term::TermKind;
use indexmap::IndexSet;
use std::alloc::{AllocError, Global};
use std::marker::Model;

/// Distinct kinds in order, null first, so that a term is the position of its kind. Contracts see
/// it as the list of its kinds.
#[derive(Debug, Drop)]
pub struct TermList {
    kinds: IndexSet<TermKind>,
}

impl Model for TermList {
    ghost use Rattle.std.specs.Prelude.{List};
    ghost use Rattle.gh_base.specs.declared.term.TermKind.{TermKind};
    ghost use Rattle.gh_grass.specs.Bindings.{AreTermKinds};

    ghost Value = { List TermKind };

    ghost view = { λ t. t.kinds.keys };

    ghost invariant = { λ t. AreTermKinds t.kinds.keys };
}

impl TermList {
    /// The list of null alone.
    pub fn new(alloc: Global) -> Result<TermList, AllocError>
        ensures { IfOk result (λ terms. terms ≡ Null ∷ []) }
    {
        let mut kinds = IndexSet::new(alloc);
        kinds.insert(TermKind::Null)?;
        Ok(TermList { kinds })
    }

    /// How many terms there are.
    pub fn count(&self) -> u8
        ensures { result ≡ length self.now }
    {
        self.kinds.len() as u8
    }

    /// No kind stands twice.
    pub fn sound(&self)
        ensures { AreDistinctKinds self.now }
    {
        let _ = &self.kinds;
    }

    /// The kind of a term, which is none where the term isn't below the count. Two terms of one kind are one term.
    pub fn kind(&self, term: Term) -> Option<TermKind>
        ensures value { result ≡ slice_get self.now term.0 }
        ensures only { IfSome result (λ kind. IsOnlyAt self.now kind term.0) }
    {
        self.kinds.get_index(term.0 as usize).copied()
    }

    /// The position of a kind, which is added last where it isn't there.
    pub fn add(&mut self, kind: TermKind) -> Result<Term, AllocError>
        requires room { length self.old < 255 }
        ensures place { IfOk result (λ term. slice_get self.new term.0 ≡ Some kind) }
        ensures kept { IfOk result (λ term. Contains self.old kind → self.new ≡ self.old) }
        ensures added { IfOk result (λ term. AddsNew self.old self.new kind) }
        ensures err { OnErr result (self.new ≡ self.old) }
    {
        let (place, _) = self.kinds.insert_full(kind)?;
        Ok(Term(place as u8))
    }

    /// The term of the content of the cell at a term in a version, if it is listed.
    pub fn next(&self, version: u8, of: Term) -> Option<Term>
        ensures found { IfSome result (λ term. slice_get self.now term.0 ≡ Some (Next version of)) }
        ensures missing { IfNone result (Contains self.now (Next version of) → ⊥) }
        ensures place { unwrap_or result (term 0) ≡ next_term self.now version of }
    {
        let place = self.kinds.get_index_of(&TermKind::Next { version, of })?;
        Some(Term(place as u8))
    }
}
