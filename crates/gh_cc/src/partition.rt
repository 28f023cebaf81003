//! Classes of terms: merged by relabelling, with the table before each merge kept for its undoing.

ghost use Rattle.std.specs.Prelude.{◌≡◌, ◌≢◌, ◌<◌, ◌≤◌, ◌++◌, ◌∷◌, [], ℕ, List, Some, slice_get, IfOk, OnOk, MatchBool};
ghost use Rattle.std.specs.Prelude.{length, take, map};
ghost use Rattle.gh_cc.specs.Uses.{IsMoved};
ghost use Rattle.gh_cc.specs.Partitions.{Merged, rep, rep_of, moved, AreMerges, ExplainsMore, disequality_of};

use gh_base::atom::{Atom, Lit, Term};
use gh_base::clause::Clause;
use std::alloc::{AllocError, Global};
use std::marker::Model;

/// An equality that merges the class of one term into that of another.
#[derive(Clone, Copy, Debug, PartialEq, Eq)]
pub struct Link {
    pub from: Term,
    pub to: Term,
}

/// A table of representatives.
#[derive(Debug, Drop)]
struct Row {
    reps: Vec<Term>,
}

impl Model for Row {
    ghost use Rattle.std.specs.Prelude.{List};
    ghost use Rattle.gh_base.specs.declared.atom.Term.{Term};

    ghost Value = { List Term };

    ghost view = { λ r. r.reps.items };
}

/// The classes of terms under some equalities.
#[derive(Debug, Drop)]
pub struct Partition {
    links: Vec<Link>,
    reps: Vec<Term>,
    saved: Vec<Row>,
}

impl Model for Partition {
    ghost use Rattle.std.specs.Prelude.{length, vec_capacity};
    ghost use Rattle.gh_cc.specs.Partitions.{Merged, IsPartition};

    ghost Value = { Merged };

    ghost view = { λ p. record { terms = length p.reps.items; links = p.links.items } };

    ghost invariant = { λ p. IsPartition p.links.items p.reps.items p.saved.items (vec_capacity p.links) };
}

// The negated equality of a link.
fn disequality(link: Link) -> Lit
    ensures { result ≡ disequality_of link }
{
    Lit {
        atom: Atom::equal(link.from, link.to),
        positive: false,
    }
}

// Each term below `terms`, in order.
fn all_terms(alloc: Global, terms: u8) -> Result<Vec<Term>, AllocError>
    ensures long { IfOk result (λ v. length v.items ≡ terms) }
    ensures each { IfOk result (λ v. (t : ℕ) → t < terms → slice_get v.items t ≡ Some (record { 0 = t })) }
{
    let mut reps = Vec::with_capacity(alloc, terms as usize)?;
    for t in 0..terms {
        reps.push(Term(t))?;
    }
    Ok(reps)
}

// The new one of two representatives in the place of the old one.
fn moved(r: Term, old: Term, new: Term) -> Term
    ensures { result ≡ moved old new r }
{
    if r.0 == old.0 { new } else { r }
}

// Puts one representative in the place of another.
fn relabel(reps: &mut Vec<Term>, old: Term, new: Term)
    ensures { reps.new.items ≡ map (moved old new) reps.old.items }
{
    for r in reps.iter_mut() {
        *r = moved(*r, old, new);
    }
}

impl Partition {
    /// Each of so many terms is alone in its class. Room for all merges is taken here.
    pub fn new(alloc: Global, terms: u8) -> Result<Partition, AllocError>
        ensures { IfOk result (λ p. p ≡ record { terms = terms; links = [] }) }
    {
        let mut saved = Vec::with_capacity(alloc, terms as usize)?;
        for _t in 0..terms {
            saved.push(Row {
                reps: all_terms(alloc, terms)?,
            })?;
        }
        Ok(Partition {
            links: Vec::with_capacity(alloc, terms as usize)?,
            reps: all_terms(alloc, terms)?,
            saved,
        })
    }

    /// The representative of a term.
    pub fn rep(&self, term: Term) -> Term
        requires { term.0 < self.now.terms }
        ensures value { result.0 ≡ rep_of self.now term.0 }
        ensures range { result.0 < self.now.terms }
    {
        self.reps[term.0 as usize]
    }

    /// The representative of a term. A term that isn't there is its own.
    pub(crate) fn class_of(&self, term: Term) -> Term
        ensures { result.0 ≡ rep_of self.now term.0 }
    {
        if (term.0 as usize) < self.reps.len() {
            return self.rep(term);
        }
        term
    }

    /// How many merges there were.
    pub fn depth(&self) -> usize
        ensures depth { result ≡ length self.now.links }
        ensures small { result < 256 }
        ensures merges { AreMerges self.now.terms self.now.links }
    {
        self.links.len()
    }

    /// Merges the class of one term into that of another.
    pub fn merge(&mut self, from: Term, to: Term)
        requires from { from.0 < self.old.terms }
        requires to { to.0 < self.old.terms }
        requires apart { rep_of self.old from.0 ≢ rep_of self.old to.0 }
        ensures { self.new ≡ record self.old { links = self.old.links ++ (record { from = from; to = to }) ∷ [] } }
    {
        let old = self.reps[from.0 as usize];
        let new = self.reps[to.0 as usize];
        let row = &mut self.saved[self.links.len()];
        row.reps.copy_from_slice(self.reps.as_slice());
        self.links.push_reserved(Link { from, to });
        relabel(&mut self.reps, old, new);
    }

    /// Leaves the first `depth` merges.
    pub fn cut(&mut self, depth: usize)
        requires { depth ≤ length self.old.links }
        ensures { self.new ≡ record self.old { links = take depth self.old.links } }
    {
        if depth < self.links.len() {
            let row = &self.saved[depth];
            self.reps.copy_from_slice(row.reps.as_slice());
            self.links.truncate(depth);
        }
    }

    // The representative of a term after the first merges.
    fn rep_after(&self, depth: usize, term: Term) -> Term
        requires depth { depth < length self.now.links }
        requires term { term.0 < self.now.terms }
        ensures { result.0 ≡ rep self.now.links depth term.0 }
    {
        let row = &self.saved[depth];
        row.reps[term.0 as usize]
    }

    // The link of a merge.
    fn link(&self, depth: usize) -> Link
        requires { depth < length self.now.links }
        ensures link { slice_get self.now.links depth ≡ Some result }
        ensures from { result.from.0 < self.now.terms }
        ensures to { result.to.0 < self.now.terms }
        ensures apart { rep self.now.links depth result.from.0 ≢ rep self.now.links depth result.to.0 }
    {
        self.links[depth]
    }

    /// Whether the last merge moved a term's class.
    pub(crate) fn is_moved(&self, term: Term) -> bool
        requires merged { 0 < length self.now.links }
        requires term { term.0 < self.now.terms }
        ensures { MatchBool result (IsMoved self.now.links term) (IsMoved self.now.links term → ⊥) }
    {
        let last = self.links.len() - 1;
        let link = self.link(last);
        self.rep_after(last, term).0 == self.rep_after(last, link.from).0
    }

    // Explains by the first merges why two terms have one class: the merge that joined them, and on
    // each side of its link those before.
    fn explain_by(
        &self,
        clause: &mut Clause,
        depth: usize,
        a: Term,
        b: Term,
    ) -> Result<(), AllocError>
        requires depth { depth ≤ length self.now.links }
        requires a { a.0 < self.now.terms }
        requires b { b.0 < self.now.terms }
        requires same { rep self.now.links depth a.0 ≡ rep self.now.links depth b.0 }
        ensures { OnOk result (ExplainsMore self.now.links a b clause.old clause.new) }
    {
        if a.0 == b.0 {
            return Ok(());
        }
        let before = depth - 1;
        let rep = self.rep_after(before, a);
        if rep.0 == self.rep_after(before, b).0 {
            return self.explain_by(clause, before, a, b);
        }
        let link = self.link(before);
        clause.push(disequality(link))?;
        if rep.0 == self.rep_after(before, link.from).0 {
            self.explain_by(clause, before, a, link.from)?;
            self.explain_by(clause, before, link.to, b)
        } else {
            self.explain_by(clause, before, a, link.to)?;
            self.explain_by(clause, before, link.from, b)
        }
    }

    /// Adds negated equalities of links to a clause: where all of these are false, the two terms, which have one class,
    /// are equal.
    pub fn explain(&self, clause: &mut Clause, a: Term, b: Term) -> Result<(), AllocError>
        requires a { a.0 < self.now.terms }
        requires b { b.0 < self.now.terms }
        requires same { rep_of self.now a.0 ≡ rep_of self.now b.0 }
        ensures { OnOk result (ExplainsMore self.now.links a b clause.old clause.new) }
    {
        self.explain_by(clause, self.links.len(), a, b)
    }
}
