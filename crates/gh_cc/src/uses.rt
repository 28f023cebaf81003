//! Which terms literals mention, with the mentions of each term counted, and linked from the last to the first.

ghost use Rattle.std.specs.Prelude.{◌≡◌, ◌<◌, ◌+◌, ◌^◌, ◌∷◌, ◌++◌, ◌-◌, [], Some, All, IfOk, IfSome, length, take};
ghost use Rattle.std.specs.Prelude.{slice_get, vec_capacity};
ghost use Rattle.gh_base.specs.declared.atom.Term.{Term};
ghost use Rattle.gh_cc.specs.Uses.{AreUses, AreCounts, IsLast, times};

use gh_base::atom::Term;
use std::alloc::{AllocError, Global};
use std::marker::Model;

/// A mention of a term, and one more than the place of the mention of that term before it, or 0.
#[derive(Clone, Copy, Debug, PartialEq, Eq)]
pub struct Mention {
    pub term: Option<Term>,
    pub before: u32,
}

/// Mentions of terms, in order. Contracts see the list of the terms.
#[derive(Debug, Drop)]
pub struct Uses {
    mentions: Vec<Mention>,
    last: Vec<u32>,
    counts: Vec<u32>,
}

impl Model for Uses {
    ghost use Rattle.std.specs.Prelude.{length, vec_capacity};
    ghost use Rattle.gh_cc.specs.Uses.{Mentioned, AreMentions, terms_of};

    ghost Value = { Mentioned };

    ghost view = { λ u.
        record { terms = length u.last.items; room = vec_capacity u.mentions; list = terms_of u.mentions.items } };

    ghost invariant = { λ u. AreMentions u.mentions.items u.last.items u.counts.items };
}

// A 0 for each term.
fn none_yet(alloc: Global, terms: u8) -> Result<Vec<u32>, AllocError>
    ensures long { IfOk result (λ v. length v.items ≡ terms) }
    ensures none { IfOk result (λ v. All (λ n. n ≡ 0) v.items) }
{
    let mut last = Vec::with_capacity(alloc, terms as usize)?;
    for _t in 0..terms {
        last.push(0)?;
    }
    Ok(last)
}

// Takes the mentions from a place on back, the last one first.
fn forget(mentions: &mut Vec<Mention>, last: &mut Vec<u32>, counts: &mut Vec<u32>, len: usize)
    requires uses { AreUses mentions.old.items last.old.items }
    requires counts { AreCounts mentions.old.items counts.old.items (length last.old.items) }
    ensures uses { AreUses mentions.new.items last.new.items }
    ensures counts { AreCounts mentions.new.items counts.new.items (length last.new.items) }
    ensures mentions { mentions.new.items ≡ take len mentions.old.items }
    ensures capacity { vec_capacity mentions.new ≡ vec_capacity mentions.old }
    ensures long { length last.new.items ≡ length last.old.items }
{
    while mentions.len() > len {
        let Some(mention) = mentions.pop() else {
            break;
        };
        if let Some(term) = mention.term {
            last[term.0 as usize] = mention.before;
            counts[term.0 as usize] -= 1;
        }
    }
}

impl Uses {
    /// No mention. Room for `room` of them is taken here.
    pub fn new(alloc: Global, terms: u8, room: usize) -> Result<Uses, AllocError>
        ensures terms { IfOk result (λ u. u.terms ≡ terms) }
        ensures room { IfOk result (λ u. u.room ≡ room) }
        ensures none { IfOk result (λ u. u.list ≡ []) }
    {
        Ok(Uses {
            mentions: Vec::with_capacity(alloc, room)?,
            last: none_yet(alloc, terms)?,
            counts: none_yet(alloc, terms)?,
        })
    }

    /// Adds a mention last.
    pub fn push(&mut self, term: Option<Term>)
        requires room { length self.old.list < self.old.room }
        requires small { length self.old.list < 2 ^ 32 - 1 }
        requires range { IfSome term (λ t. t.0 < self.old.terms) }
        ensures { self.new ≡ record self.old { list = self.old.list ++ term ∷ [] } }
    {
        match term {
            None => self.mentions.push_reserved(Mention { term, before: 0 }),
            Some(named) => {
                let place = self.mentions.len() as u32;
                let before = self.last[named.0 as usize];
                self.mentions.push_reserved(Mention { term, before });
                self.last[named.0 as usize] = place + 1;
                self.counts[named.0 as usize] += 1;
            }
        }
    }

    /// Leaves the first mentions.
    pub fn cut(&mut self, len: usize)
        ensures { self.new ≡ record self.old { list = take len self.old.list } }
    {
        forget(&mut self.mentions, &mut self.last, &mut self.counts, len);
    }

    /// How many mentions of a term there are.
    pub fn times(&self, term: Term) -> u32
        requires { term.0 < self.now.terms }
        ensures { result ≡ times self.now.list term.0 }
    {
        self.counts[term.0 as usize]
    }

    /// One more than the place of the last mention of a term, or 0.
    pub fn last(&self, term: Term) -> u32
        requires { term.0 < self.now.terms }
        ensures { IsLast self.now.list term (length self.now.list) result }
    {
        self.last[term.0 as usize]
    }

    /// One more than the place of the mention of the same term before this one, or 0.
    pub fn before(&self, place: u32, term: Term) -> u32
        requires { slice_get self.now.list place ≡ Some (Some term) }
        ensures { IsLast self.now.list term place result }
    {
        self.mentions[place as usize].before
    }
}
