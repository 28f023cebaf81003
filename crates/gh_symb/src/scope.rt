//! The variables that have terms.

ghost use Rattle.std.specs.Prelude.{◌≡◌, [], IfOk, OnOk, IfSome, IfNone, map, unwrap_or};
ghost use Rattle.gh_ast.specs.Programs.{names};
ghost use Rattle.gh_path.specs.Terms.{bound, all_bound, used, renewed};
ghost use Rattle.gh_symb.specs.Reads.{LearnsOne};
ghost use Rattle.gh_symb.specs.Tables.{pair_of, bound_by, IsLastAt, NoneFrom, WalksAlways};

use crate::kinds::Kinds;
use gh_ast::Occ;
use gh_base::name::Name;
use std::alloc::{AllocError, Global};
use std::marker::Model;

/// A name and its term.
#[derive(Clone, Copy, Debug)]
pub struct Entry<'a> {
    pub name: &'a Name,
    pub term: usize,
}

/// Names with terms, in the order in which they were bound first. A name that is bound again keeps
/// its place, so there are no more entries than variables.
#[derive(Debug, Drop)]
pub struct Scope<'a> {
    entries: Vec<Entry<'a>>,
}

impl<'a> Model for Scope<'a> {
    ghost use Rattle.std.specs.Prelude.{map};
    ghost use Rattle.gh_symb.specs.Tables.{Pairs, pair_of};

    ghost Value = { Pairs };

    ghost view = { λ s. map pair_of s.entries.items };
}

// Where the last entry of a name stands.
fn last_place(entries: &[Entry<'_>], name: &[u8]) -> Option<usize>
    ensures found { IfSome result (IsLastAt entries.now name.now) }
    ensures missing { IfNone result (NoneFrom entries.now name.now 0) }
{
    let mut left = entries.len();
    while left > 0 {
        left -= 1;
        if entries[left].name.bytes() == name {
            return Some(left);
        }
    }
    None
}

impl<'a> Scope<'a> {
    /// No variable has a term.
    pub fn new(alloc: Global) -> Scope<'a>
        ensures { result ≡ [] }
    {
        Scope {
            entries: Vec::new(alloc),
        }
    }

    /// The entries in order.
    pub fn entries(&self) -> &[Entry<'a>]
        ensures { map pair_of result.now ≡ self.now }
    {
        self.entries.as_slice()
    }

    /// A copy.
    pub fn copy(&self, alloc: Global) -> Result<Scope<'a>, AllocError>
        ensures { IfOk result (λ s. s ≡ self.now) }
    {
        let entries = Vec::from_slice(alloc, self.entries.as_slice())?;
        Ok(Scope { entries })
    }

    /// The term of a variable, if it has one.
    pub fn get(&self, name: &Name) -> Option<usize>
        ensures { result ≡ bound_by self.now name.now }
    {
        match last_place(self.entries.as_slice(), name.bytes()) {
            Some(place) => Some(self.entries[place].term),
            None => None,
        }
    }

    /// The term of a variable; 0 where it has none.
    pub fn term(&self, name: &Name) -> usize
        ensures { result ≡ unwrap_or (bound_by self.now name.now) 0 }
    {
        self.get(name).unwrap_or(0)
    }

    /// Binds a variable to a term, which takes the place of the one that it had.
    pub fn bind(&mut self, name: &'a Name, term: usize) -> Result<(), AllocError>
        ensures { OnOk result (bound_by self.new ≡ bound (bound_by self.old) name.now term) }
    {
        match last_place(self.entries.as_slice(), name.bytes()) {
            Some(place) => {
                self.entries[place] = Entry { name, term };
                Ok(())
            }
            None => {
                self.entries.push(Entry { name, term })?;
                Ok(())
            }
        }
    }

    /// Binds the variable of an entry to its term, unless it had a term before.
    pub fn learn_one(&mut self, before: &Scope<'a>, entry: &Entry<'a>) -> Result<(), AllocError>
        ensures { OnOk result (LearnsOne before.now entry.now self.old self.new) }
    {
        match before.get(entry.name) {
            Some(_) => Ok(()),
            None => self.bind(entry.name, entry.term),
        }
    }

    /// Binds variables to terms, each to its own.
    pub fn bind_all(&mut self, occs: &'a [Occ], terms: &[usize]) -> Result<(), AllocError>
        ensures { OnOk result (bound_by self.new ≡ all_bound (bound_by self.old) (names occs.now) terms.now) }
    {
        for (place, occ) in occs.iter().enumerate() {
            if let Some(term) = terms.get(place) {
                self.bind(&occ.name, *term)?;
            }
        }
        Ok(())
    }

    /// A variable that has no term gets a new value. Its term is given.
    pub fn used_term(&mut self, kinds: &mut Kinds, name: &'a Name) -> Result<usize, AllocError>
        ensures used { IfOk result (λ term. WalksAlways (used name.now) kinds.old self.old kinds.new self.new) }
        ensures term { IfOk result (λ term. term ≡ unwrap_or (bound_by self.new name.now) 0) }
    {
        match self.get(name) {
            Some(term) => Ok(term),
            None => {
                let term = kinds.add_value()?;
                self.bind(name, term)?;
                Ok(term)
            }
        }
    }

    /// A variable that has no term gets a new value.
    pub fn use_name(&mut self, kinds: &mut Kinds, name: &'a Name) -> Result<(), AllocError>
        ensures { OnOk result (WalksAlways (used name.now) kinds.old self.old kinds.new self.new) }
    {
        self.used_term(kinds, name)?;
        Ok(())
    }

    /// Each of some variables gets a new value.
    pub fn renew(&mut self, kinds: &mut Kinds, occs: &'a [Occ]) -> Result<(), AllocError>
        ensures { OnOk result (WalksAlways (renewed (names occs.now)) kinds.old self.old kinds.new self.new) }
    {
        for occ in occs {
            let term = kinds.add_value()?;
            self.bind(&occ.name, term)?;
        }
        Ok(())
    }
}
