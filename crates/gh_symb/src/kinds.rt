//! The kinds of the terms of a walk, in order of first appearance.

ghost use Rattle.std.specs.Prelude.{◌≡◌, ◌≤◌, [], ◌∷◌, length, map, position, IfOk, OnOk};
ghost use Rattle.std.specs.List.{list_any};
ghost use Rattle.gh_path.specs.Admitted.{most_terms};
ghost use Rattle.gh_path.specs.Terms.{null, next, is_value, same_kind, place, added, with_value};
ghost use Rattle.gh_symb.specs.Tables.{kind_of, AreListed, IsShort};
ghost use Rattle.gh_symb.specs.Encodings.{plain_kind};
ghost use Rattle.gh_symb.specs.Inside.{AreSuccessors};

use gh_base::atom::Term;
use gh_base::term::TermKind;
use gh_grass::terms::TermList;
use std::alloc::{AllocError, Global};
use std::marker::Model;

/// What a term was made for. A walk may pass limits, so versions and terms have any size.
#[derive(Clone, Copy, Debug)]
pub enum Kind {
    Null,
    Value { number: usize },
    Next { version: usize, of: usize },
}

impl Kind {
    /// The same as it is encoded.
    fn encode(&self) -> TermKind
        requires { IsShort self.now }
        ensures { plain_kind result ≡ kind_of self.now }
    {
        match self {
            Kind::Null => TermKind::Null,
            Kind::Value { number } => TermKind::Value {
                number: *number as u16,
            },
            Kind::Next { version, of } => TermKind::Next {
                version: *version as u8,
                of: Term(*of as u8),
            },
        }
    }

    fn is_value(&self) -> bool
        ensures { result ≡ is_value (kind_of self.now) }
    {
        matches!(self, Kind::Value { .. })
    }

    fn is_next(&self, in_version: usize, of_term: usize) -> bool
        ensures { result ≡ same_kind (next in_version of_term) (kind_of self.now) }
    {
        match self {
            Kind::Next { version, of } => in_version == *version && of_term == *of,
            _ => false,
        }
    }
}

// Whether the content of the cell at a term in a version is listed.
fn has_next(kinds: &[Kind], version: usize, of: usize) -> bool
    ensures { result ≡ list_any (λ k. same_kind (next version of) (kind_of k)) kinds.now }
{
    kinds.iter().any(|kind| kind.is_next(version, of))
}

// Where the content of the cell at a term in a version is listed first.
fn next_place(kinds: &[Kind], version: usize, of: usize) -> Option<usize>
    ensures { result ≡ position (λ k. same_kind (next version of) (kind_of k)) kinds.now }
{
    kinds.iter().position(|kind| kind.is_next(version, of))
}

// Kinds as they are encoded.
fn encode_kinds(alloc: Global, kinds: &[Kind]) -> Result<TermList, AllocError>
    requires few { length kinds.now ≤ most_terms }
    requires listed { AreListed (map kind_of kinds.now) }
    requires short { AreSuccessors 256 256 (map kind_of kinds.now) }
    ensures { IfOk result (λ terms. map plain_kind terms ≡ map kind_of kinds.now) }
{
    let mut terms = TermList::new(alloc)?;
    for place in 1..kinds.len() {
        let Some(found) = kinds.get(place) else {
            return Ok(terms);
        };
        terms.add(found.encode())?;
    }
    Ok(terms)
}

/// Kinds in order. Contracts see them as a list.
#[derive(Debug, Drop)]
pub struct Kinds {
    kinds: Vec<Kind>,
}

impl Model for Kinds {
    ghost use Rattle.std.specs.Prelude.{List, map};
    ghost use Rattle.gh_path.specs.Terms as plain;
    ghost use Rattle.gh_symb.specs.Tables.{kind_of, AreListed};

    ghost Value = { List plain.Kind };

    ghost view = { λ k. map kind_of k.kinds.items };

    ghost invariant = { λ k. AreListed (map kind_of k.kinds.items) };
}

impl Kinds {
    /// Null alone.
    pub fn new(alloc: Global) -> Result<Kinds, AllocError>
        ensures { IfOk result (λ kinds. kinds ≡ null ∷ []) }
    {
        let mut kinds = Vec::new(alloc);
        kinds.push(Kind::Null)?;
        Ok(Kinds { kinds })
    }

    /// How many terms there are.
    pub fn count(&self) -> usize
        ensures { result ≡ length self.now }
    {
        self.kinds.len()
    }

    /// Adds the next value, and gives its term.
    pub fn add_value(&mut self) -> Result<usize, AllocError>
        ensures term { IfOk result (λ term. term ≡ length self.old) }
        ensures added { OnOk result (self.new ≡ with_value self.old) }
    {
        let number = self.kinds.iter().filter(|kind| kind.is_value()).count();
        let term = self.kinds.len();
        self.kinds.push(Kind::Value { number })?;
        Ok(term)
    }

    /// Adds the content of the cell at a term in a version, unless it is listed.
    pub fn add_next(&mut self, version: usize, of: usize) -> Result<(), AllocError>
        ensures { OnOk result (self.new ≡ added (next version of) self.old) }
    {
        if has_next(self.kinds.as_slice(), version, of) {
            return Ok(());
        }
        self.kinds.push(Kind::Next { version, of })?;
        Ok(())
    }

    /// The term of the content of the cell at a term in a version; their count where it isn't
    /// listed.
    pub fn next(&self, version: usize, of: usize) -> usize
        ensures { result ≡ place (next version of) self.now }
    {
        next_place(self.kinds.as_slice(), version, of).unwrap_or(self.kinds.len())
    }

    /// The kinds as they are encoded.
    pub fn encode(&self, alloc: Global) -> Result<TermList, AllocError>
        requires few { length self.now ≤ most_terms }
        requires short { AreSuccessors 256 256 self.now }
        ensures { IfOk result (λ terms. map plain_kind terms ≡ self.now) }
    {
        let terms = encode_kinds(alloc, self.kinds.as_slice())?;
        Ok(terms)
    }
}
