//! Names and the terms that they are bound to.

ghost use Rattle.std.specs.Prelude.{◌≡◌, ◌↔◌, [], OnOk, OnErr, IsSome, position, Contains};
ghost use Rattle.std.specs.Str.{bytes_eq};
ghost use Rattle.gh_grass.specs.Bindings.{bound_names, term_in, IsBound};

use gh_base::atom::Term;
use gh_base::name::Name;
use std::alloc::{AllocError, Global};
use std::marker::Model;

/// A name and its term.
#[derive(Debug, Drop)]
pub struct Bond {
    pub name: Name,
    pub term: Term,
}

/// Distinct names with their terms. Contracts see it as the list of them.
#[derive(Debug, Drop)]
pub struct Binding {
    bonds: Vec<Bond>,
}

impl Model for Binding {
    ghost use Rattle.std.specs.Prelude.{List};
    ghost use Rattle.gh_grass.specs.declared.binding.Bond.{Bond};
    ghost use Rattle.gh_grass.specs.Bindings.{AreDistinct};

    ghost Value = { List Bond };

    ghost view = { λ b. b.bonds.items };

    ghost invariant = { λ b. AreDistinct b.bonds.items };
}

// Where a name is listed.
fn place(bonds: &[Bond], name: &[u8]) -> Option<usize>
    ensures { result ≡ position (λ b. bytes_eq b.name name.now) bonds.now }
{
    bonds.iter().position(|bond| bond.name.bytes() == name)
}

impl Binding {
    /// No name is bound.
    pub fn new(alloc: Global) -> Binding
        ensures { result ≡ [] }
    {
        Binding {
            bonds: Vec::new(alloc),
        }
    }

    /// Binds a name to a term. Other names stay.
    pub fn set(&mut self, alloc: Global, name: &Name, term: Term) -> Result<(), AllocError>
        ensures ok { OnOk result (IsBound self.old self.new name.now term) }
        ensures err { OnErr result (self.new ≡ self.old) }
    {
        match place(self.bonds.as_slice(), name.bytes()) {
            Some(i) => {
                self.bonds[i].term = term;
                Ok(())
            }
            None => {
                let name = name.copy(alloc)?;
                self.bonds.push(Bond { name, term })?;
                Ok(())
            }
        }
    }

    /// The term of a name, if it is bound.
    pub fn get(&self, name: &Name) -> Option<Term>
        ensures value { result ≡ term_in self.now name.now }
        ensures there { IsSome result ↔ Contains (bound_names self.now) name.now }
    {
        match place(self.bonds.as_slice(), name.bytes()) {
            Some(i) => Some(self.bonds[i].term),
            None => None,
        }
    }
}
