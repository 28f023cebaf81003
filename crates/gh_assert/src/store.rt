//! Stores: names with values.

ghost use Rattle.std.specs.Prelude.{◌≡◌, ◌↔◌, ◌∷◌, ◌++◌, [], OnOk, OnErr, IfOk, IsSome, position, Contains};
ghost use Rattle.std.specs.Str.{bytes_eq};
ghost use Rattle.gh_assert.specs.Stores.{listed_names, AreDistinct, listed, IsSet};

use gh_base::name::Name;
use std::alloc::{AllocError, Global};
use std::marker::Model;

/// A name and its value.
#[derive(Debug, Drop)]
pub struct Entry {
    pub name: Name,
    pub value: u32,
}

/// Distinct names with values, in the order in which they were added. Contracts see it as the list of
/// its entries.
#[derive(Debug, Drop)]
pub struct Store {
    entries: Vec<Entry>,
}

impl Model for Store {
    ghost use Rattle.std.specs.Prelude.{List};
    ghost use Rattle.gh_assert.specs.declared.store.Entry.{Entry};
    ghost use Rattle.gh_assert.specs.Stores.{AreDistinct};

    ghost Value = { List Entry };

    ghost view = { λ s. s.entries.items };

    ghost invariant = { λ s. AreDistinct s.entries.items };
}

// Where a name is listed.
fn place(entries: &[Entry], name: &[u8]) -> Option<usize>
    ensures { result ≡ position (λ e. bytes_eq e.name name.now) entries.now }
{
    entries.iter().position(|entry| entry.name.bytes() == name)
}

impl Store {
    /// The empty store.
    pub fn new(alloc: Global) -> Store
        ensures { result ≡ [] }
    {
        Store {
            entries: Vec::new(alloc),
        }
    }

    /// Adds a name with a value last.
    pub fn add(&mut self, alloc: Global, name: &Name, value: u32) -> Result<(), AllocError>
        requires new { Contains (listed_names self.old) name.now → ⊥ }
        ensures ok { OnOk result (self.new ≡ self.old ++ record { name = name.now; value = value } ∷ []) }
        ensures err { OnErr result (self.new ≡ self.old) }
    {
        let name = name.copy(alloc)?;
        self.entries.push(Entry { name, value })?;
        Ok(())
    }

    /// The value of a name, if it is listed.
    pub fn get(&self, name: &Name) -> Option<u32>
        ensures value { result ≡ listed self.now name.now }
        ensures there { IsSome result ↔ Contains (listed_names self.now) name.now }
    {
        match place(self.entries.as_slice(), name.bytes()) {
            Some(i) => Some(self.entries[i].value),
            None => None,
        }
    }

    /// Gives a listed name a value.
    pub fn set(&mut self, name: &Name, value: u32)
        requires there { Contains (listed_names self.old) name.now }
        ensures { IsSet self.old self.new name.now value }
    {
        if let Some(i) = place(self.entries.as_slice(), name.bytes()) {
            self.entries[i].value = value;
        }
    }

    /// A copy of the store.
    pub fn copy(&self, alloc: Global) -> Result<Store, AllocError>
        ensures { IfOk result (λ s. s ≡ self.now) }
    {
        let mut entries = Vec::new(alloc);
        for entry in self.entries.as_slice() {
            let name = entry.name.copy(alloc)?;
            entries.push(Entry {
                name,
                value: entry.value,
            })?;
        }
        Ok(Store { entries })
    }

    /// All entries, in their order.
    pub fn entries(&self) -> &[Entry]
        ensures same { result.now ≡ self.now }
        ensures distinct { AreDistinct result.now }
    {
        self.entries.as_slice()
    }
}
