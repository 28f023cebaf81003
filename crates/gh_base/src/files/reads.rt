// The calls of files by their names.

ghost use Rattle.std.specs.Prelude.{◌≡◌, ◌<◌, ◌++◌, [], min, Some, None, is_some, drop, length, take, IfOk, OnErr};
ghost use Rattle.gh_base.specs.Outside.{Begun};
ghost use Rattle.gh_base.specs.Files.{place_of, table_in, left_in, AreNoFiles, HasMore};

use super::{File, Files};
use std::alloc::{AllocError, Global};

// Where a file of a name stands.
fn place(files: &[File], name: &[u8]) -> Option<usize>
    ensures { result ≡ place_of files.now name.now }
{
    files.iter().position(|f| f.name.as_slice() == name)
}

// Gives the first bytes, at most `most` of them.
fn give(bytes: &[u8], most: usize, into: &mut [u8]) -> usize
    ensures count { result ≡ min (min (length bytes.now) (length into.new)) most }
    ensures given { take result into.new ≡ take result bytes.now }
    ensures past { drop result into.new ≡ drop result into.old }
{
    let count = bytes.len().min(into.len()).min(most);
    into[..count].copy_from_slice(&bytes[..count]);
    count
}

impl Files {
    /// No file, and nothing begun.
    pub fn new(alloc: Global) -> Files
        ensures { AreNoFiles result }
    {
        Files {
            list: Vec::new(alloc),
            begun: None,
            at: 0,
        }
    }

    /// One file more, of a name that isn't there.
    pub fn add(&mut self, alloc: Global, name: &str, bytes: &[u8]) -> Result<(), AllocError>
        requires { table_in self.old name.now ≡ None }
        ensures added { IfOk result (λ _. HasMore (table_in self.old) (table_in self.new) name.now bytes.now) }
        ensures left { left_in self.new ≡ left_in self.old }
        ensures begun { self.new.begun ≡ self.old.begun }
        ensures refused { OnErr result (self.new.list.items ≡ self.old.list.items) }
    {
        let name = Vec::from_slice(alloc, name.as_bytes())?;
        let bytes = Vec::from_slice(alloc, bytes)?;
        self.list.push(File { name, bytes })?;
        Ok(())
    }

    /// Nothing is begun any more.
    pub fn close(&mut self)
        ensures begun { self.new.begun ≡ None }
        ensures list { self.new.list ≡ self.old.list }
    {
        self.begun = None;
    }

    /// Begins the file of a name, and says whether there is one.
    pub fn begin(&mut self, name: &str) -> bool
        ensures answer { result ≡ is_some (table_in self.old name.now) }
        ensures begins { Begun (Some (table_in self.old)) name.now result (Some (left_in self.new)) }
        ensures begun { is_some self.new.begun ≡ result }
        ensures list { self.new.list ≡ self.old.list }
    {
        self.at = 0;
        self.begun = place(self.list.as_slice(), name.as_bytes());
        self.begun.is_some()
    }

    /// Whether a file is begun.
    pub fn is_begun(&self) -> bool
        ensures { result ≡ is_some self.now.begun }
    {
        self.begun.is_some()
    }

    // What is left of the file that was begun.
    fn left(&self) -> &[u8]
        ensures { result.now ≡ left_in self.now }
    {
        match self.begun {
            None => &[],
            Some(place) => {
                let bytes = self.list[place].bytes.as_slice();
                &bytes[self.at.min(bytes.len())..]
            }
        }
    }

    /// Gives the next bytes of the file that is begun, at most `most` of them.
    pub fn read(&mut self, most: usize, into: &mut [u8]) -> usize
        requires { 0 < length into.old → 0 < most }
        ensures count { result ≡ min (min (length (left_in self.old)) (length into.new)) most }
        ensures given { left_in self.old ≡ take result into.new ++ left_in self.new }
        ensures ended { result ≡ 0 → 0 < length into.new → left_in self.new ≡ [] }
        ensures past { drop result into.new ≡ drop result into.old }
        ensures begun { self.new.begun ≡ self.old.begun }
        ensures list { self.new.list ≡ self.old.list }
    {
        let count = give(self.left(), most, into);
        self.at += count;
        count
    }
}
