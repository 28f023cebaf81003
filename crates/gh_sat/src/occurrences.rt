//! For each literal the numbers of the clauses that have it.

ghost use Rattle.std.specs.Prelude.{◌≡◌, ◌++◌, ◌*◌, ◌∷◌, ◌<◌, ◌≤◌, ℕ, [], Contains, IfOk, OnOk, OnErr, length};
ghost use Rattle.std.specs.Prelude.{slice_index_or, replicate};
ghost use Rattle.gh_base.specs.Atoms.{IsInRange, AreInRange, count_of};
ghost use Rattle.gh_sat.specs.Watch.{code_of, clauses_of, lists_by, AreLists, ListsMore, IsListed};

use gh_base::atom::Lit;
use gh_base::sizes::Sizes;
use std::alloc::{AllocError, Global};
use std::marker::Model;

/// A list of numbers.
#[derive(Drop)]
pub struct Numbers {
    items: Vec<u32>,
}

impl Model for Numbers {
    ghost use Rattle.std.specs.Prelude.{ℕ, List};

    ghost Value = { List ℕ };

    ghost view = { λ n. n.items.items };
}

impl Numbers {
    // No number.
    fn new(alloc: Global) -> Numbers
        ensures { result ≡ [] }
    {
        Numbers {
            items: Vec::new(alloc),
        }
    }

    // Adds a number last.
    fn push(&mut self, number: u32) -> Result<(), AllocError>
        ensures ok { OnOk result (self.new ≡ self.old ++ number ∷ []) }
        ensures err { OnErr result (self.new ≡ self.old) }
    {
        self.items.push(number)?;
        Ok(())
    }

    /// The numbers.
    pub fn items(&self) -> &[u32]
        ensures { result.now ≡ self.now }
    {
        self.items.as_slice()
    }
}

/// The lists, by literal. A list is made for a literal when it gets its first number.
#[derive(Drop)]
pub struct Occurrences {
    // The number of each literal's list. The first list has nothing, and stands for all literals with no number.
    numbers: Vec<usize>,
    lists: Vec<Numbers>,
    alloc: Global,
}

impl Model for Occurrences {
    ghost use Rattle.std.specs.Prelude.{ℕ, List};
    ghost use Rattle.gh_sat.specs.Watch.{lists_by, AreLists};

    ghost Value = { List (List ℕ) };

    ghost view = { λ o. lists_by o.lists.items o.numbers.items };

    ghost invariant = { λ o. AreLists o.lists.items o.numbers.items };
}

// The dense number of a literal.
fn code(sizes: Sizes, lit: Lit) -> usize
    requires range { IsInRange sizes lit.atom }
    requires small { count_of sizes ≤ 4294967294 }
    ensures value { result ≡ code_of sizes lit }
    ensures below { result < 2 * count_of sizes }
{
    2 * sizes.number(lit.atom) + if lit.positive { 1 } else { 0 }
}

// The number of a literal's list, which is its own. It is made if the literal has none yet.
fn own_list(
    alloc: Global,
    numbers: &mut Vec<usize>,
    lists: &mut Vec<Numbers>,
    code: usize,
) -> Result<usize, AllocError>
    requires within { code < length numbers.old.items }
    requires lists { AreLists lists.old.items numbers.old.items }
    ensures lists { AreLists lists.new.items numbers.new.items }
    ensures same { lists_by lists.new.items numbers.new.items ≡ lists_by lists.old.items numbers.old.items }
    ensures own { IfOk result (λ n. 0 < n) }
    ensures number { IfOk result (λ n. slice_index_or numbers.new.items code 0 ≡ n) }
{
    let number = numbers[code];
    if number > 0 {
        return Ok(number);
    }
    let next = lists.len();
    lists.push(Numbers::new(alloc))?;
    numbers[code] = next;
    Ok(next)
}

impl Occurrences {
    /// No list has anything, for so many atoms.
    pub fn new(alloc: Global, atoms: usize) -> Result<Occurrences, AllocError>
        requires { atoms ≤ 4294967294 }
        ensures { IfOk result (λ o. o ≡ replicate (2 * atoms) []) }
    {
        let numbers = vec![in alloc; 0; 2 * atoms]?;
        let mut lists = Vec::new(alloc);
        lists.push(Numbers::new(alloc))?;
        Ok(Occurrences {
            numbers,
            lists,
            alloc,
        })
    }

    /// The numbers of the clauses that may have a literal.
    pub fn of(&self, sizes: Sizes, lit: Lit) -> &[u32]
        requires range { IsInRange sizes lit.atom }
        requires small { count_of sizes ≤ 4294967294 }
        requires long { length self.now ≡ 2 * count_of sizes }
        ensures { result.now ≡ clauses_of sizes self.now lit }
    {
        self.lists[self.numbers[code(sizes, lit)]].items()
    }

    // Adds a number to a literal's list.
    fn add(&mut self, sizes: Sizes, lit: Lit, number: u32) -> Result<(), AllocError>
        requires range { IsInRange sizes lit.atom }
        requires small { count_of sizes ≤ 4294967294 }
        requires long { length self.old ≡ 2 * count_of sizes }
        ensures listed { OnOk result (Contains (clauses_of sizes self.new lit) number) }
        ensures more { ListsMore self.old self.new }
    {
        let (numbers, lists) = (&mut self.numbers, &mut self.lists);
        let own = own_list(self.alloc, numbers, lists, code(sizes, lit))?;
        self.lists[own].push(number)
    }

    /// Adds a clause's number to the lists of its literals.
    pub fn note(&mut self, sizes: Sizes, clause: &[Lit], number: u32) -> Result<(), AllocError>
        requires range { AreInRange sizes clause.now }
        requires small { count_of sizes ≤ 4294967294 }
        requires long { length self.old ≡ 2 * count_of sizes }
        ensures listed { OnOk result (IsListed sizes self.new clause.now number) }
        ensures more { ListsMore self.old self.new }
    {
        for lit in clause {
            self.add(sizes, *lit, number)?;
        }
        Ok(())
    }
}
