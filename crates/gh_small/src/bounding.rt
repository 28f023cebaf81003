//! Ground clauses that also say: fewer than so many classes are allocated in the first version.

ghost use Rattle.std.specs.Prelude.{IsTrue, ◌↔◌, ◌≡◌, ◌∷◌, ◌+◌, ◌-◌, ◌*◌, ◌^◌, ◌<◌, ◌≤◌, [], OnOk, IfOk, length};
ghost use Rattle.gh_base.specs.declared.sizes.Sizes.{Sizes};
ghost use Rattle.gh_base.specs.Atoms.{AreInRange, positive, negative};
ghost use Rattle.gh_small.specs.Fewer.{leader, counter, leader_clause, begins, raises, keeps, counter_clauses};
ghost use Rattle.gh_small.specs.Fewer.{counter_row, all_leaders, all_counters, last_clause};
ghost use Rattle.gh_small.specs.Bounded.{bounded_by, with_defs, Gains, HasRoom, HasRoomFor, IsNumbered, AreSizes};

use gh_base::atom::{Atom, Lit, Term};
use gh_base::clause::Clause;
use gh_base::ground::Ground;
use std::alloc::{AllocError, Global};

// The numbers of the new definitions: those of the leaders from `first` on, then those of the counters.
#[derive(Clone, Copy, Debug, PartialEq, Eq)]
struct Numbers {
    terms: u8,
    first: u32,
    cells: u32,
}

fn positive(atom: Atom) -> Lit
    ensures { result ≡ positive atom }
{
    Lit {
        atom,
        positive: true,
    }
}

fn negative(atom: Atom) -> Lit
    ensures { result ≡ negative atom }
{
    Lit {
        atom,
        positive: false,
    }
}

impl Numbers {
    // That a term is allocated and equal to none before it.
    fn leader(self, t: u8) -> Atom
        requires numbered { IsNumbered self }
        requires within { t < self.terms }
        ensures { result ≡ leader self.first t }
    {
        Atom::Def {
            number: self.first + t as u32,
        }
    }

    // That more than `j` of the terms up to `t` are leaders.
    fn counter(self, t: u8, j: u32) -> Atom
        requires numbered { IsNumbered self }
        requires within { t < self.terms }
        requires below { j < self.cells }
        ensures { result ≡ counter self.terms self.first self.cells t j }
    {
        Atom::Def {
            number: self.first + self.terms as u32 + t as u32 * self.cells + j,
        }
    }

    // That more than 0 of the terms up to `t` are leaders, if `t` leads.
    fn begins(self, alloc: Global, t: u8) -> Clause
        requires within { t < self.terms }
        requires numbered { IsNumbered self }
        ensures clause { result ≡ begins self.terms self.first self.cells t }
        ensures in_range { (s : Sizes) → AreSizes self s → AreInRange s result }
    {
        Clause::from_array(
            alloc,
            [positive(self.counter(t, 0)), negative(self.leader(t))],
        )
    }

    // That there is one leader more up to the term after `t` than up to `t`, if that term leads.
    fn raises(self, alloc: Global, t: u8, j: u32) -> Clause
        requires within { t + 1 < self.terms }
        requires below { j + 1 < self.cells }
        requires numbered { IsNumbered self }
        ensures clause { result ≡ raises self.terms self.first self.cells t j }
        ensures in_range { (s : Sizes) → AreSizes self s → AreInRange s result }
    {
        Clause::from_array(
            alloc,
            [
                positive(self.counter(t + 1, j + 1)),
                negative(self.leader(t + 1)),
                negative(self.counter(t, j)),
            ],
        )
    }

    // That there are no fewer leaders up to the term after `t` than up to `t`.
    fn keeps(self, alloc: Global, t: u8, j: u32) -> Clause
        requires within { t + 1 < self.terms }
        requires below { j < self.cells }
        requires numbered { IsNumbered self }
        ensures clause { result ≡ keeps self.terms self.first self.cells t j }
        ensures in_range { (s : Sizes) → AreSizes self s → AreInRange s result }
    {
        Clause::from_array(
            alloc,
            [
                positive(self.counter(t + 1, j)),
                negative(self.counter(t, j)),
            ],
        )
    }

    // Adds the clause of a leader.
    fn push_leader(self, alloc: Global, ground: &mut Ground, t: u8) -> Result<(), AllocError>
        requires numbered { IsNumbered self }
        requires sizes { AreSizes self ground.old.sizes }
        requires within { t < self.terms }
        requires room { length ground.old.clauses < 4294967294 }
        ensures { OnOk result (Gains ground.old ground.new (leader_clause self.first t ∷ [])) }
    {
        let mut clause = Clause::new(alloc);
        clause.push(positive(self.leader(t)))?;
        clause.push(negative(Atom::Alloc {
            version: 0,
            x: Term(t),
        }))?;
        for u in 0..t {
            clause.push(positive(Atom::Eq {
                a: Term(u),
                b: Term(t),
            }))?;
        }
        ground.push(clause)?;
        Ok(())
    }

    // Adds the clauses of a counter.
    fn push_counter(
        self,
        alloc: Global,
        ground: &mut Ground,
        t: u8,
        j: u32,
    ) -> Result<(), AllocError>
        requires numbered { IsNumbered self }
        requires sizes { AreSizes self ground.old.sizes }
        requires within { t < self.terms }
        requires below { j < self.cells }
        requires room { HasRoomFor ground.old (counter_clauses self.terms self.first self.cells t j) }
        ensures { OnOk result (Gains ground.old ground.new (counter_clauses self.terms self.first self.cells t j)) }
    {
        if t == 0 {
            if j == 0 {
                ground.push(self.begins(alloc, 0))?;
                Ok(())
            } else {
                Ok(())
            }
        } else if j == 0 {
            ground.push(self.begins(alloc, t))?;
            ground.push(self.keeps(alloc, t - 1, 0))?;
            Ok(())
        } else {
            ground.push(self.raises(alloc, t - 1, j - 1))?;
            ground.push(self.keeps(alloc, t - 1, j))?;
            Ok(())
        }
    }

    // Adds the clauses of all leaders.
    fn push_leaders(self, alloc: Global, ground: &mut Ground) -> Result<(), AllocError>
        requires numbered { IsNumbered self }
        requires sizes { AreSizes self ground.old.sizes }
        requires room { HasRoomFor ground.old (all_leaders self.terms self.first) }
        ensures { OnOk result (Gains ground.old ground.new (all_leaders self.terms self.first)) }
    {
        for t in 0..self.terms {
            self.push_leader(alloc, ground, t)?;
        }
        Ok(())
    }

    // Adds the clauses of the counters of a term.
    fn push_row(self, alloc: Global, ground: &mut Ground, t: u8) -> Result<(), AllocError>
        requires numbered { IsNumbered self }
        requires sizes { AreSizes self ground.old.sizes }
        requires within { t < self.terms }
        requires room { HasRoomFor ground.old (counter_row self.terms self.first self.cells t) }
        ensures { OnOk result (Gains ground.old ground.new (counter_row self.terms self.first self.cells t)) }
    {
        for j in 0..self.cells {
            self.push_counter(alloc, ground, t, j)?;
        }
        Ok(())
    }

    // Adds the clauses of all counters.
    fn push_counters(self, alloc: Global, ground: &mut Ground) -> Result<(), AllocError>
        requires numbered { IsNumbered self }
        requires sizes { AreSizes self ground.old.sizes }
        requires room { HasRoomFor ground.old (all_counters self.terms self.first self.cells) }
        ensures { OnOk result (Gains ground.old ground.new (all_counters self.terms self.first self.cells)) }
    {
        for t in 0..self.terms {
            self.push_row(alloc, ground, t)?;
        }
        Ok(())
    }

    // The last clause: that fewer than `cells` of the terms are leaders.
    fn last(self, alloc: Global) -> Clause
        requires numbered { IsNumbered self }
        requires some { 1 ≤ self.terms }
        ensures { result ≡ last_clause self.terms self.first self.cells }
    {
        Clause::from_array(
            alloc,
            [negative(self.counter(self.terms - 1, self.cells - 1))],
        )
    }
}

/// Adds `more` definitions, which have the next numbers.
pub fn define_all(ground: &mut Ground, more: u32)
    requires { ground.old.sizes.defs + more < 2 ^ 32 }
    ensures { ground.new ≡ with_defs ground.old more }
{
    for _ in 0..more {
        ground.define();
    }
}

/// A copy of ground clauses.
pub fn copied(alloc: Global, ground: &Ground) -> Result<Ground, AllocError>
    ensures { IfOk result (λ g. g ≡ ground.now) }
{
    let sizes = ground.sizes();
    let mut copy = Ground::new(alloc, sizes.terms, sizes.versions);
    define_all(&mut copy, sizes.defs);
    for k in 0..ground.count() {
        let Some(clause) = ground.clause(k) else {
            unreachable!()
        };
        copy.push(clause.copy(alloc)?)?;
    }
    Ok(copy)
}

/// Whether 32 bits number the clauses and definitions of clauses that are bounded by `cells`.
pub fn has_room(ground: &Ground, cells: u32) -> bool
    requires { 1 ≤ cells }
    ensures { IsTrue result ↔ HasRoom ground.now cells }
{
    let sizes = ground.sizes();
    let terms = sizes.terms as u64;
    let cells = cells as u64;
    let clauses = ground.count() as u64 + (terms + (terms - 1) * (2 * cells) + 2);
    let defs = sizes.defs as u64 + terms + terms * cells;
    clauses <= 4294967294 && defs < 4294967296
}

/// The clauses that are given, followed by those that say: fewer than `cells` classes are allocated in version 0.
pub fn bounded(alloc: Global, ground: Ground, cells: u32) -> Result<Ground, AllocError>
    requires some { 1 ≤ cells }
    requires room { HasRoom ground cells }
    ensures { IfOk result (λ g. g ≡ bounded_by ground cells) }
{
    let mut ground = ground;
    let sizes = ground.sizes();
    let numbers = Numbers {
        terms: sizes.terms,
        first: sizes.defs,
        cells,
    };
    define_all(&mut ground, sizes.terms as u32 + sizes.terms as u32 * cells);
    numbers.push_leaders(alloc, &mut ground)?;
    numbers.push_counters(alloc, &mut ground)?;
    ground.push(numbers.last(alloc))?;
    Ok(ground)
}
