//! Atoms, literals and clauses in a text.

ghost use Rattle.std.specs.Prelude.{◌∷◌};
ghost use Rattle.gh_log.specs.Reading.{IsPartRead, SpellsAtom, SpellsLit, SpellsClause, SpellsShown, SpellsNumbers};

use crate::cursor::Reader;
use crate::error::Refusal;
use gh_base::atom::{Atom, Lit, Term};

impl<'t> Reader<'t> {
    // Reads an equality after its letter: its terms stand in order.
    fn equality(&mut self) -> Result<Atom, Refusal>
        ensures { IsPartRead (SpellsAtom (69 ∷ self.old.rest.now)) (λ x. x) result self.new.rest.now }
    {
        let (a, b) = self.pair(b'.')?;
        if a > b {
            return Err(Refusal::Outside);
        }
        Ok(Atom::Eq {
            a: Term(a),
            b: Term(b),
        })
    }

    // Reads a betweenness after its letter.
    fn betweenness(&mut self) -> Result<Atom, Refusal>
        ensures { IsPartRead (SpellsAtom (66 ∷ self.old.rest.now)) (λ x. x) result self.new.rest.now }
    {
        let (version, x) = self.pair(b'.')?;
        let (y, z) = self.pair(b'.')?;
        Ok(Atom::Btwn {
            version,
            x: Term(x),
            y: Term(y),
            z: Term(z),
        })
    }

    // Reads a hop after its letter.
    fn hop(&mut self) -> Result<Atom, Refusal>
        ensures { IsPartRead (SpellsAtom (72 ∷ self.old.rest.now)) (λ x. x) result self.new.rest.now }
    {
        let version = self.byte(b'.')?;
        let (x, v) = self.pair(b'.')?;
        Ok(Atom::Hop {
            version,
            x: Term(x),
            v: Term(v),
        })
    }

    // Reads an allocation after its letter.
    fn allocation(&mut self) -> Result<Atom, Refusal>
        ensures { IsPartRead (SpellsAtom (65 ∷ self.old.rest.now)) (λ x. x) result self.new.rest.now }
    {
        let (version, x) = self.pair(b'.')?;
        Ok(Atom::Alloc {
            version,
            x: Term(x),
        })
    }

    // Reads a defined atom after its letter.
    fn definition(&mut self) -> Result<Atom, Refusal>
        ensures { IsPartRead (SpellsAtom (68 ∷ self.old.rest.now)) (λ x. x) result self.new.rest.now }
    {
        if !self.take(b'.') {
            return Err(Refusal::Outside);
        }
        let number = self.number(u32::MAX)?;
        Ok(Atom::Def { number })
    }

    /// Reads an atom.
    pub(crate) fn atom(&mut self) -> Result<Atom, Refusal>
        ensures { IsPartRead (SpellsAtom self.old.rest.now) (λ x. x) result self.new.rest.now }
    {
        match self.any()? {
            b'E' => self.equality(),
            b'B' => self.betweenness(),
            b'H' => self.hop(),
            b'A' => self.allocation(),
            b'D' => self.definition(),
            _ => Err(Refusal::Outside),
        }
    }

    /// Reads a literal.
    pub(crate) fn lit(&mut self) -> Result<Lit, Refusal>
        ensures { IsPartRead (SpellsLit self.old.rest.now) (λ l. l) result self.new.rest.now }
    {
        let negative = self.take(b'-');
        let atom = self.atom()?;
        Ok(Lit {
            atom,
            positive: !negative,
        })
    }

    /// Reads literals, each after a space, to the end of the line.
    pub(crate) fn clause(&mut self, clause: &mut Vec<Lit>) -> Result<(), Refusal>
        ensures { IsPartRead (SpellsClause self.old.rest.now) (λ _. clause.new.items) result self.new.rest.now }
    {
        clause.clear();
        'literals: loop {
            if self.take(b'\n') {
                return Ok(());
            }
            if !self.take(b' ') {
                return Err(Refusal::Outside);
            }
            clause.push(self.lit()?)?;
        }
    }

    /// Reads literals, each after a space, to the ` ;` before hints.
    pub(crate) fn shown(&mut self, clause: &mut Vec<Lit>) -> Result<(), Refusal>
        ensures { IsPartRead (SpellsShown self.old.rest.now) (λ _. clause.new.items) result self.new.rest.now }
    {
        clause.clear();
        'literals: loop {
            if !self.take(b' ') {
                return Err(Refusal::Outside);
            }
            if self.take(b';') {
                return Ok(());
            }
            clause.push(self.lit()?)?;
        }
    }

    /// Reads numbers, each after a space, to the end of the line.
    pub(crate) fn numbers(&mut self, numbers: &mut Vec<u32>) -> Result<(), Refusal>
        ensures { IsPartRead (SpellsNumbers self.old.rest.now) (λ _. numbers.new.items) result self.new.rest.now }
    {
        numbers.clear();
        'numbers: loop {
            if self.take(b'\n') {
                return Ok(());
            }
            if !self.take(b' ') {
                return Err(Refusal::Outside);
            }
            numbers.push(self.number(u32::MAX)?)?;
        }
    }
}
