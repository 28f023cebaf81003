//! Atoms, literals and clauses in a text.

ghost use Rattle.std.specs.Prelude.{◌∷◌, ◌++◌, [], codes};
ghost use Rattle.gh_log.specs.Reading.{IsPartRead};
ghost use Rattle.gh_smt.specs.Reading.{SpellsTerm, SpellsTerms, SpellsForm, SpellsAtom, SpellsLit, SpellsSpaced};
ghost use Rattle.gh_smt.specs.Reading.{SpellsLits};

use gh_base::atom::{Atom, Lit, Term};
use gh_base::clause::Clause;
use gh_base::sizes::Sizes;
use gh_log::cursor::Reader;
use gh_log::error::Refusal;
use std::alloc::Global;

// Reads a term after a space.
fn read_term(reader: &mut Reader<'_>) -> Result<Term, Refusal>
    ensures { IsPartRead (SpellsTerm reader.old.rest.now) (λ t. t.0) result reader.new.rest.now }
{
    if !reader.skip(b" t") {
        return Err(Refusal::Outside);
    }
    let number = reader.number(255)?;
    Ok(Term(number as u8))
}

// Reads a term and the sign that ends terms.
fn read_one(reader: &mut Reader<'_>) -> Result<Term, Refusal>
    ensures { IsPartRead (SpellsTerms 1 reader.old.rest.now) (λ t. t.0 ∷ []) result reader.new.rest.now }
{
    let x = read_term(reader)?;
    if !reader.skip(b")") {
        return Err(Refusal::Outside);
    }
    Ok(x)
}

// Reads two terms and that sign.
fn read_two(reader: &mut Reader<'_>) -> Result<(Term, Term), Refusal>
    ensures { IsPartRead (SpellsTerms 2 reader.old.rest.now) (λ p. p.0.0 ∷ p.1.0 ∷ []) result
        reader.new.rest.now }
{
    let x = read_term(reader)?;
    let y = read_one(reader)?;
    Ok((x, y))
}

// Reads three terms and that sign.
fn read_three(reader: &mut Reader<'_>) -> Result<(Term, Term, Term), Refusal>
    ensures { IsPartRead (SpellsTerms 3 reader.old.rest.now) (λ p. p.0.0 ∷ p.1.0 ∷ p.2.0 ∷ []) result
        reader.new.rest.now }
{
    let x = read_term(reader)?;
    let (y, z) = read_two(reader)?;
    Ok((x, y, z))
}

// Reads an equality after its sign.
fn read_equality(reader: &mut Reader<'_>) -> Result<Atom, Refusal>
    ensures { IsPartRead (SpellsForm (codes "(=" ++ reader.old.rest.now)) (λ x. x) result reader.new.rest.now }
{
    let (a, b) = read_two(reader)?;
    Ok(Atom::Eq { a, b })
}

// Reads a betweenness after its letter.
fn read_betweenness(reader: &mut Reader<'_>) -> Result<Atom, Refusal>
    ensures { IsPartRead (SpellsForm (codes "(b" ++ reader.old.rest.now)) (λ x. x) result reader.new.rest.now }
{
    let version = reader.number(255)?;
    let (x, y, z) = read_three(reader)?;
    Ok(Atom::Btwn {
        version: version as u8,
        x,
        y,
        z,
    })
}

// Reads a hop after its letter.
fn read_hop(reader: &mut Reader<'_>) -> Result<Atom, Refusal>
    ensures { IsPartRead (SpellsForm (codes "(h" ++ reader.old.rest.now)) (λ x. x) result reader.new.rest.now }
{
    let version = reader.number(255)?;
    let (x, v) = read_two(reader)?;
    Ok(Atom::Hop {
        version: version as u8,
        x,
        v,
    })
}

// Reads an allocation after its letter.
fn read_allocation(reader: &mut Reader<'_>) -> Result<Atom, Refusal>
    ensures { IsPartRead (SpellsForm (codes "(a" ++ reader.old.rest.now)) (λ x. x) result reader.new.rest.now }
{
    let version = reader.number(255)?;
    let x = read_one(reader)?;
    Ok(Atom::Alloc {
        version: version as u8,
        x,
    })
}

// Reads a defined atom after its letter.
fn read_definition(reader: &mut Reader<'_>) -> Result<Atom, Refusal>
    ensures { IsPartRead (SpellsForm (codes "d" ++ reader.old.rest.now)) (λ x. x) result reader.new.rest.now }
{
    let number = reader.number(u32::MAX)?;
    Ok(Atom::Def { number })
}

// Reads a relation or an equality of terms.
fn read_applied(reader: &mut Reader<'_>) -> Result<Atom, Refusal>
    ensures { IsPartRead (SpellsForm (codes "(" ++ reader.old.rest.now)) (λ x. x) result reader.new.rest.now }
{
    if reader.skip(b"=") {
        return read_equality(reader);
    }
    if reader.skip(b"b") {
        return read_betweenness(reader);
    }
    if reader.skip(b"h") {
        return read_hop(reader);
    }
    if reader.skip(b"a") {
        return read_allocation(reader);
    }
    Err(Refusal::Outside)
}

// Reads an atom of any numbers.
fn read_form(reader: &mut Reader<'_>) -> Result<Atom, Refusal>
    ensures { IsPartRead (SpellsForm reader.old.rest.now) (λ x. x) result reader.new.rest.now }
{
    if reader.skip(b"(") {
        return read_applied(reader);
    }
    if reader.skip(b"d") {
        return read_definition(reader);
    }
    Err(Refusal::Outside)
}

// Reads an atom in range.
fn read_atom(reader: &mut Reader<'_>, sizes: Sizes) -> Result<Atom, Refusal>
    ensures { IsPartRead (SpellsAtom sizes reader.old.rest.now) (λ x. x) result reader.new.rest.now }
{
    let atom = read_form(reader)?;
    if !sizes.has(atom) {
        return Err(Refusal::Outside);
    }
    Ok(atom)
}

// Reads a literal after the sign of a negative one.
fn read_negative(reader: &mut Reader<'_>, sizes: Sizes) -> Result<Lit, Refusal>
    ensures { IsPartRead (SpellsLit sizes (codes "(not " ++ reader.old.rest.now)) (λ l. l) result
        reader.new.rest.now }
{
    let atom = read_atom(reader, sizes)?;
    if !reader.skip(b")") {
        return Err(Refusal::Outside);
    }
    Ok(Lit {
        atom,
        positive: false,
    })
}

// Reads a literal.
pub(crate) fn read_lit(reader: &mut Reader<'_>, sizes: Sizes) -> Result<Lit, Refusal>
    ensures { IsPartRead (SpellsLit sizes reader.old.rest.now) (λ l. l) result reader.new.rest.now }
{
    if reader.skip(b"(not ") {
        return read_negative(reader, sizes);
    }
    let atom = read_atom(reader, sizes)?;
    Ok(Lit {
        atom,
        positive: true,
    })
}

// Reads a literal after a space.
fn read_spaced(reader: &mut Reader<'_>, sizes: Sizes) -> Result<Lit, Refusal>
    ensures { IsPartRead (SpellsSpaced sizes reader.old.rest.now) (λ l. l) result reader.new.rest.now }
{
    if !reader.skip(b" ") {
        return Err(Refusal::Outside);
    }
    let lit = read_lit(reader, sizes)?;
    Ok(lit)
}

// Reads literals, each after a space, to the end of their assertion.
pub(crate) fn read_lits(
    reader: &mut Reader<'_>,
    alloc: Global,
    sizes: Sizes,
) -> Result<Clause, Refusal>
    ensures { IsPartRead (SpellsLits sizes reader.old.rest.now) (λ c. c) result reader.new.rest.now }
{
    let mut clause = Clause::new(alloc);
    'literals: loop {
        if reader.skip(b"))\n") {
            return Ok(clause);
        }
        clause.push(read_spaced(reader, sizes)?)?;
    }
}
