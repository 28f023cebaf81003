//! Reading a script.

ghost use Rattle.std.specs.Prelude.{◌≡◌, ◌+◌, ◌++◌, ℕ, List, codes, Some, IfOk, MatchOption};
ghost use Rattle.std.specs.Fmt.{decimal};
ghost use Rattle.gh_base.specs.Grounds.{Problem};
ghost use Rattle.gh_log.specs.Reading.{EndsNumber, IsNotFront, IsPartRead};
ghost use Rattle.gh_smt.specs.Kinds.{declared_text, start_text};
ghost use Rattle.gh_smt.specs.Texts.{version_declared, script_text};
ghost use Rattle.gh_smt.specs.Scripts.{IsScript};
ghost use Rattle.gh_smt.specs.Reading.{ReadsText, IsAssertionRead, SpellsAssertions, SpellsDeclared, SpellsScript};
ghost use Rattle.gh_smt.specs.Reading.{IsNoScript};

use crate::kind::Kind;
use crate::literals::{read_lit, read_lits};
use crate::script::Script;
use gh_base::clause::Clause;
use gh_base::sizes::Sizes;
use gh_log::cursor::Reader;
use gh_log::error::Refusal;
use std::alloc::{AllocError, Global};

/// The least number of literals that stand in one `or`.
const SEVERAL: usize = 2;

// How the text that declares a number of a kind begins.
fn start(kind: Kind) -> &'static [u8]
    ensures { result.now ≡ start_text kind }
{
    match kind {
        Kind::Term => b"(declare-fun t",
        Kind::Version => b"(declare-fun b",
        Kind::Definition => b"(declare-fun d",
    }
}

// Takes a number between two texts.
fn take_around(
    reader: &mut Reader<'_>,
    before: &[u8],
    number: u32,
    after: &[u8],
) -> Result<(), Refusal>
    requires { (rest : List ℕ) → EndsNumber (after.now ++ rest) }
    ensures { ReadsText (before.now ++ (decimal number ++ after.now)) reader.old.rest.now result reader.new.rest.now }
{
    if !reader.skip(before) {
        return Err(Refusal::Outside);
    }
    let found = reader.number(u32::MAX)?;
    if found != number {
        return Err(Refusal::Outside);
    }
    if !reader.skip(after) {
        return Err(Refusal::Outside);
    }
    Ok(())
}

// Takes what declares the relations of a version.
fn take_relations(reader: &mut Reader<'_>, number: u32) -> Result<(), Refusal>
    ensures { ReadsText (version_declared number) reader.old.rest.now result reader.new.rest.now }
{
    take_around(reader, b"(declare-fun b", number, b" (Loc Loc Loc) Bool)\n")?;
    take_around(reader, b"(declare-fun h", number, b" (Loc Loc) Bool)\n")?;
    take_around(reader, b"(declare-fun a", number, b" (Loc) Bool)\n")?;
    Ok(())
}

// Takes what one number of a kind declares.
fn take_declared(reader: &mut Reader<'_>, kind: Kind, number: u32) -> Result<(), Refusal>
    ensures { ReadsText (declared_text kind number) reader.old.rest.now result reader.new.rest.now }
{
    match kind {
        Kind::Term => take_around(reader, b"(declare-fun t", number, b" () Loc)\n"),
        Kind::Version => take_relations(reader, number),
        Kind::Definition => take_around(reader, b"(declare-fun d", number, b" () Bool)\n"),
    }
}

// Takes what the numbers of a kind declare, from 0 on, and counts them.
fn count_declared(reader: &mut Reader<'_>, kind: Kind, limit: u32) -> Result<u32, Refusal>
    ensures { IsPartRead (SpellsDeclared kind limit 0 reader.old.rest.now) (λ n. n) result reader.new.rest.now }
{
    let mut count = 0;
    'declared: while reader.is_next(start(kind)) {
        if count == limit {
            return Err(Refusal::Outside);
        }
        take_declared(reader, kind, count)?;
        count += 1;
    }
    Ok(count)
}

// Reads an assertion of several literals after its first words.
fn read_several(reader: &mut Reader<'_>, alloc: Global, sizes: Sizes) -> Result<Clause, Refusal>
    ensures { IsAssertionRead sizes (codes "(assert (or" ++ reader.old.rest.now) result reader.new.rest.now }
{
    let clause = read_lits(reader, alloc, sizes)?;
    if clause.lits().len() < SEVERAL {
        return Err(Refusal::Outside);
    }
    Ok(clause)
}

// Reads an assertion of one literal after its first word.
fn read_single(reader: &mut Reader<'_>, alloc: Global, sizes: Sizes) -> Result<Clause, Refusal>
    requires { IsNotFront (codes "(or") reader.old.rest.now }
    ensures { IsAssertionRead sizes (codes "(assert " ++ reader.old.rest.now) result reader.new.rest.now }
{
    let lit = read_lit(reader, sizes)?;
    if !reader.skip(b")\n") {
        return Err(Refusal::Outside);
    }
    Ok(Clause::from_array(alloc, [lit]))
}

// Reads an assertion.
fn read_assertion(reader: &mut Reader<'_>, alloc: Global, sizes: Sizes) -> Result<Clause, Refusal>
    ensures { IsAssertionRead sizes reader.old.rest.now result reader.new.rest.now }
{
    if reader.skip(b"(assert (or") {
        return read_several(reader, alloc, sizes);
    }
    if !reader.skip(b"(assert ") {
        return Err(Refusal::Outside);
    }
    read_single(reader, alloc, sizes)
}

// Reads assertions to the end of a script.
fn read_assertions(
    reader: &mut Reader<'_>,
    alloc: Global,
    sizes: Sizes,
) -> Result<Vec<Clause>, Refusal>
    ensures { IsPartRead (SpellsAssertions sizes reader.old.rest.now) (λ v. v.items) result reader.new.rest.now }
{
    let mut asserted = Vec::new(alloc);
    'assertions: loop {
        if reader.skip(b"(check-sat)\n(exit)\n") {
            return Ok(asserted);
        }
        asserted.push(read_assertion(reader, alloc, sizes)?)?;
    }
}

// Reads a script.
fn read_whole(reader: &mut Reader<'_>, alloc: Global) -> Result<Script, Refusal>
    ensures { IsPartRead (SpellsScript reader.old.rest.now) (λ p. p) result reader.new.rest.now }
{
    if !reader.skip(b"(set-logic QF_UF)\n(declare-sort Loc 0)\n") {
        return Err(Refusal::Outside);
    }
    let terms = count_declared(reader, Kind::Term, 255)?;
    let versions = count_declared(reader, Kind::Version, 255)?;
    let defs = count_declared(reader, Kind::Definition, u32::MAX)?;
    let sizes = Sizes {
        terms: terms as u8,
        versions: versions as u8,
        defs,
    };
    let asserted = read_assertions(reader, alloc, sizes)?;
    Ok(Script::new(sizes, asserted))
}

/// Reads a script: the one whose text this is, of which no assertion is empty and each atom is in
/// range. None exactly where there is no such script.
pub fn read_script(alloc: Global, text: &[u8]) -> Result<Option<Script>, AllocError>
    ensures found { IfOk result (λ found. MatchOption found (IsNoScript text.now) (λ s. text.now ≡ script_text s)) }
    ensures is { IfOk result (λ found. MatchOption found (IsNoScript text.now) (λ s. IsScript s)) }
    ensures back { IfOk result (λ found. (p : Problem) →
        IsScript p → text.now ≡ script_text p → found ≡ Some p) }
{
    let mut reader = Reader { rest: text };
    match read_whole(&mut reader, alloc) {
        Ok(script) => {
            if !reader.rest.is_empty() {
                return Ok(None);
            }
            Ok(Some(script))
        }
        Err(Refusal::Outside) => Ok(None),
        Err(Refusal::OutOfMemory) => Err(AllocError),
    }
}
