//! Writing a script.

ghost use Rattle.std.specs.Prelude.{◌≡◌, ◌++◌, codes, All, OnOk, IfOk};
ghost use Rattle.std.specs.List.{flat_map, range_with_len};
ghost use Rattle.std.specs.Fmt.{decimal};
ghost use Rattle.gh_base.specs.Atoms.{AreInRange};
ghost use Rattle.gh_smt.specs.Texts.{Adds, version_declared, spaced_term, atom_text, lit_text, spaced_lit};
ghost use Rattle.gh_smt.specs.Texts.{assertion_text, script_text};
ghost use Rattle.gh_smt.specs.Kinds.{declared_text};
ghost use Rattle.gh_smt.specs.Scripts.{HasLits};

use crate::kind::Kind;
use crate::script::Script;
use gh_base::atom::{Atom, Lit, Term};
use gh_base::clause::Clause;
use gh_base::text::Text;
use itoa::Buffer;
use std::alloc::{AllocError, Global};

fn put(out: &mut Text, text: &[u8]) -> Result<(), AllocError>
    ensures { OnOk result (Adds out.old out.new text.now) }
{
    out.push(text)?;
    Ok(())
}

fn put_number(out: &mut Text, number: usize) -> Result<(), AllocError>
    ensures { OnOk result (Adds out.old out.new (decimal number)) }
{
    put(out, Buffer::new().format(number).as_bytes())?;
    Ok(())
}

// A text, a number and a text
fn put_around(out: &mut Text, before: &[u8], number: u32, after: &[u8]) -> Result<(), AllocError>
    ensures { OnOk result (Adds out.old out.new (before.now ++ (decimal number ++ after.now))) }
{
    put(out, before)?;
    put_number(out, number as usize)?;
    put(out, after)?;
    Ok(())
}

// The relations of a version
fn put_version(out: &mut Text, number: u32) -> Result<(), AllocError>
    ensures { OnOk result (Adds out.old out.new (version_declared number)) }
{
    put_around(out, b"(declare-fun b", number, b" (Loc Loc Loc) Bool)\n")?;
    put_around(out, b"(declare-fun h", number, b" (Loc Loc) Bool)\n")?;
    put_around(out, b"(declare-fun a", number, b" (Loc) Bool)\n")?;
    Ok(())
}

// What one number of a kind declares
fn put_declared(out: &mut Text, kind: Kind, number: u32) -> Result<(), AllocError>
    ensures { OnOk result (Adds out.old out.new (declared_text kind number)) }
{
    match kind {
        Kind::Term => put_around(out, b"(declare-fun t", number, b" () Loc)\n")?,
        Kind::Version => put_version(out, number)?,
        Kind::Definition => put_around(out, b"(declare-fun d", number, b" () Bool)\n")?,
    }
    Ok(())
}

// What the first numbers of a kind declare
fn put_all_declared(out: &mut Text, kind: Kind, count: u32) -> Result<(), AllocError>
    ensures { OnOk result (Adds out.old out.new (flat_map (declared_text kind) (range_with_len 0 count))) }
{
    for number in 0..count {
        put_declared(out, kind, number)?;
    }
    Ok(())
}

// Terms, each after a space, and the sign that ends them
fn put_terms(out: &mut Text, terms: &[Term]) -> Result<(), AllocError>
    ensures { OnOk result (Adds out.old out.new (flat_map spaced_term terms.now ++ codes ")")) }
{
    for term in terms {
        put(out, b" t")?;
        put_number(out, usize::from(term.0))?;
    }
    put(out, b")")?;
    Ok(())
}

fn put_atom(out: &mut Text, atom: Atom) -> Result<(), AllocError>
    ensures { OnOk result (Adds out.old out.new (atom_text atom)) }
{
    match atom {
        Atom::Eq { a, b } => {
            put(out, b"(=")?;
            put_terms(out, &[a, b])?;
        }
        Atom::Btwn { version, x, y, z } => {
            put(out, b"(b")?;
            put_number(out, usize::from(version))?;
            put_terms(out, &[x, y, z])?;
        }
        Atom::Hop { version, x, v } => {
            put(out, b"(h")?;
            put_number(out, usize::from(version))?;
            put_terms(out, &[x, v])?;
        }
        Atom::Alloc { version, x } => {
            put(out, b"(a")?;
            put_number(out, usize::from(version))?;
            put_terms(out, &[x])?;
        }
        Atom::Def { number } => {
            put(out, b"d")?;
            put_number(out, number as usize)?;
        }
    }
    Ok(())
}

fn put_lit(out: &mut Text, lit: Lit) -> Result<(), AllocError>
    ensures { OnOk result (Adds out.old out.new (lit_text lit)) }
{
    if lit.positive {
        put_atom(out, lit.atom)?;
        return Ok(());
    }
    put(out, b"(not ")?;
    put_atom(out, lit.atom)?;
    put(out, b")")?;
    Ok(())
}

// Literals, each after a space
fn put_lits(out: &mut Text, lits: &[Lit]) -> Result<(), AllocError>
    ensures { OnOk result (Adds out.old out.new (flat_map spaced_lit lits.now)) }
{
    for lit in lits {
        put(out, b" ")?;
        put_lit(out, *lit)?;
    }
    Ok(())
}

fn put_assertion(out: &mut Text, lits: &[Lit]) -> Result<(), AllocError>
    ensures { OnOk result (Adds out.old out.new (assertion_text lits.now)) }
{
    if lits.len() == 1 {
        put(out, b"(assert ")?;
        put_lit(out, lits[0])?;
        put(out, b")\n")?;
        return Ok(());
    }
    put(out, b"(assert (or")?;
    put_lits(out, lits)?;
    put(out, b"))\n")?;
    Ok(())
}

// The assertions, a line each
fn put_assertions(out: &mut Text, asserted: &[Clause]) -> Result<(), AllocError>
    ensures { OnOk result (Adds out.old out.new (flat_map assertion_text asserted.now)) }
{
    for clause in asserted {
        put_assertion(out, clause.lits())?;
    }
    Ok(())
}

/// The text of a script.
pub fn write_script(alloc: Global, script: &Script) -> Result<Text, AllocError>
    requires lits { All HasLits script.now.clauses }
    requires in_range { All (AreInRange script.now.sizes) script.now.clauses }
    ensures { IfOk result (λ text. text ≡ script_text script.now) }
{
    let sizes = script.sizes();
    let mut out = Text::new(alloc);
    put(&mut out, b"(set-logic QF_UF)\n(declare-sort Loc 0)\n")?;
    put_all_declared(&mut out, Kind::Term, u32::from(sizes.terms))?;
    put_all_declared(&mut out, Kind::Version, u32::from(sizes.versions))?;
    put_all_declared(&mut out, Kind::Definition, sizes.defs)?;
    put_assertions(&mut out, script.asserted())?;
    put(&mut out, b"(check-sat)\n(exit)\n")?;
    Ok(out)
}
