//! Writing a log.

ghost use Rattle.std.specs.Prelude.{◌≡◌, ◌++◌, [], codes, OnOk, IfOk};
ghost use Rattle.std.specs.List.{flat_map};
ghost use Rattle.std.specs.Fmt.{decimal};
ghost use Rattle.gh_log.specs.Lines.{Hinted};
ghost use Rattle.gh_log.specs.Texts.{Adds, dotted, atom_text, sign_text, lits_text, term_text, numbers_text, line_text};
ghost use Rattle.gh_log.specs.Texts.{section_text, log_text, name_text};
ghost use Rattle.gh_log.specs.Tables.{line_of};
ghost use Rattle.gh_log.specs.Spelled.{IsVersion, AreOfVersion, lines_of};
ghost use Rattle.gh_inst.specs.Instances.{tuple_of};

use crate::lines::{Log, LogLine, Section};
use gh_base::atom::{Atom, Lit, Term};
use gh_base::text::Text;
use gh_inst::naming::InstanceName;
use itoa::Buffer;
use std::alloc::{AllocError, Global};

fn put(out: &mut Text, text: &[u8]) -> Result<(), AllocError>
    ensures { OnOk result (Adds out.old out.new text.now) }
{
    out.push(text)?;
    Ok(())
}

fn put_number(out: &mut Text, number: usize) -> Result<(), AllocError>
    ensures { OnOk result (Adds out.old out.new (decimal number)) }
{
    put(out, Buffer::new().format(number).as_bytes())?;
    Ok(())
}

// `.` and a number
fn put_dotted(out: &mut Text, number: usize) -> Result<(), AllocError>
    ensures { OnOk result (Adds out.old out.new (dotted number)) }
{
    put(out, b".")?;
    put_number(out, number)?;
    Ok(())
}

// `.` and the number of a term
fn put_term(out: &mut Text, term: Term) -> Result<(), AllocError>
    ensures { OnOk result (Adds out.old out.new (dotted term.0)) }
{
    put_dotted(out, usize::from(term.0))
}

// A letter and `.` and a version
fn put_versioned(out: &mut Text, letter: &[u8], version: u8) -> Result<(), AllocError>
    ensures { OnOk result (Adds out.old out.new (letter.now ++ dotted version)) }
{
    put(out, letter)?;
    put_dotted(out, usize::from(version))?;
    Ok(())
}

fn put_atom(out: &mut Text, atom: Atom) -> Result<(), AllocError>
    ensures { OnOk result (Adds out.old out.new (atom_text atom)) }
{
    match atom {
        Atom::Eq { a, b } => {
            put(out, b"E")?;
            put_term(out, a)?;
            put_term(out, b)?;
        }
        Atom::Btwn { version, x, y, z } => {
            put_versioned(out, b"B", version)?;
            put_term(out, x)?;
            put_term(out, y)?;
            put_term(out, z)?;
        }
        Atom::Hop { version, x, v } => {
            put_versioned(out, b"H", version)?;
            put_term(out, x)?;
            put_term(out, v)?;
        }
        Atom::Alloc { version, x } => {
            put_versioned(out, b"A", version)?;
            put_term(out, x)?;
        }
        Atom::Def { number } => {
            put(out, b"D")?;
            put_dotted(out, number as usize)?;
        }
    }
    Ok(())
}

fn put_sign(out: &mut Text, positive: bool) -> Result<(), AllocError>
    ensures { OnOk result (Adds out.old out.new (Rattle.std.specs.Prelude.cond positive [] (codes "-"))) }
{
    put(out, if positive { b"" } else { b"-" })
}

// A literal after a space
fn put_lit(out: &mut Text, lit: Lit) -> Result<(), AllocError>
    ensures { OnOk result (Adds out.old out.new (codes " " ++ sign_text lit ++ atom_text lit.atom)) }
{
    put(out, b" ")?;
    put_sign(out, lit.positive)?;
    put_atom(out, lit.atom)?;
    Ok(())
}

// A letter, literals and what ends them
fn put_clause(out: &mut Text, letter: &[u8], lits: &[Lit], end: &[u8]) -> Result<(), AllocError>
    ensures { OnOk result (Adds out.old out.new (letter.now ++ lits_text lits.now ++ end.now)) }
{
    put(out, letter)?;
    for lit in lits {
        put_lit(out, *lit)?;
    }
    put(out, end)?;
    Ok(())
}

// Numbers, each after a space
fn put_numbers(out: &mut Text, numbers: &[u32]) -> Result<(), AllocError>
    ensures { OnOk result (Adds out.old out.new (numbers_text numbers.now)) }
{
    for number in numbers {
        put(out, b" ")?;
        put_number(out, *number as usize)?;
    }
    Ok(())
}

// The line of a clause that hints show
fn put_hinted(out: &mut Text, lits: &[Lit], hints: &[u32]) -> Result<(), AllocError>
    ensures { OnOk result (Adds out.old out.new (line_text (Hinted lits.now hints.now))) }
{
    put_clause(out, b"l", lits, b" ;")?;
    put_numbers(out, hints)?;
    put(out, b"\n")?;
    Ok(())
}

// Terms, each after a space
fn put_terms(out: &mut Text, terms: &[Term]) -> Result<(), AllocError>
    ensures { OnOk result (Adds out.old out.new (flat_map term_text terms.now)) }
{
    for term in terms {
        put(out, b" ")?;
        put_number(out, usize::from(term.0))?;
    }
    Ok(())
}

// The terms of an instance, without those past its arity.
fn tuple(name: &InstanceName) -> &[Term]
    ensures { result.now ≡ tuple_of name.now }
{
    let arity = usize::from(name.arity);
    if arity > 4 {
        return &name.terms;
    }
    &name.terms[..arity]
}

// The line of an instance: its letter, and then row, version and terms
fn put_name(out: &mut Text, name: &InstanceName) -> Result<(), AllocError>
    ensures { OnOk result (Adds out.old out.new (name_text name.now)) }
{
    put(out, b"a ")?;
    put_number(out, usize::from(name.row))?;
    put(out, b" ")?;
    put_number(out, usize::from(name.version))?;
    put_terms(out, tuple(name))?;
    put(out, b"\n")?;
    Ok(())
}

fn put_line(out: &mut Text, line: LogLine<'_>) -> Result<(), AllocError>
    ensures { OnOk result (Adds out.old out.new (line_text (line_of line.entry))) }
{
    match line {
        LogLine::Axiom(name) => put_name(out, &name)?,
        LogLine::Clause { number } => {
            put(out, b"g ")?;
            put_number(out, number as usize)?;
            put(out, b"\n")?;
        }
        LogLine::Lemma(clause) => put_clause(out, b"e", clause, b"\n")?,
        LogLine::Learnt(clause) => put_clause(out, b"l", clause, b"\n")?,
        LogLine::Hinted { clause, hints } => put_hinted(out, clause, hints)?,
        LogLine::Delete { positions } => {
            put(out, b"d")?;
            put_numbers(out, positions)?;
            put(out, b"\n")?;
        }
    }
    Ok(())
}

fn put_section(out: &mut Text, number: usize, section: &Section) -> Result<(), AllocError>
    ensures { OnOk result (Adds out.old out.new (section_text number section.now.lines)) }
{
    put(out, b"condition ")?;
    put_number(out, number)?;
    put(out, b"\n")?;
    for place in 0..section.lines.len() {
        put_line(out, section.lines.line(place))?;
    }
    Ok(())
}

/// The text of a log in its version. The numbers of its sections' first lines don't matter.
pub fn write_log(alloc: Global, log: &Log) -> Result<Text, AllocError>
    requires version { IsVersion log.now.version }
    requires lines { AreOfVersion log.now.version (lines_of log.now.sections.items) }
    ensures { IfOk result (λ text. text ≡ log_text log.now.version (lines_of log.now.sections.items)) }
{
    let mut out = Text::new(alloc);
    put(&mut out, b"grass log ")?;
    put_number(&mut out, usize::from(log.version))?;
    put(&mut out, b"\n")?;
    for (index, section) in log.sections.iter().enumerate() {
        put_section(&mut out, index + 1, section)?;
    }
    Ok(out)
}
