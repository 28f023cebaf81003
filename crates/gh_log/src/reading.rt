//! Reading a log.

ghost use Rattle.std.specs.Prelude.{◌≡◌, ◌+◌, ◌<◌, ◌^◌, ◌∷◌, take, length, IfOk, IfErr};
ghost use Rattle.gh_log.specs.Texts.{log_text};
ghost use Rattle.gh_log.specs.Tables.{line_of};
ghost use Rattle.gh_log.specs.Spelled.{IsVersion, IsSpelled, ArePlaced, IsLogRefusal, lines_of};
ghost use Rattle.gh_log.specs.Reading.{IsPartRead, SpellsTerms, ArePadded, SpellsParts, SpellsLine, line_with};
ghost use Rattle.gh_log.specs.Reading.{SpellsGround, SpellsName};
ghost use Rattle.gh_log.specs.Reading.{SpellsVersion, SpellsHeader, EndsSection, SpellsSection, IsSectionRefusal};
ghost use Rattle.std.specs.Bool.{MatchBool};

use crate::cursor::Reader;
use crate::error::{LogError, Refusal};
use crate::lines::{Lines, Log, LogLine, Section};
use gh_base::atom::{Lit, Term};
use gh_inst::naming::InstanceName;
use std::alloc::Global;

// The version in which clauses are shown by all earlier lines.
const WITHOUT_HINTS: u8 = 1;

// The version in which clauses are shown along hints, and lines are deleted.
const WITH_HINTS: u8 = 2;

// The last version there is.
const LAST_VERSION: u32 = 2;

/// What a line is, when its literals and its numbers were read.
#[derive(Clone, Copy)]
enum Kind {
    Axiom(InstanceName),
    Clause { number: u32 },
    Lemma,
    Learnt,
    Hinted,
    Delete,
}

/// The literals and the numbers of the line that is read.
#[derive(Drop)]
struct Parts {
    clause: Vec<Lit>,
    numbers: Vec<u32>,
}

impl Parts {
    fn new(alloc: Global) -> Parts {
        Parts {
            clause: Vec::new(alloc),
            numbers: Vec::new(alloc),
        }
    }

    // The line of a kind.
    fn line(&self, kind: Kind) -> LogLine<'_>
        ensures { line_of result ≡ line_with self.now kind }
    {
        let clause = self.clause.as_slice();
        let numbers = self.numbers.as_slice();
        match kind {
            Kind::Axiom(name) => LogLine::Axiom(name),
            Kind::Clause { number } => LogLine::Clause { number },
            Kind::Lemma => LogLine::Lemma(clause),
            Kind::Learnt => LogLine::Learnt(clause),
            Kind::Hinted => LogLine::Hinted {
                clause,
                hints: numbers,
            },
            Kind::Delete => LogLine::Delete { positions: numbers },
        }
    }
}

impl<'t> Reader<'t> {
    // Reads up to four terms, each after a space, to the end of the line, and counts them.
    fn terms(&mut self) -> Result<([Term; 4], u8), Refusal>
        ensures read { IsPartRead (SpellsTerms 0 self.old.rest.now) (λ p. take p.1 p.0) result self.new.rest.now }
        ensures padded { IfOk result (λ p. ArePadded p.0 p.1) }
    {
        let mut terms = [Term(0); 4];
        for count in 0u8..4 {
            if self.take(b'\n') {
                return Ok((terms, count));
            }
            terms[count as usize] = Term(self.byte(b' ')?);
        }
        if !self.take(b'\n') {
            return Err(Refusal::Outside);
        }
        Ok((terms, 4))
    }

    // Reads the name of an instance after the letter of its line, to the end of the line.
    fn name(&mut self) -> Result<InstanceName, Refusal>
        ensures { IsPartRead (SpellsName self.old.rest.now) (λ n. n) result self.new.rest.now }
    {
        let (row, version) = self.pair(b' ')?;
        let (terms, arity) = self.terms()?;
        if arity == 0 {
            return Err(Refusal::Outside);
        }
        Ok(InstanceName {
            row,
            version,
            terms,
            arity,
        })
    }

    // Reads the number of a ground clause after the letter of its line, to the end of the line.
    fn ground(&mut self) -> Result<u32, Refusal>
        ensures { IsPartRead (SpellsGround self.old.rest.now) (λ k. k) result self.new.rest.now }
    {
        if !self.take(b' ') {
            return Err(Refusal::Outside);
        }
        let number = self.number(u32::MAX)?;
        if !self.take(b'\n') {
            return Err(Refusal::Outside);
        }
        Ok(number)
    }

    // Reads a clause that earlier lines show, after the letter of its line, to the end of the line.
    fn inferred(&mut self, parts: &mut Parts, version: u8) -> Result<Kind, Refusal>
        requires { IsVersion version }
        ensures { IsPartRead (SpellsLine version (108 ∷ self.old.rest.now)) (line_with parts.new) result
            self.new.rest.now }
    {
        if version == WITHOUT_HINTS {
            self.clause(&mut parts.clause)?;
            return Ok(Kind::Learnt);
        }
        self.shown(&mut parts.clause)?;
        self.numbers(&mut parts.numbers)?;
        Ok(Kind::Hinted)
    }

    // Reads a deletion after the letter of its line, to the end of the line.
    fn deletion(&mut self, parts: &mut Parts, version: u8) -> Result<Kind, Refusal>
        ensures { IsPartRead (SpellsLine version (100 ∷ self.old.rest.now)) (line_with parts.new) result
            self.new.rest.now }
    {
        if version != WITH_HINTS {
            return Err(Refusal::Outside);
        }
        self.numbers(&mut parts.numbers)?;
        Ok(Kind::Delete)
    }

    // Reads a lemma after the letter of its line, to the end of the line.
    fn lemma(&mut self, parts: &mut Parts) -> Result<Kind, Refusal>
        ensures { IsPartRead (SpellsParts (101 ∷ self.old.rest.now)) (line_with parts.new) result self.new.rest.now }
    {
        self.clause(&mut parts.clause)?;
        Ok(Kind::Lemma)
    }

    // Reads a line of a section of a log of this version.
    fn line(&mut self, parts: &mut Parts, version: u8) -> Result<Kind, Refusal>
        requires { IsVersion version }
        ensures { IsPartRead (SpellsLine version self.old.rest.now) (line_with parts.new) result self.new.rest.now }
    {
        match self.any()? {
            b'a' => Ok(Kind::Axiom(self.name()?)),
            b'g' => Ok(Kind::Clause {
                number: self.ground()?,
            }),
            b'e' => self.lemma(parts),
            b'l' => self.inferred(parts, version),
            b'd' => self.deletion(parts, version),
            _ => Err(Refusal::Outside),
        }
    }

    // Reads the first line of a log.
    fn version(&mut self) -> Result<u8, Refusal>
        ensures { IsPartRead (SpellsVersion self.old.rest.now) (λ v. v) result self.new.rest.now }
    {
        self.expect(b"grass log ")?;
        let version = self.number(LAST_VERSION)?;
        if version == 0 {
            return Err(Refusal::Outside);
        }
        if !self.take(b'\n') {
            return Err(Refusal::Outside);
        }
        Ok(version as u8)
    }

    // Reads the header of the section with this number.
    fn header(&mut self, number: u32) -> Result<(), Refusal>
        ensures { IsPartRead (SpellsHeader number self.old.rest.now) (λ u. u) result self.new.rest.now }
    {
        self.expect(b"condition ")?;
        if self.number(u32::MAX)? != number {
            return Err(Refusal::Outside);
        }
        if !self.take(b'\n') {
            return Err(Refusal::Outside);
        }
        Ok(())
    }

    // Whether the section's lines end here.
    fn ends_section(&self) -> bool
        ensures { MatchBool result (EndsSection self.now.rest.now) (EndsSection self.now.rest.now → ⊥) }
    {
        match self.rest {
            [first, ..] => *first == b'c',
            [] => true,
        }
    }

    // Reads the section with this number, whose header is the file's line `at`.
    fn section(
        &mut self,
        alloc: Global,
        version: u8,
        number: u32,
        at: u32,
    ) -> Result<Section, LogError>
        requires version { IsVersion version }
        requires small { at + length self.old.rest.now < 2 ^ 32 }
        ensures read { IfOk result (λ s. SpellsSection version number at self.old.rest.now s self.new.rest.now) }
        ensures refused { IfErr result (λ e. IsSectionRefusal version number at self.old.rest.now e) }
    {
        if let Err(refusal) = self.header(number) {
            return Err(refusal.at(at));
        }
        let mut lines = Lines::new(alloc);
        let mut parts = Parts::new(alloc);
        'lines: while !self.ends_section() {
            match self.line(&mut parts, version) {
                Ok(kind) => lines.push(parts.line(kind))?,
                Err(refusal) => return Err(refusal.at(at + 1 + lines.len() as u32)),
            }
        }
        Ok(Section {
            first: at + 1,
            lines,
        })
    }
}

/// Reads a log of either version. Otherwise the error has the number of the first line that is outside the grammar,
/// from 1.
pub fn read_log(alloc: Global, text: &[u8]) -> Result<Log, LogError>
    requires { length text.now < 4294967295 }
    ensures text { IfOk result (λ log. text.now ≡ log_text log.version (lines_of log.sections.items)) }
    ensures spelled { IfOk result (λ log. IsSpelled log.version (lines_of log.sections.items)) }
    ensures places { IfOk result (λ log. ArePlaced 2 log.sections.items) }
    ensures refused { IfErr result (λ e. IsLogRefusal text.now e) }
{
    let mut reader = Reader { rest: text };
    let version = match reader.version() {
        Ok(version) => version,
        Err(refusal) => return Err(refusal.at(1)),
    };
    let mut sections = Vec::new(alloc);
    let mut at = 2;
    'sections: while !reader.rest.is_empty() {
        let section = reader.section(alloc, version, sections.len() as u32 + 1, at)?;
        at = section.first + section.lines.len() as u32;
        sections.push(section)?;
    }
    Ok(Log { version, sections })
}
