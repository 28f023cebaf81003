//! Sections without the lines that nothing later needs.

ghost use Rattle.std.specs.Prelude.{◌≡◌, ◌⊎◌, ◌+◌, ◌-◌, ◌<◌, ◌≤◌, ◌∷◌, [], ℕ, IfOk, IsTrue, OnOk, All, length, map};
ghost use Rattle.std.specs.Prelude.{slice_get, slice_index};
ghost use Rattle.gh_log.specs.Tables.{line_of};
ghost use Rattle.gh_ground.specs.Solving.{hints_of, FitsTypes, RefutesProblem, IsRefutationOf};
ghost use Rattle.gh_ground.specs.Trimming.{IsKeptAt, AreKeptBefore, AreHintsKept, KeepsOnly, AreNeeded, AddsMoved};
ghost use Rattle.gh_ground.specs.Trimming.{MovesLine, AddsPosition};

use gh_base::ground::Ground;
use gh_log::lines::{Lines, LogLine, Section};
use std::alloc::{AllocError, Global};

// Keeps the line at a position, if it stands before a place.
fn keep(kept: &mut Vec<bool>, position: u32, place: usize)
    requires { place ≤ length kept.old.items }
    ensures long { length kept.new.items ≡ length kept.old.items }
    ensures keeps { (k : ℕ) → IsKeptAt kept.old.items k → IsKeptAt kept.new.items k }
    ensures later { (k : ℕ) → place ≤ k → slice_get kept.new.items k ≡ slice_get kept.old.items k }
    ensures is { (k : ℕ) → position ≡ k + 1 → k < place → IsKeptAt kept.new.items k }
    ensures only { KeepsOnly kept.old.items kept.new.items place (position ∷ []) }
{
    let position = position as usize;
    if position == 0 {
        return;
    }
    if position > place {
        return;
    }
    kept[position - 1] = true;
}

// Keeps the lines at some positions that stand before a place.
fn keep_all(kept: &mut Vec<bool>, positions: &[u32], place: usize)
    requires { place ≤ length kept.old.items }
    ensures long { length kept.new.items ≡ length kept.old.items }
    ensures keeps { (k : ℕ) → IsKeptAt kept.old.items k → IsKeptAt kept.new.items k }
    ensures later { (k : ℕ) → place ≤ k → slice_get kept.new.items k ≡ slice_get kept.old.items k }
    ensures all { AreKeptBefore kept.new.items place positions.now }
    ensures only { KeepsOnly kept.old.items kept.new.items place positions.now }
{
    for position in positions {
        keep(kept, *position, place);
    }
}

// Where the line at a place is kept, keeps the earlier lines at its hints.
fn keep_hints(kept: &mut Vec<bool>, line: LogLine<'_>, place: usize)
    requires { place < length kept.old.items }
    ensures long { length kept.new.items ≡ length kept.old.items }
    ensures keeps { (k : ℕ) → IsKeptAt kept.old.items k → IsKeptAt kept.new.items k }
    ensures later { (k : ℕ) → place ≤ k → slice_get kept.new.items k ≡ slice_get kept.old.items k }
    ensures hints { IsKeptAt kept.old.items place → AreHintsKept kept.new.items place (line_of line.entry) }
    ensures only { KeepsOnly kept.old.items kept.new.items place (hints_of (line_of line.entry)) }
    ensures needed { IsKeptAt kept.old.items place ⊎ (kept.new.items ≡ kept.old.items) }
{
    if !kept[place] {
        return;
    }
    match line {
        LogLine::Hinted { hints, .. } => keep_all(kept, hints, place),
        _ => {}
    }
}

// Only the last one of some lines is kept.
fn only_last(alloc: Global, count: usize) -> Result<Vec<bool>, AllocError>
    ensures long { IfOk result (λ v. length v.items ≡ count) }
    ensures last { IfOk result (λ v. (k : ℕ) → count ≡ k + 1 → IsKeptAt v.items k) }
    ensures only { IfOk result (λ v. (k : ℕ) → IsKeptAt v.items k → count ≡ k + 1) }
{
    let mut kept = vec![in alloc; false; count]?;
    if count == 0 {
        return Ok(kept);
    }
    kept[count - 1] = true;
    Ok(kept)
}

// Which lines are kept: the last one, and with each that is kept the earlier ones at its hints; no other.
fn needed(alloc: Global, lines: &Lines) -> Result<Vec<bool>, AllocError>
    ensures { IfOk result (λ v. AreNeeded lines.now v.items 0) }
{
    let mut kept = only_last(alloc, lines.len())?;
    let mut place = lines.len();
    while place > 0 {
        place -= 1;
        keep_hints(&mut kept, lines.line(place), place);
    }
    Ok(kept)
}

// The new position of the line at a position.
fn position_of(positions: &[u32], position: u32) -> u32
    ensures { result ≡ slice_index positions.now (position - 1) }
{
    positions
        .get((position as usize).saturating_sub(1))
        .copied()
        .unwrap_or(0)
}

// Writes the new positions of hints.
fn move_hints(moved: &mut Vec<u32>, hints: &[u32], positions: &[u32]) -> Result<(), AllocError>
    ensures { OnOk result (moved.new.items ≡ map (λ h. slice_index positions.now (h - 1)) hints.now) }
{
    moved.clear();
    for hint in hints {
        moved.push(position_of(positions, *hint))?;
    }
    Ok(())
}

// Adds a line with its hints moved, which are written first. A deletion, of which no section here has one, deletes
// nothing then.
fn push_moved(
    lines: &mut Lines,
    moved: &mut Vec<u32>,
    line: LogLine<'_>,
    positions: &[u32],
) -> Result<(), AllocError>
    ensures { OnOk result (AddsMoved positions.now (line_of line.entry) lines.old lines.new) }
{
    match line {
        LogLine::Hinted { clause, hints } => {
            move_hints(moved, hints, positions)?;
            lines.push(LogLine::Hinted {
                clause,
                hints: moved.as_slice(),
            })?;
            Ok(())
        }
        LogLine::Delete { .. } => {
            lines.push(LogLine::Delete { positions: &[] })?;
            Ok(())
        }
        _ => {
            lines.push(line)?;
            Ok(())
        }
    }
}

// The lines that were kept so far, and by the place of each line that was looked at how many were kept with it: where
// it is kept, its new position.
#[derive(Drop)]
struct Trimmed {
    lines: Lines,
    positions: Vec<u32>,
    // Where the hints of a line are moved.
    moved: Vec<u32>,
}

impl Trimmed {
    // Leaves a line out.
    fn pass(&mut self) -> Result<(), AllocError>
        requires { length self.old.lines ≤ 4294967295 }
        ensures lines { self.new.lines ≡ self.old.lines }
        ensures positions { OnOk result (AddsPosition self.old (length self.old.lines) self.new) }
    {
        self.positions.push(self.lines.len() as u32)?;
        Ok(())
    }

    // Keeps a line.
    fn take(&mut self, line: LogLine<'_>) -> Result<(), AllocError>
        requires { length self.old.lines < 4294967295 }
        ensures line { OnOk result (MovesLine self.old (line_of line.entry) self.new) }
        ensures positions { OnOk result (AddsPosition self.old (length self.old.lines + 1) self.new) }
    {
        push_moved(
            &mut self.lines,
            &mut self.moved,
            line,
            self.positions.as_slice(),
        )?;
        self.positions.push(self.lines.len() as u32)?;
        Ok(())
    }
}

// All lines are kept.
fn are_all_kept(kept: &[bool]) -> bool
    ensures { IsTrue result → All IsTrue kept.now }
{
    for is_kept in kept {
        if !*is_kept {
            return false;
        }
    }
    true
}

// What ground clauses count fits the types that count it.
fn fits_types(ground: &Ground)
    ensures { FitsTypes ground.now }
{
    let _sizes = ground.sizes();
    let _count = ground.count();
}

// A section without the lines that aren't kept.
fn shorten(
    alloc: Global,
    ground: &Ground,
    section: &Section,
    kept: &[bool],
) -> Result<Section, AllocError>
    requires refutes { RefutesProblem ground.now section.now }
    requires needed { AreNeeded section.now.lines kept.now 0 }
    ensures { IfOk result (IsRefutationOf ground.now) }
{
    fits_types(ground);
    let lines = &section.lines;
    let mut trimmed = Trimmed {
        lines: Lines::new(alloc),
        positions: Vec::with_capacity(alloc, lines.len())?,
        moved: Vec::new(alloc),
    };
    for place in 0..lines.len() {
        if kept[place] {
            trimmed.take(lines.line(place))?;
        } else {
            trimmed.pass()?;
        }
    }
    Ok(Section {
        first: 1,
        lines: trimmed.lines,
    })
}

/// The lines that something later needs of a section that refutes ground clauses: they refute them too. A section that
/// needs all its lines is answered as it is, without a copy.
pub(crate) fn trim(alloc: Global, ground: &Ground, section: Section) -> Result<Section, AllocError>
    requires { RefutesProblem ground.now section }
    ensures { IfOk result (IsRefutationOf ground.now) }
{
    fits_types(ground);
    let kept = needed(alloc, &section.lines)?;
    if are_all_kept(kept.as_slice()) {
        return Ok(section);
    }
    shorten(alloc, ground, &section, kept.as_slice())
}
