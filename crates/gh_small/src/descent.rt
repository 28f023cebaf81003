//! From a model of ground clauses to one whose first heap has the fewest cells.

ghost use Rattle.std.specs.Prelude.{◌≡◌, ◌↔◌, ◌≤◌, IsSome, IfOk, IfSome, OnOk};
ghost use Rattle.std.specs.FinMap.{len};
ghost use Rattle.gh_ground.specs.Solving.{IsAnswer};
ghost use Rattle.gh_small.specs.Bounded.{bounded_by, HasRoom};
ghost use Rattle.gh_small.specs.Models.{IsModelled, IsFewest, HasRoomBelow, first_classes, first_heap};

use crate::bounding::{bounded, copied, has_room};
use gh_base::ground::Ground;
use gh_base::structure::Structure;
use gh_ground::solve::{Answer, solve};
use gh_log::lines::Section;
use gh_model::build::heap_of;
use std::alloc::{AllocError, Global};

/// A model, how many cells its first heap has, and where it has one, the section that shows that no model
/// has fewer.
#[derive(Debug, Drop)]
pub struct Fewest {
    pub structure: Structure,
    pub cells: u32,
    pub section: Option<Section>,
}

/// How many cells the first heap of a structure has.
pub fn first_cells(alloc: Global, structure: &Structure) -> Result<u32, AllocError>
    ensures count { IfOk result (λ cells. cells ≡ len (first_heap structure.now)) }
    ensures few { IfOk result (λ cells. cells ≤ first_classes structure.now) }
{
    let _sizes = structure.sizes();
    let _terms = structure.terms();
    let heap = heap_of(alloc, structure, 0)?;
    Ok(heap.cells().len() as u32)
}

// Decides ground clauses that also say: the first heap has fewer than so many cells. None where 32 bits
// don't number the clauses and definitions of that.
fn below(alloc: Global, ground: &Ground, cells: u32) -> Result<Option<Answer>, AllocError>
    requires { 1 ≤ cells }
    ensures room { IfOk result (λ o. IsSome o ↔ HasRoom ground.now cells) }
    ensures answer { IfOk result (λ o. IfSome o (λ answer. IsAnswer (bounded_by ground.now cells) answer)) }
{
    if !has_room(ground, cells) {
        return Ok(None);
    }
    let asked = bounded(alloc, copied(alloc, ground)?, cells)?;
    let answer = solve(alloc, &asked)?;
    Ok(Some(answer))
}

/// Goes down from a model, as long as one has fewer cells in its first heap.
///
/// Where the clauses that also say "fewer cells" are more than 4,294,967,294, or their definitions more than
/// 32 bits count, they find no memory, as too many clauses of a condition do.
pub fn descend(alloc: Global, ground: &Ground, first: Structure) -> Result<Fewest, AllocError>
    requires { IsModelled ground.now first }
    ensures fewest { IfOk result (λ f. IsFewest ground.now f) }
    ensures room { OnOk result (HasRoomBelow ground.now first) }
{
    let _sizes = ground.sizes();
    let mut structure = first;
    let mut cells = first_cells(alloc, &structure)?;
    while cells > 0 {
        let Some(answer) = below(alloc, ground, cells)? else {
            return Err(AllocError);
        };
        match answer {
            Answer::Model(next) => {
                cells = first_cells(alloc, &next)?;
                structure = next;
            }
            Answer::Refutation(section) => {
                return Ok(Fewest {
                    structure,
                    cells,
                    section: Some(section),
                });
            }
        }
    }
    Ok(Fewest {
        structure,
        cells,
        section: None,
    })
}
