//! The answer to a question.

ghost use Rattle.std.specs.Prelude.{◌≡◌, IfOk, length};
ghost use Rattle.gh_ast.specs.Questions.{question_of};
ghost use Rattle.gh_entail.specs.Answers.{IsAnswer, shown_state};

use crate::admit::Asked;
use crate::ground::question_ground;
use gh_assert::store::Store;
use gh_base::structure::Structure;
use gh_ground::solve::{Answer, solve};
use gh_log::lines::Section;
use gh_model::build::{add_all, heap_of};
use gh_trace::state::State;
use std::alloc::{AllocError, Global};

/// The right claim holds wherever the left one does, which a section for the question's clauses
/// shows; or here the left claim holds and the right one doesn't.
#[derive(Debug, Drop)]
pub enum Entailment {
    Yes(Section),
    No(State),
}

// The values of the question's variables in a structure, in order, and its heap.
fn state(alloc: Global, asked: &Asked, structure: &Structure) -> Result<State, AllocError>
    requires terms { structure.now.sizes.terms ≡ length asked.now.over.terms }
    requires versions { structure.now.sizes.versions ≡ 1 }
    ensures { IfOk result (λ s. s ≡ shown_state structure.now asked.now) }
{
    let variables = asked.question.variables.as_slice();
    let mut store = Store::new(alloc);
    add_all(alloc, &mut store, structure, &asked.over.binding, variables)?;
    let heap = heap_of(alloc, structure, 0)?;
    Ok(State { store, heap })
}

/// Decides a question.
pub fn decide_question(alloc: Global, asked: &Asked) -> Result<Entailment, AllocError>
    ensures { IfOk result (IsAnswer (question_of asked.now.question)) }
{
    let ground = question_ground(alloc, asked)?;
    match solve(alloc, &ground)? {
        Answer::Refutation(section) => Ok(Entailment::Yes(section)),
        Answer::Model(structure) => {
            let state = state(alloc, asked, &structure)?;
            Ok(Entailment::No(state))
        }
    }
}
