//! Sessions: what is decided of one text is kept for the next.

ghost use Rattle.std.specs.Prelude.{◌≡◌, ◌+◌, ◌∷◌, ◌++◌, [], ◌≤◌, cond, IfOk, IfErr, IfSome, IfNone, OnOk, OnErr};
ghost use Rattle.std.specs.Prelude.{Contains};
ghost use Rattle.std.specs.Option.{option_map};
ghost use Rattle.gh_ast.specs.Plain.{program_of};
ghost use Rattle.gh_path.specs.Admitted.{IsAdmitted};
ghost use Rattle.gh_path.specs.Kept.{IsOne, condition_of};
ghost use Rattle.gh_trace.specs.Kept.{drawn_of, HasNoCounterexample};
ghost use Rattle.gh_trace.specs.Replay.{IsDrawnCounterexample};
ghost use Rattle.gh_session.specs.Known.{essences, IsRight, AreRight};
ghost use Rattle.gh_session.specs.Places.{known_of, knowledge, LacksAt, LacksAtAll};
ghost use Rattle.gh_session.specs.Decided.{IsLessonOn, IsOutcome, Tells, IsCutShort};
ghost use Rattle.gh_session.specs.Views.{essence_view};

use crate::compare::is_same_essence;
use crate::essence::{Essence, essence_of};
use crate::filing::file;
use crate::fingerprint::fingerprint;
use crate::kept::Kept;
use gh_ast::typed::Typed;
use gh_path::condition::Condition;
use gh_path::conditions::Conditions;
use gh_trace::decider::Decider;
use gh_trace::refutation::Refutation;
use gh_trace::state::Trace;
use std::alloc::{AllocError, Global};
use std::collections::HashMap;
use std::marker::Model;

/// What is decided of a program, and of how many essences it was new.
#[derive(Debug, Drop)]
pub struct SessionOutcome {
    pub refuted: Option<Refutation>,
    pub decided: u32,
}

// What is known of one condition, and whether it is new.
#[derive(Drop)]
struct Lesson {
    answer: Option<Trace>,
    is_new: bool,
}

/// The essences that are known, each with a counterexample or with none. Contracts see it as the list
/// of what is kept, and read that as `knowledge`.
#[derive(Drop)]
pub struct Session {
    kept: Vec<Kept>,
    places: HashMap<u64, Vec<usize>>,
}

impl Model for Session {
    ghost use Rattle.std.specs.Prelude.{List};
    ghost use Rattle.std.specs.Coded.{codes};
    ghost use Rattle.gh_session.specs.declared.kept.Kept.{Kept};
    ghost use Rattle.gh_session.specs.contracts.kept.Kept as whole;

    ghost Value = { List Kept };

    ghost coded = { Prim.hlevel (codes, whole.the_row.coded) };

    ghost use Rattle.gh_session.specs.Places.{IsFiled};

    ghost view = { λ s. s.kept.items };

    ghost invariant = { λ s. IsFiled s.kept.items s.places };
}

// What stands at a place, if it has the essence.
fn at<'k>(kept: &'k [Kept], place: usize, essence: &Essence) -> Option<&'k Kept>
    ensures there { IfSome result (λ k. Contains kept.now k.now) }
    ensures same { IfSome result (λ k. essence_view k.now.essence ≡ essence_view essence.now) }
    ensures none { IfNone result (LacksAt kept.now (essence_view essence.now) place) }
{
    let one = kept.get(place)?;
    if is_same_essence(&one.essence, essence) {
        return Some(one);
    }
    None
}

// What has the essence, of that at some places.
fn find<'k>(kept: &'k [Kept], places: &[usize], essence: &Essence) -> Option<&'k Kept>
    ensures there { IfSome result (λ k. Contains kept.now k.now) }
    ensures same { IfSome result (λ k. essence_view k.now.essence ≡ essence_view essence.now) }
    ensures none { IfNone result (LacksAtAll kept.now (essence_view essence.now) places.now) }
{
    for place in places {
        if let Some(found) = at(kept, *place, essence) {
            return Some(found);
        }
    }
    None
}

// A copy of an answer.
fn copy_answer(alloc: Global, answer: &Option<Trace>) -> Result<Option<Trace>, AllocError>
    ensures { IfOk result (λ a. option_map drawn_of a ≡ option_map drawn_of answer.now) }
{
    match answer {
        None => Ok(None),
        Some(trace) => Ok(Some(trace.copy(alloc)?)),
    }
}

// One, or none.
fn one_if(is_new: bool) -> u32
    ensures { result ≡ cond is_new 1 0 }
{
    if is_new { 1 } else { 0 }
}

impl Session {
    /// A session that knows nothing.
    pub fn new(alloc: Global) -> Session
        ensures { result ≡ [] }
    {
        Session {
            kept: Vec::new(alloc),
            places: HashMap::new(alloc),
        }
    }

    /// All that the session knows, in the order in which it was decided.
    pub fn kept(&self) -> &[Kept]
        ensures same { result.now ≡ self.now }
        ensures right { AreRight (knowledge result.now) }
    {
        self.kept.as_slice()
    }

    // What is known of an essence.
    fn look_up(&self, essence: &Essence) -> Option<&Kept>
        ensures there { IfSome result (λ k. Contains self.now k.now) }
        ensures same { IfSome result (λ k. essence_view k.now.essence ≡ essence_view essence.now) }
        ensures right { IfSome result (λ k. IsRight (known_of k.now)) }
        ensures none { IfNone result (Contains (essences (knowledge self.now)) (essence_view essence.now) → ⊥) }
    {
        let places = self.places.get(&fingerprint(essence))?;
        find(self.kept.as_slice(), places.as_slice(), essence)
    }

    // Keeps an essence with its answer.
    fn keep(&mut self, alloc: Global, kept: Kept) -> Result<(), AllocError>
        requires right { IsRight (known_of kept) }
        ensures ok { OnOk result (self.new ≡ self.old ++ kept ∷ []) }
        ensures err { OnErr result (self.new ≡ self.old) }
    {
        let place = self.kept.as_slice().len();
        file(alloc, &mut self.places, fingerprint(&kept.essence), place)?;
        self.kept.push(kept)?;
        Ok(())
    }

    // Answers one condition by what is known, or by the decider, and keeps what is new.
    fn learn<D: Decider>(
        &mut self,
        alloc: Global,
        typed: &Typed,
        condition: &Condition,
        decider: &mut D,
    ) -> Result<Lesson, AllocError>
        requires admitted { IsAdmitted (program_of typed.now) }
        requires one { IsOne (program_of typed.now) condition.now }
        ensures none { IfOk result (λ l. IfNone l.answer (HasNoCounterexample (program_of typed.now) condition.now)) }
        ensures some { IfOk result (λ l. IfSome l.answer (λ t.
            IsDrawnCounterexample (program_of typed.now) (condition_of condition.now) (drawn_of t))) }
        ensures learns { IfOk result (IsLessonOn (program_of typed.now) condition.now self.old self.new) }
        ensures unchanged { IfErr result (λ _. self.new ≡ self.old) }
        ensures asked_once { IfOk result (λ l. D.calls decider.new ≤ D.calls decider.old + cond l.is_new 1 0) }
        ensures never_falls { D.calls decider.old ≤ D.calls decider.new }
    {
        let essence = essence_of(alloc, typed, condition)?;
        if let Some(kept) = self.look_up(&essence) {
            return Ok(Lesson {
                answer: copy_answer(alloc, &kept.answer)?,
                is_new: false,
            });
        }
        let settled = decider.settle(alloc, typed, condition)?;
        let answer = copy_answer(alloc, &settled)?;
        self.keep(
            alloc,
            Kept {
                essence,
                answer: settled,
            },
        )?;
        Ok(Lesson {
            answer,
            is_new: true,
        })
    }

    /// Decides the conditions of an admitted program in order, up to the first that is refuted. Of
    /// what the session knows already nothing is decided anew, and it knows all that is decided here.
    ///
    /// `decided` is the number of different essences among these conditions that it did not know.
    /// Where memory runs out it knows what it knew, and some of what is new.
    pub fn decide_all<D: Decider>(
        &mut self,
        alloc: Global,
        typed: &Typed,
        conditions: &Conditions,
        decider: &mut D,
    ) -> Result<SessionOutcome, AllocError>
        requires same { program_of conditions.now ≡ program_of typed.now }
        requires admitted { IsAdmitted (program_of typed.now) }
        ensures outcome { IfOk result (λ o. IsOutcome (program_of typed.now) o.refuted) }
        ensures decided { IfOk result (λ o. Tells (program_of typed.now) self.old o self.new) }
        ensures cut_short { IfErr result (λ _. IsCutShort (program_of typed.now) self.old self.new) }
        ensures calls { IfOk result (λ o. D.calls decider.new ≤ D.calls decider.old + o.decided) }
        ensures never_falls { D.calls decider.old ≤ D.calls decider.new }
    {
        let mut decided = 0;
        let mut walk = conditions.walk(alloc);
        for place in 0..conditions.count() {
            let number = place + 1;
            let more = walk.advance()?;
            if !more {
                unreachable!();
            }
            let Lesson { answer, is_new } = self.learn(alloc, typed, walk.condition(), decider)?;
            decided += one_if(is_new);
            if let Some(trace) = answer {
                return Ok(SessionOutcome {
                    refuted: Some(Refutation { number, trace }),
                    decided,
                });
            }
        }
        Ok(SessionOutcome {
            refuted: None,
            decided,
        })
    }
}
