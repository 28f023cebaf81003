//! The verifier for a page and for programs in other languages: a few exported calls over slices.
//!
//! Each call writes its reply into a slice of the caller, and how it ended into `ended`. Where the reply doesn't fit,
//! nothing is written, and `ended` has the length that it needs.
#![tactic(auto)]

ghost use Rattle.gh_page.specs.Replies.{HandsOut};
ghost use Rattle.gh_page.specs.Answering.{IsAnswerTo};
ghost use Rattle.gh_page.specs.Listings.{IsListingOf};
ghost use Rattle.gh_page.specs.Telling.{IsToldAbout};

mod answer;
mod front;
mod gathered;
mod listing;
pub mod reply;
mod shown;
mod texts;

use answer::answer;
use listing::listing;
use reply::{Ended, hand_out};
use shown::shown;
use std::alloc::Global;

/// What the program `grass` answers in a mode: 0 `check`, 1 `smallest`, 2 `paths`, 3 `log`, 4 `entail`, and over two
/// texts 5 `recheck` and 6 `replay`. Any other number is no mode.
#[unsafe(no_mangle)]
pub extern "C" fn grass_answer(
    alloc: Global,
    mode: u32,
    text: &[u8],
    second: &[u8],
    into: &mut [u8],
    ended: &mut Ended,
)
    ensures { HandsOut (IsAnswerTo mode text.now second.now) ended.new into.new }
{
    *ended = hand_out(&answer(alloc, mode, text, second), into);
}

/// What is found of the conditions of a program after the first `skip`, of `most` at most, a line each as `lens all`
/// writes it, in the order of their numbers.
#[unsafe(no_mangle)]
pub extern "C" fn grass_conditions(
    alloc: Global,
    text: &[u8],
    skip: u32,
    most: u32,
    into: &mut [u8],
    ended: &mut Ended,
)
    ensures { HandsOut (IsListingOf text.now skip most) ended.new into.new }
{
    *ended = hand_out(&listing(alloc, text, skip, most), into);
}

/// The smallest counterexample of the condition of a number: its story, as `lens why` tells it, and then its picture, as
/// `lens picture` draws it. The picture begins at the first `<`.
#[unsafe(no_mangle)]
pub extern "C" fn grass_shown(
    alloc: Global,
    text: &[u8],
    number: u32,
    into: &mut [u8],
    ended: &mut Ended,
)
    ensures { HandsOut (IsToldAbout text.now number) ended.new into.new }
{
    *ended = hand_out(&shown(alloc, text, number), into);
}
