//! The walk over all conditions of a program beside each condition by its number.

use gh_ast::typed::Typed;
use gh_parse::parse::parse;
use gh_path::condition::Condition;
use gh_path::conditions::Conditions;
use gh_path::listing::conditions;
use gh_path::walk::Walk;
use gh_texts::REVERSE;
use gh_types::check::check;
use gh_types::counts::MOST_BYTES;
use std::alloc::{AllocError, Global};

// 1,024 conditions from one start.
const MANY: &[u8] = b"struct Node { var next: Node; }
procedure many(x: Node)
{
  if (x == null) { }
  if (x == null) { }
  if (x == null) { }
  if (x == null) { }
  if (x == null) { }
  if (x == null) { }
  if (x == null) { }
  if (x == null) { }
  if (x == null) { }
  if (x == null) { }
}
";

// Whether two conditions are the same in all that is kept of them.
fn is_same(alloc: Global, one: &Condition, other: &Condition) -> Result<bool, AllocError> {
    let first = format!(in alloc; "{one:?}")?;
    let second = format!(in alloc; "{other:?}")?;
    Ok(first == second)
}

// Whether the next item is the condition of a number.
fn is_next(
    alloc: Global,
    all: &Conditions<'_>,
    walk: &mut Walk<'_, '_>,
    number: u32,
) -> Result<bool, AllocError> {
    let Some(item) = walk.next() else {
        return Ok(false);
    };
    let condition = item?;
    match all.condition(alloc, number)? {
        Some(numbered) => is_same(alloc, &condition, &numbered),
        None => Ok(false),
    }
}

// How many items there are, if each is the condition of its number and None comes twice after them.
fn items(alloc: Global, typed: &Typed) -> Result<Option<u32>, AllocError> {
    let all = match conditions(alloc, typed) {
        Ok(all) => all,
        Err(_) => return Ok(None),
    };
    let mut walk = all.walk(alloc);
    for place in 0..all.count() {
        if !is_next(alloc, &all, &mut walk, place.saturating_add(1))? {
            return Ok(None);
        }
    }
    if walk.next().is_some() {
        return Ok(None);
    }
    if walk.next().is_some() {
        return Ok(None);
    }
    Ok(Some(all.count()))
}

fn walked(alloc: Global, text: &[u8]) -> Result<Option<u32>, AllocError> {
    if text.len() > MOST_BYTES {
        return Ok(None);
    }
    let Ok(program) = parse(alloc, text) else {
        return Ok(None);
    };
    match check(alloc, program) {
        Ok(typed) => items(alloc, &typed),
        Err(_) => Ok(None),
    }
}

#[test]
fn walked_beside_numbers(rt: HostRuntime) -> Result<(), AllocError> {
    let alloc = rt.alloc();
    assert!(rt; walked(alloc, REVERSE)? == Some(5));
    assert!(rt; walked(alloc, MANY)? == Some(1024));
    Ok(())
}
