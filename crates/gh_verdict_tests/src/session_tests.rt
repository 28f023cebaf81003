//! Programs that are decided one after the other in a session.

ghost use Rattle.std.specs.Prelude.{◌≡◌};
ghost use Rattle.gh_ast.specs.Limits.{KeepsLimits};
ghost use Rattle.gh_ast.specs.Plain.{program_of};
ghost use Rattle.gh_ast.specs.Rules.{IsTyped};
ghost use Rattle.gh_path.specs.Admitted.{IsAdmitted};

use gh_ast::typed::Typed;
use gh_decide::direct::Direct;
use gh_parse::parse::parse;
use gh_path::conditions::Conditions;
use gh_path::listing::conditions;
use gh_session::session::Session;
use gh_symb::admit::admit;
use gh_types::check::check;
use gh_types::counts::MOST_BYTES;
use std::alloc::{AllocError, Global};

const TWO: &[u8] = b"struct Node { var next: Node; }
procedure nop()
{ }
procedure two()
{ }
";

const FAULTY: &[u8] = b"struct Node { var next: Node; }
procedure fine()
{ }
procedure bad(x: Node)
{
  x.next := x;
}
";

// A session with what decides for it.
#[derive(Drop)]
struct Work {
    session: Session,
    direct: Direct,
}

// How many essences were decided, and the number of the condition that is refuted, 0 for none.
fn told(
    alloc: Global,
    work: &mut Work,
    typed: &Typed,
    all: &Conditions<'_>,
) -> Result<Option<(u32, u32)>, AllocError>
    requires same { program_of all.now ≡ program_of typed.now }
    requires admitted { IsAdmitted (program_of typed.now) }
{
    let outcome = work
        .session
        .decide_all(alloc, typed, all, &mut work.direct)?;
    let number = match &outcome.refuted {
        Some(refutation) => refutation.number,
        None => 0,
    };
    Ok(Some((outcome.decided, number)))
}

// The same of a program that keeps the rules and the limits on a text.
fn told_of(alloc: Global, work: &mut Work, typed: &Typed) -> Result<Option<(u32, u32)>, AllocError>
    requires typed { IsTyped (program_of typed.now) }
    requires limits { KeepsLimits (program_of typed.now) }
{
    let all = match conditions(alloc, typed) {
        Ok(all) => all,
        Err(_) => return Ok(None),
    };
    match admit(alloc, typed, &all) {
        Ok(()) => told(alloc, work, typed, &all),
        Err(_) => Ok(None),
    }
}

fn decided(alloc: Global, work: &mut Work, text: &[u8]) -> Result<Option<(u32, u32)>, AllocError> {
    if text.len() > MOST_BYTES {
        return Ok(None);
    }
    let Ok(program) = parse(alloc, text) else {
        return Ok(None);
    };
    match check(alloc, program) {
        Ok(typed) => told_of(alloc, work, &typed),
        Err(_) => Ok(None),
    }
}

// Texts one after the other, and what is told of each.
const TOLD: &[(&[u8], (u32, u32))] = &[(TWO, (1, 0)), (FAULTY, (1, 2)), (FAULTY, (0, 2))];

// The first text of which something else is told.
fn wrong_text(
    alloc: Global,
    work: &mut Work,
    rows: &[(&[u8], (u32, u32))],
) -> Result<Option<usize>, AllocError> {
    for (number, (text, wanted)) in rows.iter().enumerate() {
        if decided(alloc, work, text)? != Some(*wanted) {
            return Ok(Some(number));
        }
    }
    Ok(None)
}

#[test]
fn shared_conditions(rt: HostRuntime) -> Result<(), AllocError> {
    let alloc = rt.alloc();
    let mut work = Work {
        session: Session::new(alloc),
        direct: Direct::new(),
    };
    assert!(rt; wrong_text(alloc, &mut work, TOLD)? == None);
    assert!(rt; work.session.kept().len() == 2);
    assert!(rt; work.direct.calls() == 2);
    Ok(())
}
