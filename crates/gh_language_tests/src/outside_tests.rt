// Reading from memory, writing to it, and tables at the sizes of the largest questions that are asked.

ghost use Rattle.std.specs.Prelude.{◌≡◌, IfOk};

use gh_base::assignment::Assignment;
use gh_base::atom::{Atom, Lit, Term};
use gh_base::memory::MemoryInputs;
use gh_base::outside::{Failed, Sink};
use gh_base::reading::{InputError, read_input};
use gh_base::sink::MemorySink;
use gh_base::steady_inputs::SteadyInputs;
use gh_base::steady_sink::SteadySink;
use gh_base::structure::Structure;
use gh_base::writing::write_all;
use std::alloc::AllocError;

fn text_inputs(rt: &HostRuntime) -> Result<MemoryInputs, AllocError>
    ensures { IfOk result (λ m. m.calls.made ≡ 0) }
{
    let mut inputs = MemoryInputs::new(rt.alloc(), 16);
    inputs.add(rt.alloc(), "a", b"a text of more than sixteen bytes")?;
    Ok(inputs)
}

#[test]
fn whole_text(rt: HostRuntime) -> Result<(), InputError> {
    let mut inputs = text_inputs(&rt)?;
    let text = read_input(rt.alloc(), &mut inputs, "a", 100)?;
    assert!(rt; text.bytes() == b"a text of more than sixteen bytes".as_slice());
    Ok(())
}

#[test]
fn second_read_fails(rt: HostRuntime) -> Result<(), InputError> {
    let mut inputs = text_inputs(&rt)?;
    inputs.fail_at(3)?;
    let answer = read_input(rt.alloc(), &mut inputs, "a", 100);
    assert!(rt; matches!(&answer, Err(InputError::ReadFault)));
    Ok(())
}

#[test]
fn too_long_and_absent(rt: HostRuntime) -> Result<(), InputError> {
    let mut inputs = text_inputs(&rt)?;
    let long = read_input(rt.alloc(), &mut inputs, "a", 32);
    assert!(rt; matches!(&long, Err(InputError::TooLong)));
    let absent = read_input(rt.alloc(), &mut inputs, "b", 32);
    assert!(rt; matches!(&absent, Err(InputError::Absent)));
    Ok(())
}

#[test]
fn second_write_fails(rt: HostRuntime) -> Result<(), AllocError> {
    let mut out = MemorySink::new(rt.alloc(), 8, 3)?;
    out.fail_at(2)?;
    assert!(rt; out.write(b"written") == Ok(3));
    assert!(rt; out.write(b"ten") == Err(Failed));
    assert!(rt; out.write(b"") == Ok(0));
    assert!(rt; out.write(b"ten") == Ok(3));
    assert!(rt; out.bytes() == b"writen".as_slice());
    Ok(())
}

#[test]
fn steady_text(rt: HostRuntime) -> Result<(), InputError> {
    let mut inputs = SteadyInputs::new(rt.alloc());
    inputs.add(rt.alloc(), "a", b"a text")?;
    let text = read_input(rt.alloc(), &mut inputs, "a", 6)?;
    assert!(rt; text.bytes() == b"a text".as_slice());
    let absent = read_input(rt.alloc(), &mut inputs, "b", 6);
    assert!(rt; matches!(&absent, Err(InputError::Absent)));
    Ok(())
}

#[test]
fn steady_writes(rt: HostRuntime) {
    let mut out = SteadySink::new();
    assert!(rt; write_all(&mut out, b"written").is_ok());
    assert!(rt; write_all(&mut out, b"").is_ok());
    assert!(rt; out.taken() == 7);
}

#[test]
fn all_unassigned(rt: HostRuntime) -> Result<(), AllocError> {
    let values = Assignment::new(rt.alloc(), 20, 10, 100)?;
    let lit = Lit {
        atom: Atom::Def { number: 99 },
        positive: true,
    };
    assert!(rt; values.value(lit).is_none());
    Ok(())
}

#[test]
fn one_class(rt: HostRuntime) -> Result<(), AllocError> {
    let structure = Structure::new(rt.alloc(), &[Term(0); 20], 10, 100)?;
    let equality = Atom::Eq {
        a: Term(1),
        b: Term(19),
    };
    assert!(rt; structure.holds(equality));
    assert!(rt; !structure.holds(Atom::Def { number: 99 }));
    Ok(())
}
