// Terms and bindings that are read back.
use gh_base::atom::Term;
use gh_base::name::Name;
use gh_base::term::TermKind;
use gh_grass::binding::Binding;
use gh_grass::terms::TermList;
use std::alloc::{AllocError, Global};

#[test]
fn kinds_are_listed_once(rt: HostRuntime) -> Result<(), AllocError> {
    let mut terms = TermList::new(rt.alloc())?;
    let value = terms.add(TermKind::Value { number: 0 })?;
    let next = TermKind::Next {
        version: 0,
        of: value,
    };
    let content = terms.add(next)?;
    assert!(rt; value == Term(1) && content == Term(2));
    assert!(rt; terms.add(next)? == content && terms.count() == 3);
    assert!(rt; terms.kind(content) == Some(next) && terms.kind(Term(3)) == None);
    assert!(rt; terms.next(0, value) == Some(content) && terms.next(1, value) == None);
    Ok(())
}

fn bound(alloc: Global, text: &str, term: Term, binding: &mut Binding) -> Result<(), AllocError> {
    if let Some(name) = Name::new(alloc, text)? {
        binding.set(alloc, &name, term)?;
    }
    Ok(())
}

fn term_of(alloc: Global, text: &str, binding: &Binding) -> Result<Option<Term>, AllocError> {
    match Name::new(alloc, text)? {
        Some(name) => Ok(binding.get(&name)),
        None => Ok(None),
    }
}

#[test]
fn last_term_counts(rt: HostRuntime) -> Result<(), AllocError> {
    let mut binding = Binding::new(rt.alloc());
    bound(rt.alloc(), "x", Term(1), &mut binding)?;
    bound(rt.alloc(), "y", Term(2), &mut binding)?;
    bound(rt.alloc(), "x", Term(3), &mut binding)?;
    assert!(rt; term_of(rt.alloc(), "x", &binding)? == Some(Term(3)));
    assert!(rt; term_of(rt.alloc(), "y", &binding)? == Some(Term(2)));
    assert!(rt; term_of(rt.alloc(), "z", &binding)? == None);
    Ok(())
}
