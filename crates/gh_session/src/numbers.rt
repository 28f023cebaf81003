//! Numbers in the order in which they first appear.

ghost use Rattle.std.specs.Prelude.{◌≡◌, ◌==◌, IfOk};
ghost use Rattle.std.specs.List.{list_any};
ghost use Rattle.gh_session.specs.Numbering as numbering;

use std::alloc::AllocError;

// Whether a number is listed.
fn has(list: &[u16], number: u16) -> bool
    ensures { result ≡ list_any (λ m. number == m) list.now }
{
    list.iter().any(|listed| number == *listed)
}

/// Adds a number, unless it is listed already.
pub fn add(list: &mut Vec<u16>, number: u16) -> Result<(), AllocError>
    ensures { IfOk result (λ _. list.new.items ≡ numbering.added list.old.items number) }
{
    if has(list.as_slice(), number) {
        return Ok(());
    }
    list.push(number)?;
    Ok(())
}

/// Where a number first stands in a list; the list's length where it doesn't.
pub fn place(number: u16, list: &[u16]) -> usize
    ensures { result ≡ numbering.place number list.now }
{
    let mut passed = 0;
    for listed in list {
        if number == *listed {
            return passed;
        }
        passed += 1;
    }
    passed
}
