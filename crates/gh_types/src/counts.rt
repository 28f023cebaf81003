// How many atoms and variables there are.

ghost use Rattle.std.specs.Prelude.{◌≡◌, ◌-◌, length};
ghost use Rattle.gh_ast.specs.Plain.{assertion_of, assertions_view, procedure_of, cond_of, conds_view};
ghost use Rattle.gh_ast.specs.Limits.{all_atoms, atoms, reported, cond_atoms, conds_atoms};
ghost use Rattle.gh_ast.specs.Occurrences.{variables_of};

use crate::names::locals;
use gh_ast::{Assertion, Cond, Procedure};

/// The longest program text, in bytes.
pub const MOST_BYTES: usize = 1_048_576;

/// The most procedures of a program.
pub const MOST_PROCEDURES: usize = 256;

/// The most variables of a procedure or a question.
pub const MOST_VARIABLES: u32 = 32;

/// The most atoms of what a procedure requires, of all that it ensures, of an invariant, or of a question.
pub const MOST_ATOMS: u32 = 32;

/// A number as it is reported.
pub fn reported(count: usize) -> u32
    ensures { result ≡ reported count }
{
    u32::try_from(count).unwrap_or(u32::MAX)
}

/// How many variables a procedure has, as it is reported.
pub fn count_variables(procedure: &Procedure) -> u32
    ensures { result ≡ reported (length (variables_of (procedure_of procedure.now))) }
{
    let own = reported(procedure.parameters.len()).saturating_add(reported(
        procedure.results.len(),
    ));
    own.saturating_add(reported(locals(procedure).len()))
}

/// How many atoms a test has, as it is reported.
#[cycle(test_count)]
fn count_in_test(test: &Cond) -> u32
    ensures { result ≡ reported (cond_atoms (cond_of test.now)) }
{
    match test {
        Cond::Compare { .. } => 1,
        Cond::Not(inner) => count_in_test(inner),
        Cond::And(members) => count_in_tests(members.as_slice()),
        Cond::Or(members) => count_in_tests(members.as_slice()),
    }
}

/// How many atoms some tests have together.
#[cycle(test_count)]
fn count_in_tests(tests: &[Cond]) -> u32
    ensures { result ≡ reported (conds_atoms (conds_view tests.now)) }
{
    let mut sum = 0u32;
    for test in tests {
        sum = sum.saturating_add(count_in_test(test));
    }
    sum
}

/// How many atoms an assertion has, as it is reported.
#[cycle(atom_count)]
pub fn count_atoms(assertion: &Assertion) -> u32
    ensures { result ≡ reported (atoms (assertion_of assertion.now)) }
{
    match assertion {
        Assertion::Star(members) => count_all_atoms(members.as_slice()),
        Assertion::Cases { test, yes, no } => {
            let front = count_in_test(test).saturating_add(count_atoms(yes));
            front.saturating_add(count_atoms(no))
        }
        Assertion::Emp
        | Assertion::Pure { .. }
        | Assertion::PointsTo { .. }
        | Assertion::Acc { .. }
        | Assertion::Lseg { .. } => 1,
    }
}

/// How many atoms some assertions have together.
#[cycle(atom_count)]
pub fn count_all_atoms(assertions: &[Assertion]) -> u32
    ensures { result ≡ reported (all_atoms (assertions_view assertions.now)) }
{
    let mut sum = 0u32;
    for assertion in assertions {
        sum = sum.saturating_add(count_atoms(assertion));
    }
    sum
}
