//! Laws of the programs that texts spell.

ghost use Rattle.gh_ast.specs.GrammarLaws.{HaveOneProgram};
ghost use Rattle.gh_ast.specs.Place.{HaveOnePlace, IsProgram};

/// A text spells at most one program.
pub fn have_one_program_law()
    ensures { HaveOneProgram }
{}

/// A text has at most one place of a syntax error.
pub fn have_one_place_law()
    ensures { HaveOnePlace IsProgram }
{}
