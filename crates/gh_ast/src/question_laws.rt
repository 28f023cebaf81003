//! Laws of the questions that texts spell.

ghost use Rattle.gh_ast.specs.Place.{HaveOnePlace};
ghost use Rattle.gh_ast.specs.QuestionGrammar.{HaveOneQuestion, IsQuestion};

/// A text spells at most one question.
pub fn have_one_question_law()
    ensures { HaveOneQuestion }
{}

/// A text has at most one place of an error against the grammar of questions.
pub fn have_one_question_place_law()
    ensures { HaveOnePlace IsQuestion }
{}
