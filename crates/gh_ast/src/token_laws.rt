//! Laws of the tokens of a text.

ghost use Rattle.gh_ast.specs.TokenLaws.{HaveOneList, HaveTheirTokens};

/// A text has at most one list of tokens.
pub fn have_one_list_law()
    ensures { HaveOneList }
{}

/// A line of tokens, with a space between two and a line feed last, has these tokens.
pub fn have_their_tokens_law()
    ensures { HaveTheirTokens }
{}
