//! The signs and the reserved words of the language, with their spelling.

ghost use Rattle.std.specs.Prelude.{◌≡◌};
ghost use Rattle.gh_ast.specs.Tokens.{sign_text, keyword_text};

/// A sign.
#[derive(Clone, Copy, Debug, PartialEq, Eq)]
pub enum Sign {
    BraceOpen,
    BraceClose,
    ParenOpen,
    ParenClose,
    Comma,
    Semicolon,
    Colon,
    Dot,
    Assign,
    Equal,
    Unequal,
    Bang,
    And,
    Or,
    Star,
    Arrow,
}

impl Sign {
    /// How the sign is written.
    pub fn text(self) -> &'static [u8]
        ensures { result.now ≡ sign_text self }
    {
        match self {
            Sign::BraceOpen => b"{",
            Sign::BraceClose => b"}",
            Sign::ParenOpen => b"(",
            Sign::ParenClose => b")",
            Sign::Comma => b",",
            Sign::Semicolon => b";",
            Sign::Colon => b":",
            Sign::Dot => b".",
            Sign::Assign => b":=",
            Sign::Equal => b"==",
            Sign::Unequal => b"!=",
            Sign::Bang => b"!",
            Sign::And => b"&&",
            Sign::Or => b"||",
            Sign::Star => b"&*&",
            Sign::Arrow => b"|->",
        }
    }
}

/// A reserved word.
#[derive(Clone, Copy, Debug, PartialEq, Eq)]
pub enum Keyword {
    Struct,
    Node,
    Var,
    Next,
    Procedure,
    Returns,
    Requires,
    Ensures,
    Invariant,
    If,
    Else,
    While,
    Return,
    New,
    Free,
    Null,
    Emp,
    Acc,
    Lseg,
}

impl Keyword {
    /// How the word is written.
    pub fn text(self) -> &'static [u8]
        ensures { result.now ≡ keyword_text self }
    {
        match self {
            Keyword::Struct => b"struct",
            Keyword::Node => b"Node",
            Keyword::Var => b"var",
            Keyword::Next => b"next",
            Keyword::Procedure => b"procedure",
            Keyword::Returns => b"returns",
            Keyword::Requires => b"requires",
            Keyword::Ensures => b"ensures",
            Keyword::Invariant => b"invariant",
            Keyword::If => b"if",
            Keyword::Else => b"else",
            Keyword::While => b"while",
            Keyword::Return => b"return",
            Keyword::New => b"new",
            Keyword::Free => b"free",
            Keyword::Null => b"null",
            Keyword::Emp => b"emp",
            Keyword::Acc => b"acc",
            Keyword::Lseg => b"lseg",
        }
    }
}
