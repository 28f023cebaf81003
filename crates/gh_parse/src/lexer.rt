//! The tokens of a text.

ghost use Rattle.std.specs.Prelude.{◌≡◌, ◌≢◌, ◌↔◌, ◌+◌, ◌<◌, ◌≤◌, ◌-◌, ◌^◌, ◌∷◌, [], length, take, drop, IsTrue};
ghost use Rattle.std.specs.Prelude.{MatchOption, IfOk, All, false};
ghost use Rattle.gh_base.specs.Names.{is_name_byte};
ghost use Rattle.gh_base.specs.declared.place.Span.{Span};
ghost use Rattle.gh_ast.specs.Tokens.{is_blank, sign_text, keyword_text, cleared, moved_over, IsFree, EndsWord};
ghost use Rattle.gh_ast.specs.Tokens.{IsStuck};
ghost use Rattle.gh_parse.specs.Views.{tokens_of};
ghost use Rattle.gh_parse.specs.Lexing.{BeginsWith, IsSignFound, IsCommentAhead, EndsLine, IsSymbolAhead, IsPieceAhead};
ghost use Rattle.gh_parse.specs.Lexing.{IsLexed};

use crate::scan::after_byte;
use crate::token::{Symbol, Token, Word};
use gh_ast::sign::{Keyword, Sign};
use gh_base::name::is_word_byte;
use gh_base::place::Span;
use std::alloc::{AllocError, Global};

/// A word has at most this many characters.
const LONGEST_WORD: usize = 64;

const SIGNS: [Sign; 16] = [
    Sign::Star,
    Sign::Arrow,
    Sign::Assign,
    Sign::Equal,
    Sign::Unequal,
    Sign::And,
    Sign::Or,
    Sign::BraceOpen,
    Sign::BraceClose,
    Sign::ParenOpen,
    Sign::ParenClose,
    Sign::Comma,
    Sign::Semicolon,
    Sign::Colon,
    Sign::Dot,
    Sign::Bang,
];

const KEYWORDS: [Keyword; 19] = [
    Keyword::Struct,
    Keyword::Node,
    Keyword::Var,
    Keyword::Next,
    Keyword::Procedure,
    Keyword::Returns,
    Keyword::Requires,
    Keyword::Ensures,
    Keyword::Invariant,
    Keyword::If,
    Keyword::Else,
    Keyword::While,
    Keyword::Return,
    Keyword::New,
    Keyword::Free,
    Keyword::Null,
    Keyword::Emp,
    Keyword::Acc,
    Keyword::Lseg,
];

/// What a text begins with: a token, or what separates tokens.
#[derive(Clone, Copy)]
struct Piece<'t> {
    length: usize,
    symbol: Option<Symbol<'t>>,
}

/// The tokens at the front of a text, the place after them, and whether they are all of it.
#[derive(Drop)]
pub struct Lexed<'t> {
    pub tokens: Vec<Token<'t>>,
    pub end: Span,
    pub whole: bool,
}

// Whether a byte separates tokens.
fn separates(byte: u8) -> bool
    ensures { result ≡ is_blank byte }
{
    byte == b' ' || byte == b'\t' || byte == b'\r' || byte == b'\n'
}

// The length of the letters, digits and `_` at the front.
fn word_length(text: &[u8]) -> usize
    ensures within { result ≤ length text.now }
    ensures letters { All (λ b. IsTrue (is_name_byte b)) (take result text.now) }
    ensures ends { EndsWord (drop result text.now) }
{
    text.iter()
        .position(|byte| !is_word_byte(*byte))
        .unwrap_or(text.len())
}

// The length of the line at the front.
fn line_length(text: &[u8]) -> usize
    ensures within { result ≤ length text.now }
    ensures line { All (λ b. b ≢ 10) (take result text.now) }
    ensures ends { EndsLine (drop result text.now) }
{
    text.iter()
        .position(|byte| *byte == b'\n')
        .unwrap_or(text.len())
}

// Whether a comment is at the front.
fn begins_comment(text: &[u8]) -> bool
    ensures { IsTrue result ↔ IsCommentAhead text.now }
{
    text.starts_with(b"//")
}

// Whether the sign is at the front.
fn is_sign_ahead(sign: Sign, text: &[u8]) -> bool
    ensures { IsTrue result ↔ BeginsWith (sign_text sign) text.now }
{
    text.starts_with(sign.text())
}

// The longest sign that is at the front.
fn longest_sign(text: &[u8]) -> Option<Sign>
    ensures { IsSignFound text.now result }
{
    SIGNS
        .iter()
        .copied()
        .find(|sign| is_sign_ahead(*sign, text))
}

// The reserved word that some bytes are.
fn reserved(word: &[u8]) -> Option<Keyword>
    ensures { MatchOption result (IsFree word.now) (λ k. word.now ≡ keyword_text k) }
{
    KEYWORDS.iter().copied().find(|key| key.text() == word)
}

// The word at the front.
fn word_symbol<'t>(first: u8, text: &'t [u8]) -> Option<Symbol<'t>>
    requires front { BeginsWith (first ∷ []) text.now }
    requires letter { IsTrue (is_name_byte first) }
    ensures { MatchOption result (IsStuck (cleared text.now)) (λ s. IsSymbolAhead text.now s) }
{
    let bytes = &text[..word_length(text)];
    if bytes.len() > LONGEST_WORD || first.is_ascii_digit() {
        return None;
    }
    match reserved(bytes) {
        Some(key) => Some(Symbol::Key(key)),
        None => Some(Symbol::Name(Word { bytes })),
    }
}

// The token at the front, where neither a blank nor a comment is.
fn symbol_ahead<'t>(first: u8, text: &'t [u8]) -> Option<Symbol<'t>>
    requires front { BeginsWith (first ∷ []) text.now }
    requires blank { is_blank first ≡ false }
    requires comment { IsCommentAhead text.now → ⊥ }
    ensures { MatchOption result (IsStuck (cleared text.now)) (λ s. IsSymbolAhead text.now s) }
{
    if is_word_byte(first) {
        return word_symbol(first, text);
    }
    Some(Symbol::Sign(longest_sign(text)?))
}

// What the text begins with.
fn first_piece<'t>(text: &'t [u8]) -> Option<Piece<'t>>
    ensures { MatchOption result (IsStuck (cleared text.now)) (λ p. IsPieceAhead text.now p) }
{
    let (first, _) = text.split_first()?;
    if separates(*first) {
        return Some(Piece {
            length: 1,
            symbol: None,
        });
    }
    if begins_comment(text) {
        return Some(Piece {
            length: line_length(text),
            symbol: None,
        });
    }
    let symbol = symbol_ahead(*first, text)?;
    Some(Piece {
        length: symbol.text().len(),
        symbol: Some(symbol),
    })
}

// The place after some bytes.
fn after(place: Span, bytes: &[u8]) -> Span
    requires line { place.line + length bytes.now < 2 ^ 32 }
    requires col { place.col + length bytes.now < 2 ^ 32 }
    ensures { result ≡ moved_over place bytes.now }
{
    let mut place = place;
    for byte in bytes {
        place = after_byte(place, *byte);
    }
    place
}

/// The tokens at the front of a text, as many as fit.
pub fn lex<'t>(alloc: Global, text: &'t [u8]) -> Result<Lexed<'t>, AllocError>
    requires { length text.now < 2 ^ 32 - 1 }
    ensures { IfOk result (λ l. IsLexed text.now (tokens_of l.tokens.items) l.end l.whole) }
{
    let mut tokens = Vec::new(alloc);
    let mut rest = text;
    let mut place = Span { line: 1, col: 1 };
    while let Some(piece) = first_piece(rest) {
        if let Some(symbol) = piece.symbol {
            tokens.push(Token {
                symbol,
                span: place,
            })?;
        }
        let (front, back) = rest.split_at(piece.length);
        place = after(place, front);
        rest = back;
    }
    Ok(Lexed {
        tokens,
        end: place,
        whole: rest.is_empty(),
    })
}
