//! What is wrong in the bytes of a text, before it has tokens.

ghost use Rattle.std.specs.Prelude.{◌≡◌, ℕ, ◌<◌, ◌-◌, ◌^◌, length, MatchOption, false};
ghost use Rattle.std.specs.Iterator.{YieldsFirst, item_count};
ghost use Rattle.gh_ast.specs.Tokens.{is_character, moved, IsFirstByte, IsFirstDeep};
ghost use Rattle.gh_parse.specs.Scanning.{cleared_from, IsDeepPlace};

use gh_base::name::is_word_byte;
use gh_base::place::Span;

/// Brackets nest at most this deep.
const DEPTH: usize = 64;

/// Whether a byte is one of the characters of the grammar.
pub fn is_grammar_byte(byte: u8) -> bool
    ensures { result ≡ is_character byte }
{
    is_word_byte(byte) || b" \t\r\n{}(),;:.=!&*|->/".contains(&byte)
}

// Whether a byte opens a bracket.
fn opens(byte: u8) -> bool
    ensures { result ≡ Rattle.gh_ast.specs.Tokens.opens byte }
{
    byte == b'(' || byte == b'{'
}

// Whether a byte closes a bracket.
fn closes(byte: u8) -> bool
    ensures { result ≡ Rattle.gh_ast.specs.Tokens.closes byte }
{
    byte == b')' || byte == b'}'
}

/// The place after a byte.
pub fn after_byte(place: Span, byte: u8) -> Span
    requires line { place.line < 2 ^ 32 - 1 }
    requires col { place.col < 2 ^ 32 - 1 }
    ensures { result ≡ moved place byte }
{
    if byte == b'\n' {
        Span {
            line: place.line + 1,
            col: 1,
        }
    } else {
        Span {
            line: place.line,
            col: place.col + 1,
        }
    }
}

/// The bytes of a text, with spaces in the place of its comments.
#[derive(Drop)]
struct Cleared<'t> {
    rest: &'t [u8],
    in_comment: bool,
}

impl<'t> Cleared<'t> {
    fn new(text: &'t [u8]) -> Cleared<'t>
        ensures rest { result.rest.now ≡ text.now }
        ensures outside { result.in_comment ≡ false }
    {
        Cleared {
            rest: text,
            in_comment: false,
        }
    }
}

impl Iterator for Cleared<'_> {
    type Item = u8;

    ghost next_gives = { YieldsFirst (λ s. cleared_from s.in_comment s.rest.now) };

    ghost remaining = { item_count (λ s. cleared_from s.in_comment s.rest.now) };

    fn next(&mut self) -> Option<u8> {
        let (first, rest) = self.rest.split_first()?;
        self.in_comment = if self.in_comment {
            *first != b'\n'
        } else {
            *first == b'/' && rest.first().copied() == Some(b'/')
        };
        self.rest = rest;
        Some(if self.in_comment { b' ' } else { *first })
    }
}

/// The offset of the first byte outside comments that is no character of the grammar.
pub fn strange_byte(text: &[u8]) -> Option<u32>
    requires { length text.now < 2 ^ 32 - 1 }
    ensures { MatchOption result ((k : ℕ) → IsFirstByte text.now k → ⊥) (λ k. IsFirstByte text.now k) }
{
    let at = Cleared::new(text).position(|byte| !is_grammar_byte(byte))?;
    Some(at as u32)
}

/// The place of the first bracket with which too many stand open.
pub fn deep_bracket(text: &[u8]) -> Option<Span>
    requires { length text.now < 2 ^ 32 - 1 }
    ensures { MatchOption result ((k : ℕ) → IsFirstDeep text.now k → ⊥) (λ place. IsDeepPlace text.now place) }
{
    let mut place = Span { line: 1, col: 1 };
    let mut opened = 0usize;
    let mut closed = 0usize;
    for byte in Cleared::new(text) {
        opened += usize::from(opens(byte));
        closed += usize::from(closes(byte));
        if opened > closed + DEPTH {
            return Some(place);
        }
        place = after_byte(place, byte);
    }
    None
}
