//! What is left of a text, and steps over its front.

ghost use Rattle.std.specs.Prelude.{◌≡◌, ◌<◌, ◌≤◌, ◌^◌, ℕ, ◌↔◌, IfNone, IsTrue, MatchOption, true, false, length};
ghost use Rattle.std.specs.Str.Parse.{digits_value};
ghost use Rattle.std.specs.Str.{all_ascii_digits};
ghost use Rattle.std.specs.Fmt.{decimal};
ghost use Rattle.gh_draw.specs.Drawn.{IsValue};
ghost use Rattle.gh_draw.specs.Reading.{IsFrontRead, ShowsWord, ShowsNumber, ShowsValue, ShowsCell, IsLine, IsSplitAt};
ghost use Rattle.gh_draw.specs.Reading.{IsValueOf, HasLeadingZero, IsLineEnd, HasNoEnd};

use std::str;

/// What is left of a text.
#[derive(Drop)]
pub struct Cursor<'t> {
    pub text: &'t [u8],
}

// How many digits stand first.
fn digits_first(text: &[u8]) -> usize
    ensures { IsSplitAt text.now result }
{
    for (i, byte) in text.iter().enumerate() {
        if !byte.is_ascii_digit() {
            return i;
        }
    }
    text.len()
}

// The value of a text of digits, where it has one that fits 32 bits.
fn parsed(text: &str) -> Option<u32>
    requires { all_ascii_digits text.now ≡ true }
    ensures { MatchOption result (0 < length text.now → 2 ^ 32 ≤ digits_value 10 text.now) (IsValueOf text.now) }
{
    match text.parse::<u32>() {
        Ok(value) => Some(value),
        Err(_) => None,
    }
}

// Whether a zero stands before other digits.
fn has_leading_zero(digits: &[u8]) -> bool
    ensures { IsTrue result ↔ HasLeadingZero digits.now }
{
    digits.len() > 1 && digits[0] == b'0'
}

// The value of digits, where they have no leading zero and it fits 32 bits.
fn value_of(digits: &[u8]) -> Option<u32>
    requires { all_ascii_digits digits.now ≡ true }
    ensures { MatchOption result ((n : ℕ) → IsValue n → digits.now ≡ decimal n → ⊥)
        (λ n. digits.now ≡ decimal n) }
{
    if has_leading_zero(digits) {
        return None;
    }
    match str::from_utf8(digits) {
        Ok(text) => parsed(text),
        Err(_) => None,
    }
}

/// Where the first line feed stands.
pub fn line_end(text: &[u8]) -> Option<usize>
    ensures { MatchOption result (HasNoEnd text.now) (IsLineEnd text.now) }
{
    for (i, byte) in text.iter().enumerate() {
        if *byte == b'\n' {
            return Some(i);
        }
    }
    None
}

impl<'t> Cursor<'t> {
    /// Takes a word, where it is next; else nothing is taken.
    pub fn take(&mut self, word: &[u8]) -> Option<()>
        ensures read { IsFrontRead (ShowsWord word.now) self.old.text.now self.new.text.now result }
        ensures stays { IfNone result (self.new.text.now ≡ self.old.text.now) }
    {
        self.text = self.text.strip_prefix(word)?;
        Some(())
    }

    /// Takes a number without leading zeros, where it is next; else nothing is taken.
    pub fn number(&mut self) -> Option<u32>
        ensures read { IsFrontRead ShowsNumber self.old.text.now self.new.text.now result }
        ensures stays { IfNone result (self.new.text.now ≡ self.old.text.now) }
    {
        let (digits, rest) = self.text.split_at(digits_first(self.text));
        let value = value_of(digits)?;
        self.text = rest;
        Some(value)
    }

    /// Takes ` NAME=VALUE` for a name, where it is next, and gives the value; else nothing is taken.
    pub fn value(&mut self, name: &[u8]) -> Option<u32>
        ensures read { IsFrontRead (ShowsValue name.now) self.old.text.now self.new.text.now result }
        ensures stays { IfNone result (self.new.text.now ≡ self.old.text.now) }
    {
        let mut ahead = Cursor { text: self.text };
        ahead.take(b" ")?;
        ahead.take(name)?;
        ahead.take(b"=")?;
        let value = ahead.number()?;
        self.text = ahead.text;
        Some(value)
    }

    /// Takes `PLACE->CONTENT`, where it is next, and gives both; else nothing is taken.
    pub fn cell(&mut self) -> Option<(u32, u32)>
        ensures read { IsFrontRead ShowsCell self.old.text.now self.new.text.now result }
        ensures stays { IfNone result (self.new.text.now ≡ self.old.text.now) }
    {
        let mut ahead = Cursor { text: self.text };
        let at = ahead.number()?;
        ahead.take(b"->")?;
        let to = ahead.number()?;
        self.text = ahead.text;
        Some((at, to))
    }

    /// Skips a line, if there is one; else nothing is skipped.
    pub fn line(&mut self) -> bool
        ensures line { IsLine self.old.text.now self.new.text.now result }
        ensures stays { result ≡ false → self.new.text.now ≡ self.old.text.now }
    {
        let Some(end) = line_end(self.text) else {
            return false;
        };
        self.text = &self.text[end + 1..];
        true
    }
}
