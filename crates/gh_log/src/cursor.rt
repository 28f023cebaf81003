//! Reading a text from its front.

ghost use Rattle.std.specs.Prelude.{◌≡◌, ◌∷◌, ◌≤◌, [], false, length, take, drop, IsTrue, All};
ghost use Rattle.std.specs.Bool.{MatchBool};
ghost use Rattle.std.specs.Char.{is_ascii_digit};
ghost use Rattle.std.specs.Str.Parse.{AllDigits};
ghost use Rattle.gh_log.specs.Reading.{IsPartRead, IsNotFront, SpellsText, SpellsByte, SpellsNumber, SpellsBytes};
ghost use Rattle.gh_log.specs.Reading.{EndsNumber, IsNumberOf, TakesText, TakesByte};

use crate::error::Refusal;

/// How many digits a number has whose first one is zero.
const ALONE: usize = 1;

/// A text that is read from its front: the bytes that are left. A step that takes a part goes past it; after a
/// refusal nothing is said of what is left.
#[derive(Drop)]
pub struct Reader<'t> {
    pub rest: &'t [u8],
}

// The length of the digits at the front.
fn digits_length(text: &[u8]) -> usize
    ensures within { result ≤ length text.now }
    ensures digits { All (λ b. IsTrue (is_ascii_digit b)) (take result text.now) }
    ensures ends { EndsNumber (drop result text.now) }
{
    text.iter()
        .position(|byte| !byte.is_ascii_digit())
        .unwrap_or(text.len())
}

// The value of at most ten digits.
fn value_of(digits: &[u8]) -> u64
    requires digits { AllDigits 10 digits.now }
    requires few { length digits.now ≤ 10 }
    ensures { result ≡ Rattle.std.specs.Str.Parse.digits_value 10 digits.now }
{
    let mut value = 0;
    for digit in digits {
        value = value * 10 + u64::from(*digit - b'0');
    }
    value
}

// The number that digits write in decimal.
fn number_of(digits: &[u8]) -> Option<u32>
    requires { AllDigits 10 digits.now }
    ensures { IsNumberOf digits.now result }
{
    let [first, ..] = digits else {
        return None;
    };
    if digits.len() > 10 {
        return None;
    }
    if *first == b'0' {
        if digits.len() > ALONE {
            return None;
        }
        return Some(0);
    }
    let value = value_of(digits);
    if value > u64::from(u32::MAX) {
        return None;
    }
    Some(value as u32)
}

impl<'t> Reader<'t> {
    /// Whether a text is next.
    pub fn is_next(&self, wanted: &[u8]) -> bool
        ensures { MatchBool result (IsNotFront wanted.now self.now.rest.now → ⊥)
            (IsNotFront wanted.now self.now.rest.now) }
    {
        self.rest.starts_with(wanted)
    }

    /// Takes a text, where it is next. Otherwise takes nothing.
    pub fn skip(&mut self, wanted: &[u8]) -> bool
        ensures { TakesText wanted.now self.old.rest.now self.new.rest.now result }
    {
        if !self.rest.starts_with(wanted) {
            return false;
        }
        self.rest = &self.rest[wanted.len()..];
        true
    }

    /// Takes a number in decimal: digits up to a byte that is none, without a zero before others.
    ///
    /// # Errors
    ///
    /// `Outside` where no number is next that isn't above the limit.
    pub fn number(&mut self, limit: u32) -> Result<u32, Refusal>
        ensures { IsPartRead (SpellsNumber limit self.old.rest.now) (λ n. n) result self.new.rest.now }
    {
        let (digits, rest) = self.rest.split_at(digits_length(self.rest));
        let Some(number) = number_of(digits) else {
            return Err(Refusal::Outside);
        };
        if number > limit {
            return Err(Refusal::Outside);
        }
        self.rest = rest;
        Ok(number)
    }

    /// Takes the next byte, whichever it is.
    pub(crate) fn any(&mut self) -> Result<u8, Refusal>
        ensures { IsPartRead (SpellsByte self.old.rest.now) (λ b. b) result self.new.rest.now }
    {
        match self.rest {
            [first, rest @ ..] => {
                self.rest = rest;
                Ok(*first)
            }
            [] => Err(Refusal::Outside),
        }
    }

    /// Takes a byte, where it is next.
    pub(crate) fn take(&mut self, byte: u8) -> bool
        ensures { TakesByte byte self.old.rest.now self.new.rest.now result }
    {
        match self.rest {
            [first, rest @ ..] if *first == byte => {
                self.rest = rest;
                true
            }
            _ => false,
        }
    }

    /// Takes a text.
    pub(crate) fn expect(&mut self, wanted: &[u8]) -> Result<(), Refusal>
        ensures { IsPartRead (SpellsText wanted.now self.old.rest.now) (λ u. u) result self.new.rest.now }
    {
        if !self.skip(wanted) {
            return Err(Refusal::Outside);
        }
        Ok(())
    }

    /// Takes the byte `mark`, and a number below 256 after it.
    pub(crate) fn byte(&mut self, mark: u8) -> Result<u8, Refusal>
        ensures { IsPartRead (SpellsBytes mark 1 self.old.rest.now) (λ n. n ∷ []) result self.new.rest.now }
    {
        if !self.take(mark) {
            return Err(Refusal::Outside);
        }
        let number = self.number(255)?;
        Ok(number as u8)
    }

    /// Takes two numbers below 256, each after the byte `mark`.
    pub(crate) fn pair(&mut self, mark: u8) -> Result<(u8, u8), Refusal>
        requires { is_ascii_digit mark ≡ false }
        ensures { IsPartRead (SpellsBytes mark 2 self.old.rest.now) (λ p. p.0 ∷ p.1 ∷ []) result self.new.rest.now }
    {
        let first = self.byte(mark)?;
        let second = self.byte(mark)?;
        Ok((first, second))
    }
}
