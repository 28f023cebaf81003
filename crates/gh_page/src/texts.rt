// The texts that a call is given, in place of files.

ghost use Rattle.std.specs.Prelude.{◌≡◌, [], Some, None, false, IfSome, IfNone};
ghost use Rattle.gh_page.specs.Modes.{table_over};

use gh_base::outside::{Failed, Inputs};

/// Two texts by the names `program` and `second`, of which one at a time is read. A call never fails.
#[derive(Drop)]
pub(crate) struct Texts<'a> {
    first: &'a [u8],
    second: &'a [u8],
    left: &'a [u8],
    is_begun: bool,
    ghost idle: { is_begun ≡ false → left.now ≡ [] },
}

impl<'a> Texts<'a> {
    /// The two texts, and none of them begun.
    pub(crate) fn new(first: &'a [u8], second: &'a [u8]) -> Texts<'a>
        ensures first { result.first.now ≡ first.now }
        ensures second { result.second.now ≡ second.now }
    {
        Texts {
            first,
            second,
            left: &[],
            is_begun: false,
        }
    }

    // The text of a name.
    fn text_of(&self, name: &str) -> Option<&'a [u8]>
        ensures some { IfSome result (λ s. table_over self.now.first.now self.now.second.now name.now ≡ Some s.now) }
        ensures none { IfNone result (table_over self.now.first.now self.now.second.now name.now ≡ None) }
    {
        if name == "program" {
            return Some(self.first);
        }
        if name == "second" {
            return Some(self.second);
        }
        None
    }
}

impl Inputs for Texts<'_> {
    ghost table = { λ t. Some (table_over t.first.now t.second.now) };

    ghost left = { λ t. Some t.left.now };

    ghost begun = { λ t. t.is_begun };

    ghost faults = { λ _. 0 };

    ghost calls = { λ _. None };

    ghost names = { λ _. None };

    fn begin(&mut self, name: &str) -> Result<bool, Failed> {
        match self.text_of(name) {
            Some(text) => {
                self.is_begun = true;
                self.left = text;
                Ok(true)
            }
            None => {
                self.left = &[];
                self.is_begun = false;
                Ok(false)
            }
        }
    }

    fn read(&mut self, into: &mut [u8]) -> Result<usize, Failed> {
        let count = self.left.len().min(into.len());
        into[..count].copy_from_slice(&self.left[..count]);
        self.left = &self.left[count..];
        Ok(count)
    }
}
