//! Names: texts of 1 to 64 letters, digits and `_`.

ghost use Rattle.std.specs.Prelude.{◌≡◌, ◌↔◌, IfOk, IfSome, IsSome, IsTrue};
ghost use Rattle.gh_base.specs.Names.{IsNameText, is_name_byte};

use smallvec::SmallVec;
use std::alloc::{AllocError, Global};
use std::marker::Model;

/// A text of 1 to 64 letters, digits and `_`, at most 16 of them in place. Contracts see it as the list of its bytes.
#[derive(Debug, Drop)]
pub struct Name {
    text: SmallVec<u8, 16>,
}

impl Model for Name {
    ghost use Rattle.std.specs.Prelude.{ℕ, List};
    ghost use Rattle.gh_base.specs.Names.{IsNameText};

    ghost Value = { List ℕ };

    ghost view = { λ n. n.text.items };

    ghost invariant = { λ n. IsNameText n.text.items };
}

/// Whether a byte may stand in a name.
pub fn is_word_byte(byte: u8) -> bool
    ensures { IsTrue result ↔ IsTrue (is_name_byte byte) }
{
    byte.is_ascii_alphanumeric() || byte == b'_'
}

impl Name {
    /// The name that a text is, if it is one.
    pub fn new(alloc: Global, text: &str) -> Result<Option<Name>, AllocError>
        ensures same { IfOk result (λ o. IfSome o (λ n. n ≡ text.now)) }
        ensures found { IfOk result (λ o. IsSome o ↔ IsNameText text.now) }
    {
        Name::from_bytes(alloc, text.as_bytes())
    }

    /// The name that some bytes are, if they are one.
    pub fn from_bytes(alloc: Global, bytes: &[u8]) -> Result<Option<Name>, AllocError>
        ensures same { IfOk result (λ o. IfSome o (λ n. n ≡ bytes.now)) }
        ensures found { IfOk result (λ o. IsSome o ↔ IsNameText bytes.now) }
    {
        if bytes.is_empty() || bytes.len() > 64 || !bytes.iter().all(|b| is_word_byte(*b)) {
            return Ok(None);
        }
        Ok(Some(Name {
            text: SmallVec::from_slice(alloc, bytes)?,
        }))
    }

    /// The name of a text that is known to be one.
    pub fn from_word(alloc: Global, word: &[u8]) -> Result<Name, AllocError>
        requires { IsNameText word.now }
        ensures { IfOk result (λ n. n ≡ word.now) }
    {
        Ok(Name {
            text: SmallVec::from_slice(alloc, word)?,
        })
    }

    /// The bytes of the name.
    pub fn bytes(&self) -> &[u8]
        ensures text { result.now ≡ self.now }
        ensures valid { IsNameText result.now }
    {
        self.text.as_slice()
    }

    /// A copy of the name.
    pub fn copy(&self, alloc: Global) -> Result<Name, AllocError>
        ensures { IfOk result (λ n. n ≡ self.now) }
    {
        Ok(Name {
            text: SmallVec::from_slice(alloc, self.text.as_slice())?,
        })
    }
}
