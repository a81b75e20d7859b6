ghost use Rattle.std.specs.Prelude.{◌≡◌, IsTrue};
ghost use Rattle.std.specs.List.{list_all};
ghost use Rattle.strip_value.specs.Name.{IsNameOf, is_name as named, is_word_byte as word_byte};

use crate::copies::Duplicate;
use crate::errors::NameError;
use crate::items::Items;
use std::alloc::{AllocError, Global};
use std::marker::Model;

/// The most bytes of a name.
const LONGEST: usize = 40;

/// The name of a table, a column, a stream, a rule or a function, seen as its bytes.
#[derive(Debug, Drop)]
pub struct Name {
    bytes: Vec<u8>,
}

impl Model for Name {
    ghost use Rattle.std.specs.Prelude.{ℕ, List, IsTrue};
    ghost use Rattle.strip_value.specs.Name.{is_name};

    ghost Value = { List ℕ };

    ghost view = { λ n. n.bytes.items };

    ghost invariant = { λ n. IsTrue (is_name n.bytes.items) };
}

/// A list of names.
pub type NameList = Items<Name>;

fn is_word_byte(byte: u8) -> bool
    ensures { result ≡ word_byte byte }
{
    byte.is_ascii_lowercase() || byte.is_ascii_digit() || byte == b'_'
}

fn are_word_bytes(bytes: &[u8]) -> bool
    ensures { result ≡ list_all word_byte bytes.now }
{
    bytes.iter().all(|byte| is_word_byte(*byte))
}

fn is_name(bytes: &[u8]) -> bool
    ensures { result ≡ named bytes.now }
{
    match bytes {
        [] => false,
        [first, ..] => {
            bytes.len() <= LONGEST && are_word_bytes(bytes) && !first.is_ascii_digit()
        }
    }
}

impl Name {
    pub fn of(alloc: Global, bytes: &[u8]) -> Result<Name, NameError>
        ensures { IsNameOf bytes.now result }
    {
        if !is_name(bytes) {
            return Err(NameError::BadName);
        }
        let Ok(bytes) = Vec::from_slice(alloc, bytes) else {
            return Err(NameError::Memory);
        };
        Ok(Name { bytes })
    }

    pub fn bytes(&self) -> &[u8]
        ensures value { result.now ≡ self.now }
    {
        self.bytes.as_slice()
    }
}

impl Duplicate for Name {
    fn copy(&self, alloc: Global) -> Result<Name, AllocError> {
        let bytes = Vec::from_slice(alloc, self.bytes.as_slice())?;
        Ok(Name { bytes })
    }
}
