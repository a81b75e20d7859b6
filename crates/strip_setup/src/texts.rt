//! The texts of refusals.
ghost use Rattle.std.specs.Prelude.{◌≡◌, ◌++◌, codes, IfOk};
ghost use Rattle.std.specs.Fmt.{decimal};
ghost use Rattle.strip_setup.specs.Texts.{error_text, limit_name};

use crate::errors::{LimitKind, SetupError};
use itoa::Buffer;
use std::alloc::{AllocError, Global};

impl LimitKind {
    /// How a limit is written: as its variant is called.
    fn name(self) -> &'static [u8]
        ensures { result.now ≡ limit_name self }
    {
        match self {
            LimitKind::Tables => b"Tables",
            LimitKind::Streams => b"Streams",
            LimitKind::Functions => b"Functions",
            LimitKind::Rules => b"Rules",
            LimitKind::Columns => b"Columns",
            LimitKind::Entries => b"Entries",
            LimitKind::Queries => b"Queries",
            LimitKind::Steps => b"Steps",
            LimitKind::Rows => b"Rows",
            LimitKind::Delay => b"Delay",
        }
    }
}

fn named(alloc: Global, word: &[u8], name: &[u8]) -> Result<Vec<u8>, AllocError>
    ensures { IfOk result (λ text. text.items ≡ word.now ++ name.now) }
{
    let mut text = Vec::from_slice(alloc, word)?;
    text.extend_from_slice(name)?;
    Ok(text)
}

fn numbered(alloc: Global, word: &[u8], n: u128) -> Result<Vec<u8>, AllocError>
    ensures { IfOk result (λ text. text.items ≡ word.now ++ decimal n) }
{
    let mut text = Vec::from_slice(alloc, word)?;
    let mut digits = Buffer::new();
    text.extend_from_slice(digits.format(n).as_bytes())?;
    Ok(text)
}

fn limit_text(alloc: Global, what: LimitKind, at: u64) -> Result<Vec<u8>, AllocError>
    ensures { IfOk result (λ text. text.items ≡ codes "Limit " ++ (limit_name what ++ (codes " " ++ decimal at))) }
{
    let mut text = named(alloc, b"Limit ", what.name())?;
    let at = numbered(alloc, b" ", at as u128)?;
    text.extend_from_slice(at.as_slice())?;
    Ok(text)
}

impl SetupError {
    /// The refusal as a reply says it behind `refused `: the cause and its fields. A reader gets this text, so it is part of the
    /// format.
    #[tactic(auto, unfolding(crate::specs::Texts::error_text))]
    pub fn text(&self, alloc: Global) -> Result<Vec<u8>, AllocError>
        ensures { IfOk result (λ text. text.items ≡ error_text self.now) }
    {
        match self {
            SetupError::Closed => Vec::from_slice(alloc, b"Closed"),
            SetupError::Exists { name } => named(alloc, b"Exists ", name.bytes()),
            SetupError::Unknown { name } => named(alloc, b"Unknown ", name.bytes()),
            SetupError::Limit { what, at } => limit_text(alloc, *what, *at),
            SetupError::KindMismatch { column: Some(name) } => {
                named(alloc, b"KindMismatch ", name.bytes())
            }
            SetupError::KindMismatch { column: None } => Vec::from_slice(alloc, b"KindMismatch -"),
            SetupError::TooWide { magnitude } => numbered(alloc, b"TooWide ", *magnitude),
            SetupError::NoKey => Vec::from_slice(alloc, b"NoKey"),
            SetupError::ReadsDerived { name } => named(alloc, b"ReadsDerived ", name.bytes()),
            SetupError::NoCount => Vec::from_slice(alloc, b"NoCount"),
            SetupError::NotBound { column } => named(alloc, b"NotBound ", column.bytes()),
            SetupError::BoundDiffers { function } => {
                named(alloc, b"BoundDiffers ", function.bytes())
            }
            SetupError::NotGrouped => Vec::from_slice(alloc, b"NotGrouped"),
            SetupError::Memory => Vec::from_slice(alloc, b"Memory"),
        }
    }
}
