//! The texts of faults.
ghost use Rattle.std.specs.Prelude.{◌≡◌, IfOk};
ghost use Rattle.strip_ast.specs.Faults.{fault_text, why_name};

use crate::faults::{ParseError, Why};
use itoa::Buffer;
use std::alloc::{AllocError, Global};

impl Why {
    /// How the kind of a fault is written: as its variant is called.
    fn name(self) -> &'static [u8]
        ensures { result.now ≡ why_name self }
    {
        match self {
            Why::NoToken => b"NoToken",
            Why::TooLong => b"TooLong",
            Why::Unexpected => b"Unexpected",
            Why::TooDeep => b"TooDeep",
            Why::Ended => b"Ended",
        }
    }
}

impl ParseError {
    /// The fault as a reply says it behind `refused `: `Parse AT WHY`.
    #[tactic(auto, unfolding(crate::specs::Faults::fault_text))]
    pub fn text(&self, alloc: Global) -> Result<Vec<u8>, AllocError>
        ensures { IfOk result (λ text. text.items ≡ fault_text self.now) }
    {
        let mut text = Vec::from_slice(alloc, b"Parse ")?;
        let mut digits = Buffer::new();
        text.extend_from_slice(digits.format(self.at).as_bytes())?;
        text.push(b' ')?;
        text.extend_from_slice(self.why.name())?;
        Ok(text)
    }
}
