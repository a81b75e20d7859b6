//! The replies to pieces that are refused before an engine is asked.
ghost use Rattle.std.specs.Prelude.{◌≡◌, ◌≢◌, IfOk};
ghost use Rattle.strip_script.specs.Refusals.{line_of_error, line_of_fault, line_of_not_built, line_of_not_ready, line_of_oversize, line_of_refused, line_of_unended};
ghost use Rattle.strip_setup.specs.declared.errors.SetupError.TheVariants.{Memory};

use itoa::Buffer;
use std::alloc::{AllocError, Global};
use strip_ast::ParseError;
use strip_catalog::SetupError;

/// The reply for a cause.
fn refused(alloc: Global, cause: &[u8]) -> Result<Vec<u8>, AllocError>
    ensures { IfOk result (λ text. text.items ≡ line_of_refused cause.now) }
{
    let mut text = Vec::from_slice(alloc, b"refused ")?;
    text.extend_from_slice(cause)?;
    text.push(b'\n')?;
    Ok(text)
}

/// The reply to bytes that are no statement.
pub(crate) fn fault_text(alloc: Global, fault: ParseError) -> Result<Vec<u8>, AllocError>
    ensures { IfOk result (λ text. text.items ≡ line_of_fault fault) }
{
    let cause = fault.text(alloc)?;
    refused(alloc, cause.as_slice())
}

/// The reply to a piece of so many bytes, more than a statement may have.
pub(crate) fn oversize_text(alloc: Global, length: u64) -> Result<Vec<u8>, AllocError>
    ensures { IfOk result (λ text. text.items ≡ line_of_oversize length) }
{
    let mut cause = Vec::from_slice(alloc, b"Oversize ")?;
    let mut digits = Buffer::new();
    cause.extend_from_slice(digits.format(length).as_bytes())?;
    refused(alloc, cause.as_slice())
}

/// The reply to what stands behind the last `;`.
pub(crate) fn unended_text(alloc: Global) -> Result<Vec<u8>, AllocError>
    ensures { IfOk result (λ text. text.items ≡ line_of_unended) }
{
    refused(alloc, b"Unended")
}

/// The reply to a statement that comes before `ready` and belongs behind it.
pub(crate) fn not_ready_text(alloc: Global) -> Result<Vec<u8>, AllocError>
    ensures { IfOk result (λ text. text.items ≡ line_of_not_ready) }
{
    refused(alloc, b"NotReady")
}

/// The reply to a statement that isn't built yet.
pub(crate) fn not_built_text(alloc: Global) -> Result<Vec<u8>, AllocError>
    ensures { IfOk result (λ text. text.items ≡ line_of_not_built) }
{
    refused(alloc, b"NotBuilt")
}

/// The reply for a refusal of the catalog.
pub(crate) fn error_text(alloc: Global, error: &SetupError) -> Result<Vec<u8>, AllocError>
    ensures { IfOk result (λ text. text.items ≡ line_of_error error.now) }
{
    let cause = error.text(alloc)?;
    refused(alloc, cause.as_slice())
}

/// The reply to a statement or an act that the catalog refuses; there is none where memory was wanting.
pub(crate) fn refusal_text(alloc: Global, error: &SetupError) -> Result<Vec<u8>, AllocError>
    ensures text { IfOk result (λ text. text.items ≡ line_of_error error.now) }
    ensures refused { IfOk result (λ text. error.now ≢ Memory) }
{
    match error {
        SetupError::Memory => Err(AllocError),
        error => error_text(alloc, error),
    }
}
