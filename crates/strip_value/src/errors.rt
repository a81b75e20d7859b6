use thiserror::Error;

/// Why bytes are no `Text`.
#[derive(Debug, Drop, Error)]
pub enum TextError {
    /// The bytes are not UTF-8; `at` is the place, from 0, of the first byte of no whole character.
    #[error("byte {at} begins no character of UTF-8")]
    NotUtf8 { at: u64 },
    /// There are `len` bytes, more than 255.
    #[error("a text of {len} bytes is longer than 255")]
    TooLong { len: u64 },
    #[error("out of memory")]
    Memory,
}

/// Why bytes are no `Name`.
#[derive(Debug, Drop, Error)]
pub enum NameError {
    #[error("a name is 1 to 40 of a to z, 0 to 9 and _, the first no digit")]
    BadName,
    #[error("out of memory")]
    Memory,
}
