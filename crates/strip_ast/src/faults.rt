/// Why bytes are no statement.
#[derive(Clone, Copy, Debug, PartialEq, Eq)]
pub enum Why {
    /// No token can be cut from here.
    NoToken,
    /// A name over 32 bytes, a number over 38 digits or a text over 255 bytes.
    TooLong,
    /// No statement goes on with the token here.
    Unexpected,
    /// The 257th operator, or the 65th open parenthesis, of one expression.
    TooDeep,
    /// The statement isn't complete.
    Ended,
}

/// Why bytes are no statement, and at which of them, counted from 0.
#[derive(Clone, Copy, Debug, PartialEq, Eq)]
pub struct ParseError {
    pub at: u64,
    pub why: Why,
}

/// Why there is no answer: bytes at fault, or want of memory.
#[derive(Clone, Copy, Debug, PartialEq, Eq)]
pub enum ParseFail {
    Fault(ParseError),
    Memory,
}
