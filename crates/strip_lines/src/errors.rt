/// Why no piece was answered.
#[derive(Clone, Copy, PartialEq, Eq, Debug)]
pub enum ReadError {
    /// A read failed, and the source has counted it. What was taken before is kept.
    Fault,
    /// The source gave a byte past the limit.
    TooMuch { limit: u64 },
    /// There was no memory. What was taken is kept, and a later call goes on.
    Memory,
}
