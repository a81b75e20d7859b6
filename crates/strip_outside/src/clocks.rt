/// A clock that counts in milliseconds.
pub trait Clock {
    /// The time by this clock. Nothing is promised of it: it may stand still or go back.
    fn now(&self) -> u64;
}
